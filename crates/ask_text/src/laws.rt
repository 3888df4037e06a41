//! Laws of the definitions. The functions do nothing: their contracts are the laws, and a law that
//! rests on one of the layer below calls it.

ghost use Rattle.ask_text.specs.ByParts.{AsksByParts};
ghost use Rattle.ask_text.specs.Examples.{AskExamples, EndedExamples, ReplyExamples};
ghost use Rattle.ask_text.specs.Laws.{SessionsAreFew, OneReply, RepliesTellAnswers};
ghost use Rattle.ask_text.specs.Parts.{LineByParts};

use answer_view::{rows_hold_answers, views_are_one};
use rpq_model::QueryDef;

/// Exactly which fields of a line begin a session or are an ask, and which fault is told of others.
pub fn line_by_parts()
    ensures { LineByParts }
{}

/// A file gives the sessions of its lines, or the first fault of a line behind lines without one.
pub fn asks_by_parts()
    ensures { AsksByParts }
{}

/// A file gives at most 64 sessions of at most 1,024 asks, whose queries are among those given.
pub fn sessions_are_few()
    ensures { SessionsAreFew }
{}

/// An ask has one reply at a position of a history.
pub fn one_reply()
    ensures { OneReply }
{
    views_are_one();
}

/// The replies at a position of a history tell the answers of a query over the entries up to there.
pub fn replies_tell_answers(query: &QueryDef)
    ensures { RepliesTellAnswers query.now }
{
    // The slide of a window is above 0.
    let _slide = query.window.slide;
    rows_hold_answers(query)
}

/// Some files with what they give.
pub fn ask_examples()
    ensures { AskExamples }
{}

/// Some replies.
pub fn reply_examples()
    ensures { ReplyExamples }
{}

/// Which asks are told as ended at a position.
pub fn ended_examples()
    ensures { EndedExamples }
{}
