//! A program that asks the libraries below the engine, so that what they answer can be compared
//! with what it should be. `stdin` has some 2,200 requests, and `stdout` the answers, which an
//! evaluator from outside gave. `run_cases` has the requests to the engine and to whole runs, and
//! `case_lines` says what a line and its fields are.
//!
//! - `read EXPR`: the expression as it is written, how many labels stand in it, and `+` where it
//!   has the empty word, else `-`; or the fault of the text.
//! - `copy EXPR`: a copy of it as it is written.
//! - `positions EXPR`: its position automaton, or the fault.
//! - `automaton EXPR`: the deterministic automaton: its labels, its rows with `-` for no step,
//!   and `+` for each final state; or the fault.
//! - `command WORDS`: the settings of a command line, the words with `;` between them: workers, the
//!   cap of the history (2^61 for a run without end), `+` for a check, tuples to generate, `+` for
//!   edges taken backwards, `+` for paths, joins, asks, replies, the window to save, the saved
//!   window, the asks and the replies of each reader, the files of faulty lines, queries, streams; or
//!   the fault.
//! - `contained EXPR`: `yes` where its language has the property of containment, else `no` and the
//!   least three words that show it; or the fault.
//! - `file TEXT`: the queries of a queries file, `|` behind each: its name, the size and the slide
//!   of its window, its mode, its automaton, and `yes` or `no` with three words, as by `contained`;
//!   or the first fault with the number of its line.
//! - `words EXPR WORDS`: for each word `+` where the matcher takes it, else `-`, and then the
//!   same of the automaton.
//! - `word WORD`: the word as it is written.
//! - `answers SIZE SLIDE MODE EXPR TUPLES`: the answers of the query after each tuple, `;` behind
//!   each.
//! - `events SIZE SLIDE MODE EXPR TUPLES`: what each tuple changes of them, `;` behind each.
//! - `rows SIZE SLIDE MODE EXPR TUPLES`: the answers after each tuple with their ends, `;` behind
//!   each.
//! - `view SIZE SLIDE MODE EXPR FROM TO TUPLES`: the view after each tuple, `;` behind each: its
//!   position, the clock, the number of answers, `+` where the pair of both names is one, else `-`,
//!   its end, behind `|` the targets of the first name with their ends, and behind another `|` the
//!   number of the sources of the second name, and these as lines.
//! - `live SIZE SLIDE CLOCK TUPLES`: the places of the live entries, from 0, with their edges.
//! - `clock TUPLES`: the clock of the history.
//! - `tuple LINE`: the tuple of a line as it is written, `nothing`, or the fault of the line.
//! - `line TEXT`, `fields LINE`: the lines of a text, the fields of a line, `|` behind each.
//! - `length TEXT`: the length of the first line.
//! - `kind LINE`: whether the line is blank, a comment or neither.
//! - `number MOST TEXT`: the number that a text writes, or the fault.
//! - `name BYTES`: the name, or the fault.
//! - `order NAME NAME`: how the first name compares with the second.
//! - `source PIECE LINE BYTES TEXT`: the lines of a source that gives its bytes in pieces of this
//!   length, for the limits of a line and of all bytes; then how they ended, and how many there
//!   were.
//! - `all PIECE BYTES TEXT`: all bytes of such a source, or the fault.
//!
//! `MODE` is `arbitrary` or `simple`. A word is the names of its labels with `/` between them;
//! `WORDS` are words with `;` between them, and `TUPLES` lines of a stream with `;` between them:
//! a name with such a byte has it as `%` and two digits.
#![tactic(auto)]

mod automata;
mod commands;
mod containment;
mod expressions;
mod files;
mod queries;
mod request;
mod sources;
mod texts;
mod views;

use case_lines::{Fields, Output, answer_lines};
use request::Request;
use std::alloc::Global;

/// Answers one request.
fn answer(alloc: Global, out: &mut Output, request: Request, fields: Fields) -> anyhow::Result<()> {
    match request {
        Request::Read => expressions::answer_read(alloc, out, fields),
        Request::Copy => expressions::answer_copy(alloc, out, fields),
        Request::Words => automata::answer_words(alloc, out, fields),
        Request::Positions => automata::answer_positions(alloc, out, fields),
        Request::Automaton => automata::answer_automaton(alloc, out, fields),
        Request::Command => commands::answer_command(alloc, out, fields),
        Request::Contained => containment::answer_contained(alloc, out, fields),
        Request::File => files::answer_file(alloc, out, fields),
        Request::Word => expressions::answer_word(alloc, out, fields),
        Request::Answers => queries::answer_answers(alloc, out, fields),
        Request::Events => queries::answer_events(alloc, out, fields),
        Request::Rows => queries::answer_rows(alloc, out, fields),
        Request::View => views::answer_view(alloc, out, fields),
        Request::Live => queries::answer_live(alloc, out, fields),
        Request::Clock => queries::answer_clock(alloc, out, fields),
        Request::Tuple => texts::answer_tuple(alloc, out, fields),
        Request::Line => texts::answer_line(alloc, out, fields),
        Request::Length => texts::answer_length(alloc, out, fields),
        Request::Fields => texts::answer_fields(alloc, out, fields),
        Request::Kind => texts::answer_kind(alloc, out, fields),
        Request::Number => texts::answer_number(alloc, out, fields),
        Request::Name => texts::answer_name(alloc, out, fields),
        Request::Order => texts::answer_order(alloc, out, fields),
        Request::Source => sources::answer_source(alloc, out, fields),
        Request::All => sources::answer_all(alloc, out, fields),
    }
}

/// Answers the request of this keyword, if there is one. Whether there is.
fn answer_keyword(
    alloc: Global,
    out: &mut Output,
    keyword: &[u8],
    fields: Fields,
) -> anyhow::Result<bool> {
    match Request::named(keyword) {
        Some(request) => {
            answer(alloc, out, request, fields)?;
            Ok(true)
        }
        None => Ok(false),
    }
}

fn main(rt: HostRuntime) -> anyhow::Result<()> {
    let alloc = rt.alloc();
    answer_lines(&rt, alloc, |out, keyword, fields| {
        answer_keyword(alloc, out, keyword, fields)
    })
}
