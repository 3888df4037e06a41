//! Asks, alone, in a session and with their replies.

ghost use Rattle.std.specs.Prelude.{◌≡◌};
ghost use Rattle.ask_text.specs.Ranges.{ended_at};

use rpq_base::Name;
use std::marker::Model;

/// What a reader wants to know. A query is told by its number, counted from 0.
#[derive(Debug, PartialEq, Eq, Drop)]
pub enum Ask {
    /// All pairs of the query.
    Answers(u32),
    /// All vertices to which the query leads from this one.
    From(u32, Name),
    /// Whether the pair of these vertices is an answer of the query.
    Pair(u32, Name, Name),
    /// The number of the query's pairs.
    Count(u32),
    /// That so many entries are published.
    Wait(u64),
    /// When the pair of these vertices ends as an answer of the query.
    Until(u32, Name, Name),
    /// The number of pairs of each query.
    Stats,
    /// The clock.
    Clock,
    /// All vertices to which the query leads from this one, each with the end of the pair.
    Ends(u32, Name),
    /// All vertices from which the query leads to this one.
    To(u32, Name),
}

impl Ask {
    /// Whether the ask is answered as ended at this position: a wait for a later one is, and no
    /// other ask.
    pub fn is_ended_at(&self, position: u64) -> bool
        ensures { result ≡ ended_at self.now position }
    {
        match self {
            Self::Wait(number) => position < *number,
            _ => false,
        }
    }
}

/// The asks of one reader, in their order. Contracts see the list of them.
#[derive(Debug, Drop)]
pub struct Session {
    pub asks: Vec<Ask>,
}

impl Model for Session {
    ghost use Rattle.std.specs.Prelude.{List};
    ghost use Rattle.std.specs.Coded.{codes};
    ghost use Rattle.ask_text.specs.declared.ask.Ask.{Ask};
    ghost use Rattle.ask_text.specs.AskCode.{ask_code};

    ghost Value = { List Ask };

    ghost coded = { Prim.hlevel (codes, ask_code) };

    ghost view = { λ session. session.asks.items };
}

/// An ask of a session, the position at which it was answered, and the reply.
#[derive(Debug)]
pub struct Answered {
    pub ask: Ask,
    pub position: u64,
    pub text: Vec<u8>,
}

impl Answered {
    /// The reply, of which nothing is copied.
    pub fn into_text(self) -> Vec<u8>
        ensures { result.items ≡ self.text }
    {
        let Answered {
            ask: _ask,
            position: _position,
            text,
        } = self;
        text
    }
}

impl Drop for Answered {
    fn drop(self) {
        let Answered {
            ask: _ask,
            position: _position,
            text: _text,
        } = self;
    }
}

impl Model for Answered {
    ghost use Rattle.std.specs.Coded.{codes};
    ghost use Rattle.ask_text.specs.AskCode.{ask_code};
    ghost use Rattle.ask_text.specs.Answered.{AnsweredValue};

    ghost Value = { AnsweredValue };

    ghost coded = { Prim.hlevel (codes, ask_code) };

    ghost view = { λ answered. record {
      ask = answered.ask;
      position = answered.position;
      text = answered.text.items;
    } };
}
