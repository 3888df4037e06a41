//! What may be asked.

/// What is asked.
#[derive(Clone, Copy)]
pub enum Request {
    Read,
    Copy,
    Words,
    Positions,
    Automaton,
    Command,
    Contained,
    File,
    Word,
    Answers,
    Events,
    Rows,
    View,
    Live,
    Clock,
    Tuple,
    Line,
    Length,
    Fields,
    Kind,
    Number,
    Name,
    Order,
    Source,
    All,
}

impl Request {
    /// What the keyword asks.
    pub fn named(keyword: &[u8]) -> Option<Request> {
        match keyword {
            b"read" => Some(Request::Read),
            b"copy" => Some(Request::Copy),
            b"words" => Some(Request::Words),
            b"positions" => Some(Request::Positions),
            b"automaton" => Some(Request::Automaton),
            b"command" => Some(Request::Command),
            b"contained" => Some(Request::Contained),
            b"file" => Some(Request::File),
            b"word" => Some(Request::Word),
            b"answers" => Some(Request::Answers),
            b"events" => Some(Request::Events),
            b"rows" => Some(Request::Rows),
            b"view" => Some(Request::View),
            b"live" => Some(Request::Live),
            b"clock" => Some(Request::Clock),
            b"tuple" => Some(Request::Tuple),
            b"line" => Some(Request::Line),
            b"length" => Some(Request::Length),
            b"fields" => Some(Request::Fields),
            b"kind" => Some(Request::Kind),
            b"number" => Some(Request::Number),
            b"name" => Some(Request::Name),
            b"order" => Some(Request::Order),
            b"source" => Some(Request::Source),
            b"all" => Some(Request::All),
            _ => None,
        }
    }
}
