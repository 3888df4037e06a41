//! Why a queries file isn't taken.

ghost use Rattle.std.specs.Prelude.{◌≡◌, ◌≤◌, Some, false, length};
ghost use Rattle.query_file.specs.declared.fault.QueryKind.{QueryKind};
ghost use Rattle.query_file.specs.FaultTexts.{has_parts, query_kind_text, query_fault_text};
ghost use Rattle.query_file.specs.Kinds.{kind_of_expr, kind_of_build};

use crate::word_text::WordText;
use dfa_build::BuildFault;
use path_syntax::BadExpr;
use rpq_base::{Memory, Name, Word};
use std::alloc::{AllocError, AllocFailed};
use std::error::Error;
use std::fmt;

/// What is wrong with a line of a queries file.
#[derive(Debug, Drop)]
pub enum QueryKind {
    /// The line isn't of the form `query NAME window N slide N MODE EXPR`.
    Shape,
    /// The size or the slide of the window is no number, or out of range.
    Number,
    /// An earlier query has this name.
    Twice(Name),
    /// As many queries as a file may have stand before.
    TooMany,
    /// No line of the file is a query.
    NoQuery,
    /// The expression has this fault.
    Expr(BadExpr),
    /// The expression has this number of labels, which is too large.
    TooManyLabels(u64),
    /// Words reach too many sets of the expression's positions.
    TooManyStates,
    /// The query takes simple paths, and its language doesn't have the property of containment: the
    /// least three words that show it, as in [`containment_test::Verdict`]. To tell them as text is
    /// an error where a name isn't UTF-8.
    NotContained { p: Word, q: Word, w: Word },
    /// Memory ran out.
    Memory,
}

/// The first line of a queries file that has a fault, counted from 1, and what is wrong with it.
/// Where no line is a query, the number of lines.
#[derive(Debug, Drop)]
pub struct QueryFault {
    pub line: u64,
    pub kind: QueryKind,
}

impl QueryKind {
    /// What is wrong, as it is told, where no part of the kind is told with it.
    pub fn text(&self) -> &'static str
        ensures text { has_parts self.now ≡ false → result.now ≡ query_kind_text self.now }
        ensures short { length result.now ≤ 100 }
    {
        match self {
            Self::Shape => "shape",
            Self::Number => "number",
            Self::Twice(_) => "name twice",
            Self::TooMany => "too many queries",
            Self::NoQuery => "no query",
            Self::Expr(_) | Self::TooManyLabels(_) | Self::NotContained { .. } => "",
            Self::TooManyStates => "too many states",
            Self::Memory => "out of memory",
        }
    }
}

impl From<Memory> for QueryKind {
    ghost from_gives = { λ _ kind. kind ≡ QueryKind.Memory };

    fn from(_: Memory) -> Self {
        Self::Memory
    }
}

impl From<AllocError> for QueryKind {
    ghost from_gives = { λ _ kind. kind ≡ QueryKind.Memory };

    fn from(_: AllocError) -> Self {
        Self::Memory
    }
}

impl<T: Drop> From<AllocFailed<T>> for QueryKind {
    ghost from_gives = { λ _ kind. kind ≡ QueryKind.Memory };

    fn from(_: AllocFailed<T>) -> Self {
        Self::Memory
    }
}

impl From<BadExpr> for QueryKind {
    ghost from_gives = { λ fault kind. kind ≡ kind_of_expr fault };

    fn from(fault: BadExpr) -> Self {
        match fault {
            BadExpr::Memory => Self::Memory,
            BadExpr::Unexpected(_) | BadExpr::Ended | BadExpr::TooLarge | BadExpr::LongName(_) =>
                Self::Expr(fault),
        }
    }
}

impl From<BuildFault> for QueryKind {
    ghost from_gives = { λ fault kind. kind ≡ kind_of_build fault };

    fn from(fault: BuildFault) -> Self {
        match fault {
            BuildFault::TooManyLabels(count) => Self::TooManyLabels(count),
            BuildFault::TooManyStates => Self::TooManyStates,
            BuildFault::Memory => Self::Memory,
        }
    }
}

impl fmt::Display for QueryKind {
    ghost output = { λ kind. Some (query_kind_text kind) };

    fn fmt<W: fmt::Write>(&self, f: &mut fmt::Formatter<W>) -> fmt::Result {
        match self {
            QueryKind::Expr(fault) => write!(f, "{fault}"),
            QueryKind::TooManyLabels(count) => write!(f, "{count} labels"),
            QueryKind::NotContained { p, q, w } => {
                let (p, q, w) = (WordText(p), WordText(q), WordText(w));
                write!(f, "not contained {p} {q} {w}")
            }
            QueryKind::Shape
            | QueryKind::Number
            | QueryKind::Twice(_)
            | QueryKind::TooMany
            | QueryKind::NoQuery
            | QueryKind::TooManyStates
            | QueryKind::Memory => f.write_str(self.text()),
        }
    }
}

impl fmt::Display for QueryFault {
    ghost output = { λ fault. Some (query_fault_text fault) };

    fn fmt<W: fmt::Write>(&self, f: &mut fmt::Formatter<W>) -> fmt::Result {
        write!(f, "line {}: {}", self.line, self.kind)
    }
}

impl Error for QueryKind {}

impl Error for QueryFault {}
