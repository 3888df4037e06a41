//! How the reading of a text can end.

/// How the reading of a text ended.
#[derive(Clone, Copy, Debug, PartialEq, Eq)]
pub enum TextEnd<E> {
    /// It was read to its end.
    Whole,
    /// It has too many bytes.
    LongText,
    /// A read of it failed.
    Read,
    /// Memory ran out.
    Memory,
    /// A line ended it.
    Line(E),
}
