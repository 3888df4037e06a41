//! The kinds of bytes in the text of an expression.

ghost use Rattle.std.specs.Prelude.{◌≡◌};
ghost use Rattle.path_syntax.specs.Grammar.{is_bare_byte};
ghost use Rattle.path_syntax.specs.Reading.{kind_of};

use rpq_base::Name;

/// What a byte may do in the text of an expression.
#[derive(Clone, Copy, Debug, PartialEq, Eq)]
pub(crate) enum ByteKind {
    /// A space or a tab.
    Blank,
    /// A byte of a bare label.
    Bare,
    Quote,
    Backslash,
    Slash,
    Bar,
    Asterisk,
    PlusSign,
    QuestionMark,
    Open,
    Close,
    Caret,
    /// A byte of names that has no meaning yet, and stands only within quotes.
    Reserved,
    /// A byte that stands nowhere.
    Strange,
}

/// Whether the byte may stand in a label without quotes.
pub(crate) fn is_bare_byte(byte: u8) -> bool
    ensures { result ≡ is_bare_byte byte }
{
    Name::is_name_byte(byte) && !b"/|*+?()^!\"\\".contains(&byte)
}

#[tactic(auto, unfolding(crate::specs::Reading::kind_of))]
pub(crate) fn kind_of(byte: u8) -> ByteKind
    ensures { result ≡ kind_of byte }
{
    if is_bare_byte(byte) {
        return ByteKind::Bare;
    }
    match byte {
        b' ' | b'\t' => ByteKind::Blank,
        b'"' => ByteKind::Quote,
        b'\\' => ByteKind::Backslash,
        b'/' => ByteKind::Slash,
        b'|' => ByteKind::Bar,
        b'*' => ByteKind::Asterisk,
        b'+' => ByteKind::PlusSign,
        b'?' => ByteKind::QuestionMark,
        b'(' => ByteKind::Open,
        b')' => ByteKind::Close,
        b'^' => ByteKind::Caret,
        b'!' => ByteKind::Reserved,
        _ => ByteKind::Strange,
    }
}
