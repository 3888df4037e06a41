//! Reading expressions.

ghost use Rattle.std.specs.Prelude.{◌≡◌, ◌≢◌, ◌+◌, ◌^◌, ◌<◌, ◌≤◌, Ok, Err, Some, IfOk, OnOk};
ghost use Rattle.std.specs.Prelude.{MatchResult, length};
ghost use Rattle.path_syntax.specs.Reading.{IsReady, label_place_after, signs_after, within_limits};
ghost use Rattle.path_syntax.specs.Reading.{read_byte, read_all, ended_by, whole_of, name_length};
ghost use Rattle.path_syntax.specs.Reading.{reading, start, Gives};
ghost use Rattle.path_syntax.specs.declared.read.BadExpr.{BadExpr};
ghost use Rattle.path_syntax.specs.Views.{state_of, mode_of, reader_of};
ghost use Rattle.path_syntax.specs.Expression.{Expression, expression};
ghost use Rattle.path_syntax.specs.Faults.{is_sign, IsWithinLimits, IsFault, IsOutcome, Tells};
ghost use Rattle.path_syntax.specs.Faults.{IsTwoWayOutcome};
ghost use Rattle.path_syntax.specs.FaultTexts.{bad_expr_text};
ghost use Rattle.path_syntax.specs.Grammar.{one_way, two_way, IsText, IsTwoWayText};
ghost use Rattle.path_syntax.specs.Plain.{IsPlainExpression};
ghost use Rattle.path_syntax.specs.Size.{nodes};

use crate::expr::Expr;
use crate::state::State;
use rpq_base::{MAX_NAME, Memory};
use std::alloc::Global;
use std::error::Error;
use std::fmt;

/// The most signs that a text has.
const MAX_SIGNS: u32 = 512;

/// Why bytes are the text of no expression. Places count from 1.
#[derive(Clone, Copy, Debug, PartialEq, Eq)]
pub enum BadExpr {
    /// The byte at this place is the first that can't go on any expression.
    Unexpected(u32),
    /// The bytes end where no expression is complete.
    Ended,
    /// There are more than 512 of the signs `/`, `|`, `*`, `+`, `?` and `(` outside quoted labels.
    TooLarge,
    /// The label that begins at this place has more than 255 bytes.
    LongName(u32),
    /// Memory ran out.
    Memory,
}

impl From<Memory> for BadExpr {
    ghost from_gives = { λ _ fault. fault ≡ BadExpr.Memory };

    fn from(_: Memory) -> Self {
        Self::Memory
    }
}

impl fmt::Display for BadExpr {
    ghost output = { λ fault. Some (bad_expr_text fault) };

    fn fmt<W: fmt::Write>(&self, f: &mut fmt::Formatter<W>) -> fmt::Result {
        match self {
            BadExpr::Unexpected(at) => write!(f, "unexpected byte {at}"),
            BadExpr::Ended => f.write_str("expression ended"),
            BadExpr::TooLarge => f.write_str("expression too large"),
            BadExpr::LongName(at) => write!(f, "long label {at}"),
            BadExpr::Memory => f.write_str("out of memory"),
        }
    }
}

impl Error for BadExpr {}

/// Where the reader stands, with its counts.
#[derive(Debug, Drop)]
struct Reader {
    state: State,
    /// The place of the last byte at which an operand was to come. Where a label stands directly
    /// before, it began there.
    label_place: u32,
    /// The signs so far.
    signs: u32,
    /// The bytes so far.
    place: u32,
}

/// The reader in this state, if it is within the limits.
fn within_limits(state: State, label_place: u32, signs: u32, place: u32) -> Result<Reader, BadExpr>
    ensures exact { Gives reader_of result
        (within_limits (state_of state) label_place signs place) }
    ensures signs { IfOk result (λ reader. reader.signs ≤ 512) }
    ensures place { IfOk result (λ reader. reader.place ≡ place) }
    ensures ready { (name_length (mode_of state.mode) ≤ 255 → IsReady (mode_of state.mode)) →
        IfOk result (λ reader. IsReady (mode_of reader.state.mode)) }
{
    if state.name_length() > MAX_NAME {
        return Err(BadExpr::LongName(label_place));
    }
    if signs > MAX_SIGNS {
        return Err(BadExpr::TooLarge);
    }
    Ok(Reader {
        state,
        label_place,
        signs,
        place,
    })
}

/// Whether the byte is a sign that counts.
fn is_sign(byte: u8) -> bool
    ensures { result ≡ is_sign byte }
{
    b"/|*+?(".contains(&byte)
}

impl Reader {
    fn new(alloc: Global) -> Reader
        ensures exact { reader_of result ≡ start }
    {
        Reader {
            state: State::new(alloc),
            label_place: 0,
            signs: 0,
            place: 0,
        }
    }

    /// The place of the label that may begin with the next byte, or else that began last.
    fn label_place_after(&self) -> u32
        requires { self.now.place < 2 ^ 24 }
        ensures { result ≡ label_place_after (reader_of self.now) }
    {
        if self.state.takes_operand() {
            self.place + 1
        } else {
            self.label_place
        }
    }

    /// The signs with this byte.
    fn signs_after(&self, byte: u8) -> u32
        requires { self.now.signs ≤ 512 }
        ensures { result ≡ signs_after (reader_of self.now) byte }
    {
        if self.state.is_outside() && is_sign(byte) {
            self.signs + 1
        } else {
            self.signs
        }
    }

    /// The reader after one more byte.
    #[tactic(auto, unfolding(crate::specs::Reading::read_byte))]
    fn next(self, alloc: Global, inverses: bool, byte: u8) -> Result<Reader, BadExpr>
        requires ready { IsReady (mode_of self.state.mode) }
        requires place { self.place < 2 ^ 24 }
        requires signs { self.signs ≤ 512 }
        ensures exact { Gives reader_of result (read_byte inverses (reader_of self) byte) }
        ensures ready { IfOk result (λ reader. IsReady (mode_of reader.state.mode)) }
        ensures place { IfOk result (λ reader. reader.place ≡ self.place + 1) }
        ensures signs { IfOk result (λ reader. reader.signs ≤ 512) }
    {
        let label_place = self.label_place_after();
        let signs = self.signs_after(byte);
        let place = self.place + 1;
        match self.state.step(alloc, inverses, byte)? {
            Some(state) => within_limits(state, label_place, signs, place),
            None => Err(BadExpr::Unexpected(place)),
        }
    }

    /// The expression, if the bytes end here.
    fn end(self, alloc: Global) -> Result<Expr, BadExpr>
        requires ready { IsReady (mode_of self.state.mode) }
        ensures exact { Gives expression result (ended_by (whole_of (state_of self.state))) }
    {
        match self.state.whole(alloc)? {
            Some(whole) => Ok(whole),
            None => Err(BadExpr::Ended),
        }
    }
}

/// The reader after all the bytes.
fn read_all(alloc: Global, inverses: bool, bytes: &[u8]) -> Result<Reader, BadExpr>
    requires { length bytes.now < 2 ^ 24 + 1 }
    ensures exact { Gives reader_of result (read_all inverses bytes.now start) }
    ensures ready { IfOk result (λ reader. IsReady (mode_of reader.state.mode)) }
{
    let mut reader = Reader::new(alloc);
    for byte in bytes {
        reader = reader.next(alloc, inverses, *byte)?;
    }
    Ok(reader)
}

/// The expression of these bytes, or the first fault. A `^` before a label takes it backwards where
/// inverses are read, and is refused else.
#[tactic(auto, unfolding(crate::specs::Reading::reading))]
fn read(alloc: Global, inverses: bool, bytes: &[u8]) -> Result<Expr, BadExpr>
    requires { length bytes.now < 2 ^ 24 + 1 }
    ensures { Gives expression result (reading inverses bytes.now) }
{
    read_all(alloc, inverses, bytes)?.end(alloc)
}

/// The expression that these bytes are the text of, or the fault that shows first as they are read
/// from left to right. No label is taken backwards.
///
/// It goes through the bytes once and keeps what stands before each open parenthesis, without
/// recursion.
pub fn read_expr(alloc: Global, bytes: &[u8]) -> Result<Expr, BadExpr>
    requires { length bytes.now < 2 ^ 24 + 1 }
    // The answer is the outcome of these bytes, unless memory runs out.
    ensures outcome { MatchResult result
        (λ found. IsOutcome bytes.now (Ok (expression found)))
        (λ fault. fault ≢ BadExpr.Memory → IsOutcome bytes.now (Err fault)) }
    // So what is read has this text, and no fault shows in it.
    ensures found { IfOk result (λ found. IsText bytes.now (expression found)) }
    ensures within { OnOk result (IsWithinLimits one_way bytes.now) }
    ensures plain { IfOk result (λ found. IsPlainExpression (expression found)) }
    ensures small { IfOk result (λ found. nodes (expression found) < 2 ^ 32) }
    // Each text of an expression that is within the limits is read, unless memory runs out.
    ensures whole { (e : Expression) → IsText bytes.now e → IsWithinLimits one_way bytes.now →
        MatchResult result (λ found. expression found ≡ e) (λ fault. fault ≡ BadExpr.Memory) }
    // Each fault comes exactly where it shows first, unless memory runs out.
    ensures fault { (fault : BadExpr) → fault ≢ BadExpr.Memory →
        Tells result fault (IsFault one_way fault bytes.now) }
{
    read(alloc, false, bytes)
}

/// The expression that these bytes are the text of, as [`read_expr`] reads it, where a `^` before a
/// label takes it backwards.
///
/// Blanks may follow the `^`, and it isn't counted among the signs. What `read_expr` reads is read
/// as the same expression.
pub fn read_two_way(alloc: Global, bytes: &[u8]) -> Result<Expr, BadExpr>
    requires { length bytes.now < 2 ^ 24 + 1 }
    // The answer is the outcome of these bytes, unless memory runs out.
    ensures outcome { MatchResult result
        (λ found. IsTwoWayOutcome bytes.now (Ok (expression found)))
        (λ fault. fault ≢ BadExpr.Memory → IsTwoWayOutcome bytes.now (Err fault)) }
    // So what is read has this text, and no fault shows in it.
    ensures found { IfOk result (λ found. IsTwoWayText bytes.now (expression found)) }
    ensures within { OnOk result (IsWithinLimits two_way bytes.now) }
    ensures small { IfOk result (λ found. nodes (expression found) < 2 ^ 32) }
    // Each text of an expression that is within the limits is read, unless memory runs out.
    ensures whole { (e : Expression) → IsTwoWayText bytes.now e → IsWithinLimits two_way bytes.now →
        MatchResult result (λ found. expression found ≡ e) (λ fault. fault ≡ BadExpr.Memory) }
    // Each fault comes exactly where it shows first, unless memory runs out.
    ensures fault { (fault : BadExpr) → fault ≢ BadExpr.Memory →
        Tells result fault (IsFault two_way fault bytes.now) }
{
    read(alloc, true, bytes)
}
