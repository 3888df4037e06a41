//! The parts of a query line as they are written.

ghost use Rattle.std.specs.Prelude.{◌≡◌, ◌≢◌, ◌++◌, ◌≤◌, length, IfSome, IfNone, MatchOption, List};
ghost use Rattle.std.specs.Prelude.{ℕ};
ghost use Rattle.rpq_model.specs.declared.mode.Mode.{Mode as ModeOf};
ghost use Rattle.query_file.specs.FirstField.{EndsField, IsFirstField};
ghost use Rattle.query_file.specs.LineTexts.{IsModeCut, AreTexts, HasTexts};

use crate::first_field::{split_field, without_blanks};
use rpq_model::Mode;

/// The parts of a query line as they are written.
#[derive(Clone, Copy)]
pub struct LineText<'a> {
    pub name: &'a [u8],
    pub size: &'a [u8],
    pub slide: &'a [u8],
    pub mode: Mode,
    pub expr: &'a [u8],
}

/// The parts of a line of the form `query NAME window SIZE slide SLIDE MODE EXPR`, whatever its
/// name and its lengths are.
pub fn line_text(line: &[u8]) -> Option<LineText<'_>>
    ensures some { IfSome result (λ text. AreTexts line.now text.name.now text.size.now
        text.slide.now text.mode text.expr.now) }
    ensures none { IfNone result (HasTexts line.now → ⊥) }
    ensures shorter { IfSome result (λ text. length text.expr.now ≤ length line.now) }
{
    let rest = behind_word(line, b"query")?;
    let (name, rest) = split_field(rest)?;
    let rest = behind_word(rest, b"window")?;
    let (size, rest) = split_field(rest)?;
    let rest = behind_word(rest, b"slide")?;
    let (slide, rest) = split_field(rest)?;
    let (mode, expr) = split_mode(rest)?;
    Some(LineText {
        name,
        size,
        slide,
        mode,
        expr,
    })
}

/// What stands behind the first field, if this word is it.
fn behind_word<'a>(line: &'a [u8], word: &[u8]) -> Option<&'a [u8]>
    ensures some { IfSome result (λ rest. IsFirstField line.now word.now rest.now) }
    ensures none { IfNone result ((rest : List ℕ) → ¬ (IsFirstField line.now word.now rest)) }
    ensures shorter { IfSome result (λ rest. length rest.now ≤ length line.now) }
{
    let (field, rest) = split_field(line)?;
    if field == word { Some(rest) } else { None }
}

/// The mode that stands first behind blanks, and what stands behind its colon.
fn split_mode(rest: &[u8]) -> Option<(Mode, &[u8])>
    requires { EndsField rest.now }
    ensures some { IfSome result (λ r. IsModeCut rest.now r.0 r.1.now) }
    ensures none { IfNone result ((mode : ModeOf) (expr : List ℕ) →
        ¬ (IsModeCut rest.now mode expr)) }
    ensures shorter { IfSome result (λ r. length r.1.now ≤ length rest.now) }
{
    let text = without_blanks(rest);
    if let Some(expr) = behind_prefix(text, b"arbitrary:") {
        return Some((Mode::Arbitrary, expr));
    }
    let expr = behind_prefix(text, b"simple:")?;
    Some((Mode::Simple, expr))
}

/// What stands behind the prefix, if the text has it.
fn behind_prefix<'a>(text: &'a [u8], prefix: &[u8]) -> Option<&'a [u8]>
    ensures { MatchOption result ((rest : List ℕ) → text.now ≢ prefix.now ++ rest)
        (λ rest. text.now ≡ prefix.now ++ rest.now) }
{
    text.strip_prefix(prefix)
}
