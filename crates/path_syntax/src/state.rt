//! Where the reader of an expression stands, and the step that a byte makes.

ghost use Rattle.std.specs.Prelude.{◌≡◌, ◌≢◌, [], ◌∷◌, ◌++◌, None, Some, IfOk};
ghost use Rattle.std.specs.Prelude.{option_map, false};
ghost use Rattle.rpq_base.specs.Names.{IsName};
ghost use Rattle.path_syntax.specs.Expression.{expression, Atom};
ghost use Rattle.path_syntax.specs.Grammar.{label_with};
ghost use Rattle.path_syntax.specs.Reading.{in_sequence, in_alternatives, whole_with};
ghost use Rattle.path_syntax.specs.Reading.{after_element, after_primary, in_operand, in_bare};
ghost use Rattle.path_syntax.specs.Reading.{in_quotes, in_escape, ended_label, step, name_length};
ghost use Rattle.path_syntax.specs.Reading.{takes_operand, is_outside, closed, whole_of, initial};
ghost use Rattle.path_syntax.specs.Reading.{IsReady, Operand, state_with, empty_frame};
ghost use Rattle.path_syntax.specs.Views.{frame_of, frames_of, state_of, mode_of, before_of};

use crate::byte_kind::{ByteKind, kind_of};
use crate::expr::Expr;
use rpq_base::{Label, Memory, Name};
use std::alloc::Global;

/// What stands before an element in its parentheses.
#[derive(Debug, Drop)]
pub(crate) struct Frame {
    /// The alternatives before its sequence.
    pub alternatives: Option<Expr>,
    /// The elements before it in its sequence.
    pub sequence: Option<Expr>,
}

/// The beginning of a label.
#[derive(Debug, Drop)]
pub(crate) struct BegunLabel {
    /// The bytes of its name so far.
    pub name: Vec<u8>,
    /// Whether it is taken backwards.
    pub back: bool,
}

/// What stands directly before the byte that is read next.
#[derive(Debug, Drop)]
pub(crate) enum ReaderMode {
    /// A sign behind which an operand is to come, or nothing. Behind a `^` it is a label.
    Operand { back: bool },
    /// A bare label, which may go on.
    BareLabel(BegunLabel),
    /// A quote and the label so far.
    QuotedLabel(BegunLabel),
    /// The same, and a backslash.
    Escape(BegunLabel),
    /// A primary, which may be repeated.
    Primary(Expr),
    /// An element that may not be repeated any more.
    Element(Expr),
}

/// Where the reader stands.
#[derive(Debug, Drop)]
pub(crate) struct State {
    /// What stands before each parenthesis that is open, the innermost last.
    pub outer: Vec<Frame>,
    pub frame: Frame,
    pub mode: ReaderMode,
}

/// The sequence of what stands before and an element.
fn in_sequence(alloc: Global, before: Option<Expr>, element: Expr) -> Result<Expr, Memory>
    ensures { IfOk result (λ whole. expression whole ≡
        in_sequence (before_of before) (expression element)) }
{
    match before {
        None => Ok(element),
        Some(before) => Ok(Expr::Seq(Box::new(alloc, before)?, Box::new(alloc, element)?)),
    }
}

/// The alternative of what stands before and a sequence.
fn in_alternatives(alloc: Global, before: Option<Expr>, sequence: Expr) -> Result<Expr, Memory>
    ensures { IfOk result (λ whole. expression whole ≡
        in_alternatives (before_of before) (expression sequence)) }
{
    match before {
        None => Ok(sequence),
        Some(before) => Ok(Expr::Alt(Box::new(alloc, before)?, Box::new(alloc, sequence)?)),
    }
}

/// The expression in the frame that ends with this element.
fn whole_with(alloc: Global, frame: Frame, element: Expr) -> Result<Expr, Memory>
    ensures { IfOk result (λ whole. expression whole ≡
        whole_with (frame_of frame) (expression element)) }
{
    let sequence = in_sequence(alloc, frame.sequence, element)?;
    in_alternatives(alloc, frame.alternatives, sequence)
}

/// The state at the end of a parenthesis that holds this expression, if one is open.
fn closed(mut outer: Vec<Frame>, whole: Expr) -> Option<State>
    ensures { option_map state_of result ≡ closed (frames_of outer.items) (expression whole) }
{
    let frame = outer.pop()?;
    Some(State {
        outer,
        frame,
        mode: ReaderMode::Primary(whole),
    })
}

/// What may stand behind an element: a blank, `/`, `|` or `)`.
fn after_element(
    alloc: Global,
    outer: Vec<Frame>,
    frame: Frame,
    element: Expr,
    kind: ByteKind,
) -> Result<Option<State>, Memory>
    ensures { IfOk result (λ next. option_map state_of next ≡
        after_element (frames_of outer.items) (frame_of frame) (expression element) kind) }
{
    let (frame, mode) = match kind {
        ByteKind::Blank => (frame, ReaderMode::Element(element)),
        ByteKind::Slash => (
            with_element(alloc, frame, element)?,
            ReaderMode::Operand { back: false },
        ),
        ByteKind::Bar => (
            with_sequence(alloc, frame, element)?,
            ReaderMode::Operand { back: false },
        ),
        ByteKind::Close => return Ok(closed(outer, whole_with(alloc, frame, element)?)),
        _ => return Ok(None),
    };
    Ok(Some(State { outer, frame, mode }))
}

/// The frame with one more element in its sequence.
fn with_element(alloc: Global, frame: Frame, element: Expr) -> Result<Frame, Memory>
    ensures { IfOk result (λ after. frame_of after ≡
        record (frame_of frame) {
          sequence = Some (in_sequence (before_of frame.sequence) (expression element));
        }) }
{
    Ok(Frame {
        alternatives: frame.alternatives,
        sequence: Some(in_sequence(alloc, frame.sequence, element)?),
    })
}

/// The frame with one more alternative, which ends with this element.
fn with_sequence(alloc: Global, frame: Frame, element: Expr) -> Result<Frame, Memory>
    ensures { IfOk result (λ after. frame_of after ≡
        record {
          alternatives = Some (whole_with (frame_of frame) (expression element));
          sequence = None;
        }) }
{
    Ok(Frame {
        alternatives: Some(whole_with(alloc, frame, element)?),
        sequence: None,
    })
}

/// What may stand behind a primary: a sign of repetition, or what may stand behind an element.
fn after_primary(
    alloc: Global,
    outer: Vec<Frame>,
    frame: Frame,
    primary: Expr,
    kind: ByteKind,
) -> Result<Option<State>, Memory>
    ensures { IfOk result (λ next. option_map state_of next ≡
        after_primary (frames_of outer.items) (frame_of frame) (expression primary) kind) }
{
    let mode = match kind {
        ByteKind::Blank => ReaderMode::Primary(primary),
        ByteKind::Asterisk => ReaderMode::Element(Expr::Star(Box::new(alloc, primary)?)),
        ByteKind::PlusSign => ReaderMode::Element(Expr::Plus(Box::new(alloc, primary)?)),
        ByteKind::QuestionMark => ReaderMode::Element(Expr::Opt(Box::new(alloc, primary)?)),
        _ => return after_element(alloc, outer, frame, primary, kind),
    };
    Ok(Some(State { outer, frame, mode }))
}

/// What may stand where an operand is to come: a blank, the beginning of a label, `(`, and `^`
/// where inverses are read. Behind `^` it is a blank or the beginning of a label alone.
fn in_operand(
    alloc: Global,
    inverses: bool,
    outer: Vec<Frame>,
    frame: Frame,
    back: bool,
    kind: ByteKind,
    byte: u8,
) -> Result<Option<State>, Memory>
    ensures { IfOk result (λ next. option_map state_of next ≡
        in_operand inverses (frames_of outer.items) (frame_of frame) back kind byte) }
{
    let mode = match kind {
        ByteKind::Blank => ReaderMode::Operand { back },
        ByteKind::Quote => ReaderMode::QuotedLabel(BegunLabel::new(alloc, back)),
        ByteKind::Bare => ReaderMode::BareLabel(BegunLabel::new(alloc, back).with_byte(byte)?),
        ByteKind::Open if !back => return Ok(Some(opened(outer, frame)?)),
        ByteKind::Caret if inverses && !back => ReaderMode::Operand { back: true },
        _ => return Ok(None),
    };
    Ok(Some(State { outer, frame, mode }))
}

/// The state behind a `(`.
fn opened(mut outer: Vec<Frame>, frame: Frame) -> Result<State, Memory>
    ensures { IfOk result (λ next. state_of next ≡
        state_with (frame_of frame ∷ frames_of outer.items) empty_frame (Operand false)) }
{
    outer.push(frame)?;
    Ok(State {
        outer,
        frame: Frame {
            alternatives: None,
            sequence: None,
        },
        mode: ReaderMode::Operand { back: false },
    })
}

impl BegunLabel {
    /// No byte of a label yet.
    fn new(alloc: Global, back: bool) -> BegunLabel
        ensures name { result.name.items ≡ [] }
        ensures back { result.back ≡ back }
    {
        BegunLabel {
            name: Vec::new(alloc),
            back,
        }
    }

    /// The label with one more byte.
    fn with_byte(mut self, byte: u8) -> Result<BegunLabel, Memory>
        ensures name { IfOk result (λ after. after.name.items ≡ self.name.items ++ byte ∷ []) }
        ensures back { IfOk result (λ after. after.back ≡ self.back) }
    {
        self.name.push(byte)?;
        Ok(self)
    }

    /// The expression of the label. Only memory can be wanting.
    fn atom(&self, alloc: Global) -> Result<Expr, Memory>
        requires { IsName self.now.name.items }
        ensures { IfOk result (λ atom. expression atom ≡
            Atom (label_with self.now.name.items self.now.back)) }
    {
        let name = Name::of(alloc, &self.name)?;
        Ok(Expr::Atom(Label {
            name,
            back: self.back,
        }))
    }
}

/// What may stand behind a byte of a bare label: another one, or what may stand behind a primary.
fn in_bare(
    alloc: Global,
    outer: Vec<Frame>,
    frame: Frame,
    label: BegunLabel,
    kind: ByteKind,
    byte: u8,
) -> Result<Option<State>, Memory>
    requires { IsName label.name.items }
    ensures { IfOk result (λ next. option_map state_of next ≡
        in_bare (frames_of outer.items) (frame_of frame) label.name.items label.back kind byte) }
{
    match kind {
        ByteKind::Bare => Ok(Some(State {
            outer,
            frame,
            mode: ReaderMode::BareLabel(label.with_byte(byte)?),
        })),
        _ => after_primary(alloc, outer, frame, label.atom(alloc)?, kind),
    }
}

/// The state at the quote that ends a label with this name, if it has a byte.
fn ended_label(
    alloc: Global,
    outer: Vec<Frame>,
    frame: Frame,
    label: BegunLabel,
) -> Result<Option<State>, Memory>
    requires { label.name.items ≢ [] → IsName label.name.items }
    ensures { IfOk result (λ next. option_map state_of next ≡
        ended_label (frames_of outer.items) (frame_of frame) label.name.items label.back) }
{
    if label.name.is_empty() {
        return Ok(None);
    }
    Ok(Some(State {
        outer,
        frame,
        mode: ReaderMode::Primary(label.atom(alloc)?),
    }))
}

/// What may stand within quotes: any byte of a name. A quote ends the label, and a backslash stands
/// before a quote or a backslash.
fn in_quotes(
    alloc: Global,
    outer: Vec<Frame>,
    frame: Frame,
    label: BegunLabel,
    kind: ByteKind,
    byte: u8,
) -> Result<Option<State>, Memory>
    requires { label.name.items ≢ [] → IsName label.name.items }
    ensures { IfOk result (λ next. option_map state_of next ≡
        in_quotes (frames_of outer.items) (frame_of frame) label.name.items label.back kind byte) }
{
    let mode = match kind {
        ByteKind::Blank | ByteKind::Strange => return Ok(None),
        ByteKind::Quote => return ended_label(alloc, outer, frame, label),
        ByteKind::Backslash => ReaderMode::Escape(label),
        _ => ReaderMode::QuotedLabel(label.with_byte(byte)?),
    };
    Ok(Some(State { outer, frame, mode }))
}

/// What may stand behind a backslash: a quote or a backslash.
fn in_escape(
    outer: Vec<Frame>,
    frame: Frame,
    label: BegunLabel,
    kind: ByteKind,
    byte: u8,
) -> Result<Option<State>, Memory>
    ensures { IfOk result (λ next. option_map state_of next ≡
        in_escape (frames_of outer.items) (frame_of frame) label.name.items label.back kind byte) }
{
    match kind {
        ByteKind::Quote | ByteKind::Backslash => Ok(Some(State {
            outer,
            frame,
            mode: ReaderMode::QuotedLabel(label.with_byte(byte)?),
        })),
        _ => Ok(None),
    }
}

impl State {
    /// Nothing is read yet.
    pub(crate) fn new(alloc: Global) -> State
        ensures { state_of result ≡ initial }
    {
        State {
            outer: Vec::new(alloc),
            frame: Frame {
                alternatives: None,
                sequence: None,
            },
            mode: ReaderMode::Operand { back: false },
        }
    }

    /// The state after one more byte, if it can go on.
    pub(crate) fn step(
        self,
        alloc: Global,
        inverses: bool,
        byte: u8,
    ) -> Result<Option<State>, Memory>
        requires { IsReady (mode_of self.mode) }
        ensures { IfOk result (λ next. option_map state_of next ≡
            step inverses (state_of self) byte) }
    {
        let State { outer, frame, mode } = self;
        let kind = kind_of(byte);
        match mode {
            ReaderMode::Operand { back } => in_operand(
                alloc, inverses, outer, frame, back, kind, byte,
            ),
            ReaderMode::BareLabel(label) => in_bare(alloc, outer, frame, label, kind, byte),
            ReaderMode::QuotedLabel(label) => in_quotes(alloc, outer, frame, label, kind, byte),
            ReaderMode::Escape(label) => in_escape(outer, frame, label, kind, byte),
            ReaderMode::Primary(primary) => after_primary(alloc, outer, frame, primary, kind),
            ReaderMode::Element(element) => after_element(alloc, outer, frame, element, kind),
        }
    }

    /// How long the name is that stands directly before the next byte.
    pub(crate) fn name_length(&self) -> usize
        ensures { result ≡ name_length (mode_of self.now.mode) }
    {
        match &self.mode {
            ReaderMode::BareLabel(label)
            | ReaderMode::QuotedLabel(label)
            | ReaderMode::Escape(label) => { label.name.len() },
            _ => 0,
        }
    }

    pub(crate) fn takes_operand(&self) -> bool
        ensures { result ≡ takes_operand (mode_of self.now.mode) }
    {
        matches!(self.mode, ReaderMode::Operand { .. })
    }

    /// Whether the next byte stands outside quotes.
    pub(crate) fn is_outside(&self) -> bool
        ensures { result ≡ is_outside (mode_of self.now.mode) }
    {
        !matches!(
            self.mode,
            ReaderMode::QuotedLabel(_) | ReaderMode::Escape(_)
        )
    }

    /// The whole expression, if one ends here.
    pub(crate) fn whole(self, alloc: Global) -> Result<Option<Expr>, Memory>
        requires { IsReady (mode_of self.mode) }
        ensures { IfOk result (λ whole. option_map expression whole ≡ whole_of (state_of self)) }
    {
        let State { outer, frame, mode } = self;
        if !outer.is_empty() {
            return Ok(None);
        }
        let element = match mode {
            ReaderMode::BareLabel(label) => label.atom(alloc)?,
            ReaderMode::Primary(element) | ReaderMode::Element(element) => element,
            _ => return Ok(None),
        };
        Ok(Some(whole_with(alloc, frame, element)?))
    }
}
