//! What lines that are no asks are answered with.

ghost use Rattle.std.specs.Prelude.{◌≡◌, ◌++◌, IfOk, OnOk};
ghost use Rattle.ask_text.specs.FaultTexts.{ask_kind_text};
ghost use Rattle.live_asks.specs.Answers.{fault_answer, long_answer, numbered_answer};

use ask_text::AskFault;
use rpq_base::Memory;
use std::alloc::Global;
use text_parts::push_decimal;

/// What a line with a fault is answered with. The only error is [`Memory`].
pub fn refusal_of_fault(alloc: Global, fault: AskFault) -> Result<Vec<u8>, Memory>
    ensures { IfOk result (λ text. text.items ≡ fault_answer fault) }
{
    refusal(alloc, fault.line, fault.kind.text().as_bytes())
}

/// What the line with this number is answered with, which is too long. The only error is [`Memory`].
pub fn refusal_of_long(alloc: Global, line: u64) -> Result<Vec<u8>, Memory>
    ensures { IfOk result (λ text. text.items ≡ long_answer line) }
{
    refusal(alloc, line, b"too long")
}

/// What the line with this number is answered with, of which this is wrong.
fn refusal(alloc: Global, line: u64, wrong: &[u8]) -> Result<Vec<u8>, Memory>
    ensures { IfOk result (λ text. text.items ≡ numbered_answer line wrong.now) }
{
    let mut text = Vec::new(alloc);
    text.extend_from_slice(b"error line ")?;
    push_decimal(&mut text, line)?;
    text.extend_from_slice(b": ")?;
    text.extend_from_slice(wrong)?;
    text.extend_from_slice(b"\n")?;
    Ok(text)
}
