//! The fields of a line.

ghost use Rattle.std.specs.Prelude.{◌≡◌, map, IfOk, All};
ghost use Rattle.text_parts.specs.Fields.{fields, IsField};

use crate::lines::is_blank;
use std::alloc::{AllocError, Global};

/// The fields of a line: its greatest runs of bytes that are neither space nor tab.
/// The only error is out of memory for the list.
pub fn fields<'a>(alloc: Global, line: &'a [u8]) -> Result<Vec<&'a [u8]>, AllocError>
    ensures ok { IfOk result (λ found. map (λ field. field.now) found.items ≡ fields line.now) }
    ensures solid { IfOk result (λ found. All (λ field. IsField field.now) found.items) }
{
    line.split(|byte| is_blank(*byte))
        .filter(|run| !run.is_empty())
        .collect(alloc)
}
