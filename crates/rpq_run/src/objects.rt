//! The objects of the caller, which are lent to a run and given back.

ghost use Rattle.std.specs.Prelude.{◌≡◌, [], IfOk, OnErr};

use rpq_base::Memory;
use standing::{Circle, Standing};
use std::alloc::Global;
use std::mem;

/// Takes the objects out of their list, into a circle. The only error is [`Memory`], and the list
/// is then as it was.
pub fn circle_of(alloc: Global, standing: &mut Vec<Box<dyn Standing>>) -> Result<Circle, Memory>
    ensures members { IfOk result (λ circle. circle.members ≡ standing.old.items) }
    ensures none_left { IfOk result (λ circle. circle.left ≡ []) }
    ensures unchanged { OnErr result (standing.new.items ≡ standing.old.items) }
{
    match Circle::new(alloc, mem::replace(standing, Vec::new(alloc))) {
        Ok(circle) => Ok(circle),
        Err((objects, memory)) => {
            *standing = objects;
            Err(memory)
        }
    }
}

/// Puts the objects that stayed into the list, in the place of what it has, and gives those that
/// left.
pub fn put_back(standing: &mut Vec<Box<dyn Standing>>, circle: Circle) -> Vec<Box<dyn Standing>>
    ensures stayed { standing.new.items ≡ circle.members }
    ensures left { result.items ≡ circle.left }
{
    let (stayed, left) = circle.parts();
    *standing = stayed;
    left
}
