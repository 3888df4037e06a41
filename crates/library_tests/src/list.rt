//! A list whose first items leave.

ghost use Rattle.std.specs.Prelude.{◌≡◌};

use kept_list::KeptList;
use std::alloc::Global;
use std::process::Abort;

/// The list of the numbers below 12.
fn below_twelve(rt: &impl Abort, alloc: Global) -> KeptList<u64>
    ensures { result.base ≡ 0 }
{
    let mut numbers = Vec::new(alloc);
    for number in 0..12 {
        numbers.push(number).expect(rt, "memory");
    }
    KeptList::of(numbers)
}

/// Whether the first items leave once they are a quarter of those that stay, and all others stay.
fn gives_up_the_first(rt: &impl Abort, alloc: Global) -> bool {
    let mut list = below_twelve(rt, alloc);
    if list.length() != 12 {
        return false;
    }
    list.forget_first(1);
    let few = list.base() == 0 && list.as_slice().len() == 12;
    list.forget_first(3);
    let quarter = list.base() == 3 && list.after(9) == [9, 10, 11].as_slice();
    list.push(12).expect(rt, "memory");
    list.forget_first(13);
    let all = list.base() == 13 && list.as_slice().is_empty() && list.length() == 13;
    few & quarter & all
}

#[test]
fn a_list_gives_up_its_first_items(rt: HostRuntime) {
    assert!(rt; gives_up_the_first(&rt, rt.alloc()));
}
