//! The order of bytes.

ghost use Rattle.std.specs.Prelude.{◌≡◌, ◌+◌, ◌*◌, ◌^◌, ◌≤◌, min, length};
ghost use Rattle.rpq_base.specs.Leading.{leading};
ghost use Rattle.rpq_base.specs.Order.{name_cmp};

use std::cmp::Ordering;

/// The eight bytes from this place on as one number, the first byte the most significant.
fn eight_at(bytes: &[u8], place: usize) -> u64
    requires { place + 8 ≤ length bytes.now }
    ensures { leading (place + 8) bytes.now ≡ leading place bytes.now * 2 ^ 64 + result }
{
    u64::from_be_bytes([
        bytes[place],
        bytes[place + 1],
        bytes[place + 2],
        bytes[place + 3],
        bytes[place + 4],
        bytes[place + 5],
        bytes[place + 6],
        bytes[place + 7],
    ])
}

/// The order of bytes of which both have eight at least, by eight at once. Where what is left is
/// shorter, the last eight that both have decide: those before them are the same.
fn by_eight(first: &[u8], second: &[u8], both: usize) -> Ordering
    requires both { both ≡ min (length first.now) (length second.now) }
    requires enough { 8 ≤ both }
    ensures { result ≡ name_cmp first.now second.now }
{
    let mut place = 0;
    while both - place > 8 {
        let here = eight_at(first, place);
        let there = eight_at(second, place);
        if here != there {
            return here.cmp(&there);
        }
        place += 8;
    }
    let here = eight_at(first, both - 8);
    let there = eight_at(second, both - 8);
    here.cmp(&there).then(first.len().cmp(&second.len()))
}

/// The order of bytes, one by one.
fn one_by_one(first: &[u8], second: &[u8], both: usize) -> Ordering
    requires { both ≡ min (length first.now) (length second.now) }
    ensures { result ≡ name_cmp first.now second.now }
{
    for place in 0..both {
        if first[place] != second[place] {
            return first[place].cmp(&second[place]);
        }
    }
    first.len().cmp(&second.len())
}

/// The order of the bytes, a list before those that it begins: by eight at once where both have as
/// many, so that what they share costs little.
pub fn bytes_compared(first: &[u8], second: &[u8]) -> Ordering
    ensures { result ≡ name_cmp first.now second.now }
{
    let both = first.len().min(second.len());
    if both >= 8 {
        by_eight(first, second, both)
    } else {
        one_by_one(first, second, both)
    }
}
