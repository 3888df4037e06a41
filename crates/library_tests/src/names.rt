//! Numbers by hand, where the system gives no random bytes for the keys of the hash.

use name_table::Names;
use rpq_base::Name;
use std::alloc::Global;
use std::io;
use std::io::ErrorKind;
use std::process::Abort;
use std::random::RandomSource;

/// A system that gives no random bytes.
struct NoRandomBytes;

impl RandomSource for NoRandomBytes {
    fn fill_bytes(&self, _: &mut [u8]) -> io::Result<()> {
        Err(ErrorKind::Unsupported.into())
    }
}

/// Whether two names have the numbers 0 and 1 in the order of their first sight, and a third none.
fn numbers_names<R: RandomSource>(rt: &impl Abort, random: &R, alloc: Global) -> bool {
    let late = Name::new(alloc, b"z").expect(rt, "a name");
    let early = Name::new(alloc, b"a").expect(rt, "a name");
    let other = Name::new(alloc, b"zz").expect(rt, "a name");
    let mut names = Names::new(random, alloc).expect(rt, "memory");
    let (first, _) = names.number(&late).expect(rt, "memory");
    let (second, _) = names.number(&early).expect(rt, "memory");
    let found = (names.find(&late) == Some(0)) & names.find(&other).is_none();
    (first == 0) & (second == 1) & found & is_named(&names, &early)
}

/// Whether the name with the name's number is this name.
fn is_named(names: &Names, name: &Name) -> bool {
    match names.find(name) {
        Some(number) => names.name_of(number).as_bytes() == name.as_bytes(),
        None => false,
    }
}

#[test]
fn names_have_numbers_in_the_order_of_first_sight(rt: HostRuntime) {
    assert!(rt; numbers_names(&rt, &NoRandomBytes, rt.alloc()));
}
