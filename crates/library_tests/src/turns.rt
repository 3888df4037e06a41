//! Two threads that write into a book in turn, and one that looks.
ghost use Rattle.std.specs.Prelude.{◌≡◌, ◌<◌, ◌≤◌, ℕ, true, length, slice_index_or};
ghost use Rattle.turn_lock.specs.Lines.{Adds};
ghost use Rattle.turn_lock.specs.Passes.{IsAtRest};

use std::alloc::Global;
use std::process::Abort;
use std::sync::Wait;
use std::thread::{Threads, for_each_mut};
use turn_lock::{Kept, Pass, Turns};

#[derive(Clone, Copy)]
struct BookEntry {
    by: u32,
    mark: u32,
}

#[derive(Drop)]
struct Book {
    entries: Vec<BookEntry>,
}

impl Kept for Book {
    type Line = BookEntry;

    type Fixed = ();

    ghost lines = { λ book. book.entries.items };

    ghost fixed = { λ book. tt };

    ghost author = { λ entry. entry.by };
}

/// The book with one entry more, or as it was where memory ran out.
fn with_entry(mut book: Book, entry: BookEntry) -> Book
    ensures { Adds (λ e. e.by) entry.by book.entries.items result.entries.items }
{
    let _ = book.entries.push(entry);
    book
}

fn write(rt: &impl Wait, turns: &Turns<Book>, pass: &mut Pass<Book>, entry: BookEntry)
    requires rest { IsAtRest turns.now pass.old }
    requires own { pass.old.number ≡ entry.by }
    ensures rest { IsAtRest turns.now pass.new }
    ensures own { pass.new.number ≡ entry.by }
{
    let book = turns.take(rt, pass);
    turns.give(pass, with_entry(book, entry));
}

fn write_all(rt: &impl Wait, turns: &Turns<Book>, pass: &mut Pass<Book>, by: u32, count: u32)
    requires rest { IsAtRest turns.now pass.old }
    requires own { pass.old.number ≡ by }
    ensures rest { IsAtRest turns.now pass.new }
    ensures own { pass.new.number ≡ by }
{
    for mark in 0..count {
        write(rt, turns, pass, BookEntry { by, mark });
    }
}

/// The length that a look finds.
fn look(rt: &impl Wait, turns: &Turns<Book>, pass: &mut Pass<Book>) -> usize
    requires { IsAtRest turns.now pass.old }
    ensures rest { IsAtRest turns.now pass.new }
    ensures own { pass.new.number ≡ pass.old.number }
    ensures seen { length pass.old.seen ≤ result }
    ensures length { length pass.new.seen ≡ result }
{
    let book = turns.take(rt, pass);
    let length = book.entries.len();
    turns.give(pass, book);
    length
}

/// Whether no look finds fewer entries than the one before.
fn look_all(rt: &impl Wait, turns: &Turns<Book>, pass: &mut Pass<Book>, count: u32) -> bool
    requires { IsAtRest turns.now pass.old }
    ensures rest { IsAtRest turns.now pass.new }
    ensures own { pass.new.number ≡ pass.old.number }
    ensures rises { result ≡ true }
{
    let mut rises = true;
    let mut last = look(rt, turns, pass);
    for _ in 0..count {
        let found = look(rt, turns, pass);
        rises &= last <= found;
        last = found;
    }
    rises
}

/// What the thread with the pass of this number does: the first two write, and the third looks.
fn take_part<R: Wait + Abort>(
    rt: &R,
    turns: &Turns<Book>,
    number: usize,
    pass: &mut Pass<Book>,
    each: u32,
)
    requires rest { IsAtRest turns.now pass.old }
    requires own { (pass.old.number ≡ number) × (number < 3) }
    ensures rest { IsAtRest turns.now pass.new }
    ensures own { pass.new.number ≡ number }
{
    if number < 2 {
        write_all(rt, turns, pass, number as u32, each);
    } else {
        assert!(rt; look_all(rt, turns, pass, each));
    }
}

/// Each of three passes takes part in a thread of its own.
fn share<R: Threads + Wait + Abort + Sync>(
    rt: &R,
    turns: &Turns<Book>,
    passes: &mut Vec<Pass<Book>>,
    each: u32,
)
    requires three { length passes.old.items ≡ 3 }
    requires passes { (i : ℕ) (d : _) → i < 3 →
        IsAtRest turns.now (slice_index_or passes.old.items i d)
        × ((slice_index_or passes.old.items i d).number ≡ i) }
    ensures three { length passes.new.items ≡ 3 }
    ensures passes { (i : ℕ) (d : _) → i < 3 →
        IsAtRest turns.now (slice_index_or passes.new.items i d)
        × ((slice_index_or passes.new.items i d).number ≡ i) }
{
    for_each_mut(
        rt,
        passes,
        3,
        &|number: usize, pass: &mut Pass<Book>|
            requires rest { IsAtRest turns.now pass.now }
            requires own { (pass.now.number ≡ number) × (number < 3) }
            ensures { IsAtRest turns.entry.now pass.exit.now × (pass.exit.now.number ≡ number) }
        { take_part(rt, turns, number, pass, each) },
    );
}

/// How many entries are by this thread, each marked by how many there were before.
fn in_order(book: &Book, by: u32) -> usize {
    let mut next = 0;
    for entry in book.entries.as_slice() {
        if entry.by == by && entry.mark as usize == next {
            next += 1;
        }
    }
    next
}

/// Whether the book has a hundred entries of each of two threads, and no others.
fn is_whole(book: &Book) -> bool {
    book.entries.len() == 200 && in_order(book, 0) == 100 && in_order(book, 1) == 100
}

/// Whether a book into which two threads wrote a hundred entries each has all of them once.
fn has_each_once<R: Threads + Wait + Abort + Sync>(rt: &R, alloc: Global) -> bool {
    let book = Book {
        entries: Vec::new(alloc),
    };
    let Ok((turns, mut passes)) = Turns::new(alloc, book, 3) else {
        return false;
    };
    share(rt, &turns, &mut passes, 100);
    is_whole(&turns.close(passes))
}

#[test]
fn a_book_has_each_entry_once_and_only_grows(rt: HostRuntime) {
    assert!(rt; has_each_once(&rt, rt.alloc()));
}
