//! The outside of a run: words, and files and sinks in memory.

ghost use Rattle.std.specs.Prelude.{List, ℕ, None, ◌≡◌, ◌≢◌, codes};

use crate::given::RunInput;
use case_lines::{decoded, words_of};
use rpq_io::{Files, MemoryFiles, MemorySink};
use std::alloc::Global;

/// What a run is handed.
#[derive(Drop)]
pub struct RunArguments {
    pub words: Vec<String>,
    pub files: MemoryFiles,
    pub events: MemorySink,
    pub errors: MemorySink,
}

/// The outside of a run that is given this.
pub fn outside_of(alloc: Global, given: &RunInput) -> anyhow::Result<RunArguments> {
    let sizes = &given.sizes;
    let faults = &given.faults;
    Ok(RunArguments {
        words: words_of(alloc, given.words)?,
        events: sink(alloc, sizes.events, sizes.write, faults.event)?,
        errors: sink(alloc, sizes.others, sizes.write, faults.error)?,
        files: files_of(alloc, given)?,
    })
}

/// A sink with this room, which takes this many bytes in a write and fails at the write with this
/// number.
fn sink(alloc: Global, room: usize, piece: usize, fails: u64) -> anyhow::Result<MemorySink> {
    Ok(MemorySink::new(alloc, room, piece.max(1), &[fails])?)
}

/// The files of what is given.
fn files_of(alloc: Global, given: &RunInput) -> anyhow::Result<MemoryFiles> {
    let sizes = &given.sizes;
    let faults = &given.faults;
    let piece = sizes.write.max(1);
    let mut files = MemoryFiles::new(
        alloc,
        sizes.others,
        piece,
        &[faults.opened],
        &[faults.opening],
    )?;
    put_files(alloc, &mut files, given)?;
    Ok(files)
}

/// Puts each of the files that are given among files that have none of their names.
fn put_files(alloc: Global, files: &mut MemoryFiles, given: &RunInput) -> anyhow::Result<()>
    requires { (name : List ℕ) → ⟦<MemoryFiles as Files>⟧.holds files.old name ≡ None }
{
    let texts = &given.texts;
    put_streams(alloc, files, given)?;
    put_file(alloc, files, given, "q", texts.q)?;
    put_file(alloc, files, given, "a", texts.a)?;
    put_file(alloc, files, given, "w", texts.w)
}

/// Puts the streams that are given among files that have none of their names.
fn put_streams(alloc: Global, files: &mut MemoryFiles, given: &RunInput) -> anyhow::Result<()>
    requires { (name : List ℕ) → ⟦<MemoryFiles as Files>⟧.holds files.old name ≡ None }
    ensures { (other : List ℕ) → other ≢ codes "s" → other ≢ codes "t" → other ≢ codes "u"
        → ⟦<MemoryFiles as Files>⟧.holds files.new other
        ≡ ⟦<MemoryFiles as Files>⟧.holds files.old other }
{
    let texts = &given.texts;
    put_file(alloc, files, given, "s", texts.s)?;
    put_file(alloc, files, given, "t", texts.t)?;
    put_file(alloc, files, given, "u", texts.u)
}

/// Puts a file of this name among files that have none of it, if it is there.
fn put_file(
    alloc: Global,
    files: &mut MemoryFiles,
    given: &RunInput,
    name: &str,
    text: Option<&[u8]>,
) -> anyhow::Result<()>
    requires { ⟦<MemoryFiles as Files>⟧.holds files.old name.now ≡ None }
    ensures { (other : List ℕ) → other ≢ name.now
        → ⟦<MemoryFiles as Files>⟧.holds files.new other
        ≡ ⟦<MemoryFiles as Files>⟧.holds files.old other }
{
    if let Some(field) = text {
        let bytes = decoded(alloc, field)?;
        let piece = given.sizes.read.max(1);
        files.add(name, &bytes, piece, &[given.faults.read_of(name)])?;
    }
    Ok(())
}
