//! Files in memory.

ghost use Rattle.std.specs.Prelude.{ℕ, List, [], ◌∷◌, ◌++◌, ◌≡◌, ◌≢◌, ◌≤◌, ◌||◌, false, IfOk, OnOk};
ghost use Rattle.std.specs.Prelude.{OnErr, IsTrue, is_none, bytes_eq, option_map, option_copied};
ghost use Rattle.rpq_io.specs.Counts.{CountsOpening};
ghost use Rattle.rpq_io.specs.Memory.{new_writer, file_named, reader_of, after_source, after_sink};
ghost use Rattle.rpq_io.specs.Names.{times};
ghost use Rattle.rpq_io.specs.Script.{new_script, next_fails};

use crate::fault::OpenFault;
use crate::files::Files;
use crate::memory_sink::MemorySink;
use crate::memory_source::MemorySource;
use crate::name_list::NameList;
use crate::script::Script;
use rpq_base::Memory;
use std::alloc::Global;
use std::marker::Model;

/// A file in memory, and how a source opened on it gives its bytes.
#[derive(Drop)]
struct MemoryFile {
    name: String,
    bytes: Vec<u8>,
    piece: usize,
    fails: Vec<u64>,
}

impl Model for MemoryFile {
    ghost use Rattle.std.specs.Prelude.{◌≤◌, string_bytes};
    ghost use Rattle.rpq_io.specs.Memory.{FileBytes};

    ghost Value = { FileBytes };

    ghost view = { λ file. record {
      name = string_bytes file.name;
      bytes = file.bytes.items;
      piece = file.piece;
      fails = file.fails.items;
    } };

    ghost invariant = { λ file. 1 ≤ file.piece };
}

impl MemoryFile {
    /// Whether the file has this name.
    fn has_name(&self, name: &str) -> bool
        ensures { result ≡ bytes_eq self.now.name name.now }
    {
        self.name.as_str() == name
    }

    /// A source over the bytes of the file.
    fn open(&self, alloc: Global) -> Result<MemorySource, Memory>
        ensures { IfOk result (λ source. source ≡ reader_of self.now) }
    {
        MemorySource::new(
            alloc,
            self.bytes.as_slice(),
            self.piece,
            self.fails.as_slice(),
        )
    }
}

/// Files in memory, which tell what they hold. The openings fail where they are asked to, and so
/// does the opening of a name to read that isn't there. What is written on a sink stays with the
/// sink.
#[derive(Drop)]
pub struct MemoryFiles {
    alloc: Global,
    files: Vec<MemoryFile>,
    room: usize,
    piece: usize,
    sink_fails: Vec<u64>,
    openings: Script,
    read: NameList,
    unread: NameList,
    made: NameList,
    unmade: NameList,
}

impl Model for MemoryFiles {
    ghost use Rattle.std.specs.Prelude.{◌≤◌};
    ghost use Rattle.rpq_io.specs.Memory.{MemoryDisk};

    ghost Value = { MemoryDisk };

    ghost view = { λ files. record {
      files = files.files.items;
      room = files.room;
      piece = files.piece;
      sink_fails = files.sink_fails.items;
      openings = files.openings;
      read_names = files.read.names;
      unread_names = files.unread.names;
      made_names = files.made.names;
      unmade_names = files.unmade.names;
    } };

    ghost invariant = { λ files. 1 ≤ files.piece };
}

/// The file of this name.
fn file_named<'a>(name: &str, files: &'a [MemoryFile]) -> Option<&'a MemoryFile>
    ensures { option_copied result ≡ file_named name.now files.now }
{
    files.iter().find(|file| file.has_name(name))
}

impl MemoryFiles {
    /// No files. Each sink that is opened has room for `room` bytes, takes `piece` bytes at most in
    /// a write, and fails at the writes with a number in `sink_fails`. The openings, to read and to
    /// write together, fail where their number is in `fails`. All these are counted from 1.
    pub fn new(
        alloc: Global,
        room: usize,
        piece: usize,
        sink_fails: &[u64],
        fails: &[u64],
    ) -> Result<MemoryFiles, Memory>
        requires { 1 ≤ piece }
        ensures { IfOk result (λ files. files ≡ record {
          files = [];
          room = room;
          piece = piece;
          sink_fails = sink_fails.now;
          openings = new_script fails.now;
          read_names = [];
          unread_names = [];
          made_names = [];
          unmade_names = [];
        }) }
    {
        Ok(MemoryFiles {
            alloc,
            files: Vec::new(alloc),
            room,
            piece,
            sink_fails: Vec::from_slice(alloc, sink_fails)?,
            openings: Script::new(alloc, fails)?,
            read: NameList::new(alloc),
            unread: NameList::new(alloc),
            made: NameList::new(alloc),
            unmade: NameList::new(alloc),
        })
    }

    /// Adds a file of a name that isn't there yet. A source opened on it takes `piece` bytes at
    /// most in a read, and fails at the reads with a number in `fails`, counted from 1.
    pub fn add(
        &mut self,
        name: &str,
        bytes: &[u8],
        piece: usize,
        fails: &[u64],
    ) -> Result<(), Memory>
        requires absent { ⟦<MemoryFiles as Files>⟧.holds self.old name.now ≡ None }
        requires moves { 1 ≤ piece }
        ensures ok { OnOk result
            (⟦<MemoryFiles as Files>⟧.holds self.new name.now ≡ Some bytes.now) }
        ensures others { (other : List ℕ) → other ≢ name.now
            → ⟦<MemoryFiles as Files>⟧.holds self.new other
            ≡ ⟦<MemoryFiles as Files>⟧.holds self.old other }
        ensures added { OnOk result (self.new ≡ record self.old {
          files = self.old.files ++ (record {
            name = name.now;
            bytes = bytes.now;
            piece = piece;
            fails = fails.now;
          }) ∷ [];
        }) }
        ensures err { OnErr result (self.new ≡ self.old) }
    {
        let file = MemoryFile {
            name: String::from_str(self.alloc, name)?,
            bytes: Vec::from_slice(self.alloc, bytes)?,
            piece,
            fails: Vec::from_slice(self.alloc, fails)?,
        };
        self.files.push(file)?;
        Ok(())
    }

    /// A source over the file of this name, if there is one.
    fn source_of(&self, name: &str) -> Result<Option<MemorySource>, Memory>
        ensures { IfOk result (λ source.
            source ≡ option_map reader_of (file_named name.now self.now.files)) }
    {
        match file_named(name, self.files.as_slice()) {
            Some(file) => Ok(Some(file.open(self.alloc)?)),
            None => Ok(None),
        }
    }
}

impl Files for MemoryFiles {
    ghost use Rattle.std.specs.Prelude.{option_map};
    ghost use Rattle.rpq_io.specs.Memory.{file_named};
    ghost use Rattle.rpq_io.specs.Names.{times};

    type Source = MemorySource;

    type Sink = MemorySink;

    ghost holds = { λ disk name. option_map (λ file. file.bytes) (file_named name disk.files) };

    ghost opened = { λ disk. disk.read_names };

    ghost made = { λ disk. disk.made_names };

    ghost unread = { λ disk name. times name disk.unread_names };

    ghost unmade = { λ disk name. times name disk.unmade_names };

    /// Fails exactly at the listed openings and where no file has this name. Memory is taken before
    /// the opening is counted.
    fn source(&mut self, name: &str) -> Result<MemorySource, OpenFault>
        ensures opened { IfOk result (λ source. (next_fails self.old.openings ≡ false)
            × (option_map reader_of (file_named name.now self.old.files) ≡ Some source)) }
        ensures failed { result ≡ Err OpenFault.Failed
            → IsTrue (next_fails self.old.openings
            || is_none (file_named name.now self.old.files)) }
        ensures after { self.new ≡ after_source self.old name.now result }
        ensures faults { CountsOpening (result ≡ Err OpenFault.Failed) name.now
            (λ any. times any self.old.unread_names) (λ any. times any self.new.unread_names) }
    {
        self.read.make_room()?;
        self.unread.make_room()?;
        let noted = String::from_str(self.alloc, name)?;
        let source = self.source_of(name)?;
        let fails = self.openings.next_fails();
        match source {
            Some(source) if !fails => {
                self.read.note(noted);
                Ok(source)
            }
            _ => {
                self.unread.note(noted);
                Err(OpenFault::Failed)
            }
        }
    }

    /// Fails exactly at the listed openings. Memory is taken before the opening is counted.
    fn sink(&mut self, name: &str) -> Result<MemorySink, OpenFault>
        ensures opened { IfOk result (λ sink. (next_fails self.old.openings ≡ false)
            × (sink ≡ new_writer self.old.room self.old.piece self.old.sink_fails)) }
        ensures failed { result ≡ Err OpenFault.Failed → IsTrue (next_fails self.old.openings) }
        ensures after { self.new ≡ after_sink self.old name.now result }
        ensures faults { CountsOpening (result ≡ Err OpenFault.Failed) name.now
            (λ any. times any self.old.unmade_names) (λ any. times any self.new.unmade_names) }
    {
        self.unmade.make_room()?;
        self.made.make_room()?;
        let noted = String::from_str(self.alloc, name)?;
        let fails = self.sink_fails.as_slice();
        let sink = MemorySink::new(self.alloc, self.room, self.piece, fails)?;
        if self.openings.next_fails() {
            self.unmade.note(noted);
            return Err(OpenFault::Failed);
        }
        self.made.note(noted);
        Ok(sink)
    }
}
