//! The host's files.

ghost use Rattle.std.specs.Prelude.{[], ◌≡◌, ◌≤◌, false, is_ok, is_err, string_bytes, IfOk, IsErr};
ghost use Rattle.std.specs.Prelude.{IsTrue, OnErr};
ghost use Rattle.rpq_io.specs.Counts.{CountsOpening};
ghost use Rattle.rpq_io.specs.FileIds.{NotesFile, NotesOther};
ghost use Rattle.rpq_io.specs.Host.{was_opened, after_reading, after_making};
ghost use Rattle.rpq_io.specs.Names.{noted_if, times};

use crate::fault::{Failed, OpenFault};
use crate::file_list::FileList;
use crate::files::Files;
use crate::host::{HostSink, HostSource};
use crate::host_file::HostFile;
use crate::name_list::NameList;
use crate::opening::{create, open};
use crate::place::Place;
use std::alloc::Global;
use std::io;
use std::marker::Model;
use std::rt::Files as FileSystem;

/// The files of the host, by their names. What they hold isn't told.
///
/// A file that was opened before, to read or to write, isn't opened to write: that opening fails,
/// and is counted, and the file stays as it is. So it is with the file that standard output or
/// standard error is. Names are compared as text, and regular files by what the system says of the
/// opened file, so that a path, a link and a hard link to one file are the same. Devices, pipes and
/// terminals have nothing to lose, and are compared by name alone. All memory is taken before a
/// file is touched. No contract of std says which file a name opens, which numbers a file has, or
/// what a change of its length does: that is tested.
#[derive(Drop)]
pub struct HostFiles<H> {
    alloc: Global,
    host: H,
    read: NameList,
    unread: NameList,
    made: NameList,
    unmade: NameList,
    files: FileList,
}

impl<H> Model for HostFiles<H> {
    ghost use Rattle.rpq_io.specs.Host.{OpenedFiles};

    ghost Value = { OpenedFiles };

    ghost view = { λ opened. record {
      names = record {
        read_names = opened.read.names;
        unread_names = opened.unread.names;
        made_names = opened.made.names;
        unmade_names = opened.unmade.names;
      };
      files = opened.files.files;
    } };
}

impl<H: FileSystem> HostFiles<H>
where
    H::File: Send,
{
    /// The files of this host, none of which was opened yet.
    pub fn new(alloc: Global, host: H) -> HostFiles<H>
        ensures { result ≡ record {
          names = record {
            read_names = [];
            unread_names = [];
            made_names = [];
            unmade_names = [];
          };
          files = [];
        } }
    {
        HostFiles {
            alloc,
            host,
            read: NameList::new(alloc),
            unread: NameList::new(alloc),
            made: NameList::new(alloc),
            unmade: NameList::new(alloc),
            files: FileList::new(alloc),
        }
    }
}

/// Notes a name among those opened or among those opened in vain. It takes no memory: each list has
/// room.
fn note_outcome<T>(
    outcome: io::Result<T>,
    name: String,
    opened: &mut NameList,
    failed: &mut NameList,
) -> Result<T, Failed>
    requires opened { 1 ≤ opened.old.room }
    requires failed { 1 ≤ failed.old.room }
    ensures handed { IfOk result (λ file. outcome ≡ Ok file) }
    ensures opened { opened.new.names
        ≡ noted_if (is_ok result) (string_bytes name) opened.old.names }
    ensures failed { failed.new.names
        ≡ noted_if (is_err result) (string_bytes name) failed.old.names }
{
    match outcome {
        Ok(file) => {
            opened.note(name);
            Ok(file)
        }
        Err(_) => {
            failed.note(name);
            Err(Failed)
        }
    }
}

impl<H> HostFiles<H> {
    /// Whether a file of this name was opened before, to read or to write.
    fn was_opened(&self, name: &str) -> bool
        ensures { result ≡ was_opened name.now self.now.names }
    {
        self.read.contains(name) || self.made.contains(name)
    }
}

impl<H: FileSystem> Files for HostFiles<H>
where
    H::File: Send,
{
    ghost use Rattle.std.specs.Prelude.{None};
    ghost use Rattle.rpq_io.specs.Names.{times};

    type Source = HostSource<HostFile<H::File>>;

    type Sink = HostSink<Place<HostFile<H::File>>>;

    ghost holds = { λ _ _. None };

    ghost opened = { λ files. files.names.read_names };

    ghost made = { λ files. files.names.made_names };

    ghost unread = { λ files name. times name files.names.unread_names };

    ghost unmade = { λ files name. times name files.names.unmade_names };

    /// Notes the name where it is opened, and the file if it is a regular one.
    fn source(&mut self, name: &str) -> Result<HostSource<HostFile<H::File>>, OpenFault>
        ensures untold { IfOk result (λ source. source.has_told_end ≡ false) }
        ensures fresh { IfOk result (λ source. source.fault_count ≡ 0) }
        ensures after { self.new.names ≡ after_reading self.old.names name.now result }
        ensures faults { CountsOpening (result ≡ Err OpenFault.Failed) name.now
            (λ any. times any self.old.names.unread_names)
            (λ any. times any self.new.names.unread_names) }
        ensures files { IfOk result (λ source.
            NotesFile source.reader self.old.files self.new.files) }
        ensures files_stay { OnErr result (self.new.files ≡ self.old.files) }
    {
        self.read.make_room()?;
        self.unread.make_room()?;
        self.files.make_room()?;
        let noted = String::from_str(self.alloc, name)?;
        let outcome = open(&self.host, name);
        let opened = note_outcome(outcome, noted, &mut self.read, &mut self.unread)?;
        self.files.note(opened.id);
        Ok(HostSource::new(opened))
    }

    /// Refuses a name that was opened before, and a regular file that was.
    fn sink(&mut self, name: &str) -> Result<HostSink<Place<HostFile<H::File>>>, OpenFault>
        ensures fresh { IfOk result (λ sink. sink.fault_count ≡ 0) }
        ensures refused { IsTrue (was_opened name.now self.old.names) → IsErr result }
        ensures after { self.new.names ≡ after_making self.old.names name.now result }
        ensures faults { CountsOpening (result ≡ Err OpenFault.Failed) name.now
            (λ any. times any self.old.names.unmade_names)
            (λ any. times any self.new.names.unmade_names) }
        ensures files { IfOk result (λ sink.
            NotesOther sink.writer self.old.files self.new.files) }
        ensures files_stay { OnErr result (self.new.files ≡ self.old.files) }
    {
        self.made.make_room()?;
        self.unmade.make_room()?;
        self.files.make_room()?;
        let noted = String::from_str(self.alloc, name)?;
        if self.was_opened(name) {
            self.unmade.note(noted);
            return Err(OpenFault::Failed);
        }
        let outcome = create(&self.host, name, &self.files);
        let opened = note_outcome(outcome, noted, &mut self.made, &mut self.unmade)?;
        self.files.note(opened.id);
        Ok(HostSink::new(Place::File(opened)))
    }
}
