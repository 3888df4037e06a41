//! Lists of files.

ghost use Rattle.std.specs.Prelude.{[], ◌≡◌, ◌≤◌, OnOk};
ghost use Rattle.std.specs.List.{list_any};
ghost use Rattle.rpq_io.specs.FileIds.{is_among, noted_file, same_file};

use crate::file_id::FileId;
use rpq_base::Memory;
use std::alloc::Global;
use std::marker::Model;

/// Regular files in the order in which they were noted. Contracts see for how many more there is
/// room without new memory.
#[derive(Drop)]
pub struct FileList {
    files: Vec<FileId>,
}

impl Model for FileList {
    ghost use Rattle.std.specs.Prelude.{◌-◌, vec_len, vec_capacity};
    ghost use Rattle.rpq_io.specs.FileIds.{FileRoom};

    ghost Value = { FileRoom };

    ghost view = { λ list. record {
      files = list.files.items;
      room = vec_capacity list.files - vec_len list.files;
    } };
}

impl FileList {
    /// No files.
    pub fn new(alloc: Global) -> FileList
        ensures { result.files ≡ [] }
    {
        FileList {
            files: Vec::new(alloc),
        }
    }

    /// Takes the memory for one more file.
    pub fn make_room(&mut self) -> Result<(), Memory>
        ensures ok { OnOk result (1 ≤ self.new.room) }
        ensures files { self.new.files ≡ self.old.files }
    {
        self.files.reserve(1)?;
        Ok(())
    }

    /// Notes the file, for which there is room, if it is a regular one.
    pub fn note(&mut self, opened: Option<FileId>)
        requires { 1 ≤ self.old.room }
        ensures { self.new.files ≡ noted_file opened self.old.files }
    {
        if let Some(file) = opened {
            self.files.push_reserved(file);
        }
    }

    /// Whether the file is among those noted.
    pub fn contains(&self, file: FileId) -> bool
        ensures { result ≡ is_among file self.now.files }
    {
        is_among(file, self.files.as_slice())
    }
}

fn is_among(file: FileId, files: &[FileId]) -> bool
    ensures { result ≡ list_any (λ noted. same_file noted file) files.now }
{
    files.iter().any(|noted| noted.is_same(file))
}
