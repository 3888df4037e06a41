//! Which file it is that was opened.

ghost use Rattle.std.specs.Prelude.{◌↔◌, ◌≡◌, IsSome};
ghost use Rattle.std.specs.Fs.{file_type, IsFile};
ghost use Rattle.rpq_io.specs.FileIds.{same_file};

use std::fs::Metadata;
use std::os::unix::fs::MetadataExt;

/// A regular file, as the system tells it from others: its device, and its number there. Two names
/// of one file have the same, through links of either kind too.
#[derive(Clone, Copy, Debug, PartialEq, Eq)]
pub struct FileId {
    pub device: u64,
    /// The inode. It is 0 where the file system tells none; such a file is like no other.
    pub number: u64,
}

impl FileId {
    /// Which regular file these metadata are of. Of a device, a pipe, a terminal and a folder there
    /// is none: nothing that they hold is lost where they are opened to write.
    pub fn of(metadata: &Metadata) -> Option<FileId>
        ensures { IsSome result ↔ IsFile (file_type metadata.now) }
    {
        if !metadata.is_file() {
            return None;
        }
        Some(FileId {
            device: metadata.dev(),
            number: metadata.ino(),
        })
    }

    /// Whether both are the same file.
    pub fn is_same(self, other: FileId) -> bool
        ensures { result ≡ same_file self other }
    {
        self.device == other.device && self.number == other.number && other.number > 0
    }
}
