//! A file of the host that was opened.

use crate::file_id::FileId;
use std::fs::FileType;
use std::io;
use std::io::{Read, Write};

/// A file that was opened, and what the system told of it then: of what kind it is, and which
/// regular file, if it is one. What is read and written is the file's.
#[derive(Drop)]
pub struct HostFile<F> {
    pub file: F,
    pub kind: FileType,
    pub id: Option<FileId>,
}

impl<F: Read> Read for HostFile<F> {
    ghost remaining = { λ opened. F.remaining opened.file };

    fn read(&mut self, into: &mut [u8]) -> io::Result<usize> {
        self.file.read(into)
    }
}

impl<F: Write> Write for HostFile<F> {
    ghost contents = { λ opened. F.contents opened.file };

    fn write(&mut self, from: &[u8]) -> io::Result<usize> {
        self.file.write(from)
    }

    fn flush(&mut self) -> io::Result<()> {
        self.file.flush()
    }
}
