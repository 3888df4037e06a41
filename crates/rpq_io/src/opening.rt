//! Opening a file of the host, and asking which it is.

ghost use Rattle.std.specs.Prelude.{◌≡◌, false, IfOk, IfSome};
ghost use Rattle.rpq_io.specs.FileIds.{IsTold, is_among};

use crate::file_id::FileId;
use crate::file_list::FileList;
use crate::host_file::HostFile;
use std::fs::{File, OpenFile};
use std::io::ErrorKind;
use std::rt::Files as FileSystem;
use std::{fs, io};

/// By these names the system tells what standard output and standard error are. Where one is
/// closed, or nothing is mounted at `/proc`, there is no such name.
const OUTPUTS: [&str; 2] = ["/proc/self/fd/1", "/proc/self/fd/2"];

/// The file, and which it is, as the system tells of the opened file itself.
fn told<F: OpenFile + Drop>(file: F) -> io::Result<HostFile<F>>
    ensures file { IfOk result (λ opened. opened.file ≡ file) }
    ensures told { IfOk result (λ opened. IsTold opened.kind opened.id) }
{
    let metadata = file.metadata()?;
    Ok(HostFile {
        file,
        kind: metadata.file_type(),
        id: FileId::of(&metadata),
    })
}

/// Whether standard output or standard error is this file now.
fn is_output<H: FileSystem>(host: &H, file: FileId) -> bool {
    OUTPUTS.iter().any(|name| match fs::metadata(host, *name) {
        Ok(metadata) => FileId::of(&metadata).is_some_and(|output| output.is_same(file)),
        Err(_) => false,
    })
}

/// Opens the file of this name to read.
pub fn open<H: FileSystem>(host: &H, name: &str) -> io::Result<HostFile<H::File>>
    ensures { IfOk result (λ opened. IsTold opened.kind opened.id) }
{
    told(fs::open(host, name)?)
}

/// Opens the file of this name to write it anew, and makes it where there is none. A regular file
/// is emptied; where it is one of those known, or standard output or standard error, it stays as it
/// is, and the opening fails. It is asked of the opened file which it is, so nobody can put another
/// one in its place in between.
pub fn create<H: FileSystem>(
    host: &H,
    name: &str,
    known: &FileList,
) -> io::Result<HostFile<H::File>>
    ensures told { IfOk result (λ opened. IsTold opened.kind opened.id) }
    ensures other { IfOk result (λ opened.
        IfSome opened.id (λ file. is_among file known.now.files ≡ false)) }
{
    let opened = told(File::options().write(true).create(true).open(host, name)?)?;
    if let Some(file) = opened.id {
        if known.contains(file) || is_output(host, file) {
            return Err(io::Error::from(ErrorKind::ResourceBusy));
        }
        opened.file.set_len(0)?;
    }
    Ok(opened)
}
