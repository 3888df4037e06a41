//! Where the host's sinks write.

use std::io;
use std::io::Write;
use std::rt::{Stderr, Stdout};

/// A file, standard output or standard error, so that one type of sink serves all three. Each is a
/// writer of any kind; what contracts say of what it holds is said of the place.
#[derive(Drop)]
pub enum Place<F, O = Stdout, E = Stderr> {
    File(F),
    Output(O),
    Errors(E),
}

impl<F: Write, O: Write, E: Write> Write for Place<F, O, E> {
    ghost use Rattle.rpq_io.specs.Places.{place_contents};

    ghost contents = { place_contents F.contents O.contents E.contents };

    fn write(&mut self, from: &[u8]) -> io::Result<usize> {
        match self {
            Place::File(file) => file.write(from),
            Place::Output(output) => output.write(from),
            Place::Errors(errors) => errors.write(from),
        }
    }

    fn flush(&mut self) -> io::Result<()> {
        match self {
            Place::File(file) => file.flush(),
            Place::Output(output) => output.flush(),
            Place::Errors(errors) => errors.flush(),
        }
    }
}
