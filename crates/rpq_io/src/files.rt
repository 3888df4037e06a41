//! Files by name.

ghost use Rattle.std.specs.Prelude.{ℕ, List, Option, is_ok, ◌≡◌, ◌≢◌, IfOk, OnErr};
ghost use Rattle.rpq_io.specs.Counts.{CountsOpening};
ghost use Rattle.rpq_io.specs.Files.{IsNewSource, IsNewSink, KeepsFiles};
ghost use Rattle.rpq_io.specs.Names.{noted_if};

use crate::fault::OpenFault;
use crate::sink::Sink;
use crate::source::Source;

/// Files that are opened by their names, to read or to write.
///
/// Contracts see what a file of a name `holds`, where that is told; `opened` and `made`, the names
/// opened to read and to write, in order; and `unread` and `unmade`, how often the opening of a
/// name to read and to write failed.
pub trait Files {
    type Source: Source + Send + Drop;

    type Sink: Sink + Send + Drop;

    ghost holds: { Self → List ℕ → Option (List ℕ) };

    ghost opened: { Self → List (List ℕ) };

    ghost made: { Self → List (List ℕ) };

    ghost unread: { Self → List ℕ → ℕ };

    ghost unmade: { Self → List ℕ → ℕ };

    /// Opens the file of this name to read. The source is new: it has all the bytes of the file
    /// left.
    fn source(&mut self, name: &str) -> Result<Self::Source, OpenFault>
        ensures new { IfOk result (IsNewSource Self.Source.left Self.Source.has_told_end
            Self.Source.faults (holds self.old name.now)) }
        ensures noted { opened self.new ≡ noted_if (is_ok result) name.now (opened self.old) }
        ensures faults { CountsOpening (result ≡ Err OpenFault.Failed) name.now
            (unread self.old) (unread self.new) }
        ensures kept { KeepsFiles holds made self.old self.new }
        ensures unmade_stays { (any : List ℕ) → unmade self.new any ≡ unmade self.old any };

    /// Opens the file of this name to write it anew. The sink is new: nothing is written on it.
    /// What the file of this name holds from here on isn't said, unless the opening failed.
    fn sink(&mut self, name: &str) -> Result<Self::Sink, OpenFault>
        ensures new { IfOk result (IsNewSink Self.Sink.written Self.Sink.faults) }
        ensures noted { made self.new ≡ noted_if (is_ok result) name.now (made self.old) }
        ensures faults { CountsOpening (result ≡ Err OpenFault.Failed) name.now
            (unmade self.old) (unmade self.new) }
        ensures err { OnErr result (KeepsFiles holds made self.old self.new) }
        ensures others { (other : List ℕ) → other ≢ name.now
            → holds self.new other ≡ holds self.old other }
        ensures opened_stays { opened self.new ≡ opened self.old }
        ensures unread_stays { (any : List ℕ) → unread self.new any ≡ unread self.old any };
}
