//! Files that are read whole.

ghost use Rattle.std.specs.Prelude.{◌≡◌, ◌<◌, length, Some, None, option_to_list, IfOk, IfErr};
ghost use Rattle.std.specs.Prelude.{IfSome};
ghost use Rattle.rpq_io.specs.declared.fault.AllFault.{AllFault};
ghost use Rattle.rpq_text.specs.declared.ends.StartFault.{StartFault};
ghost use Rattle.rpq_text.specs.Limits.{file_limit};
ghost use Rattle.run_start.specs.Ready.{IsReadWhole, fault_of};
ghost use Rattle.run_start.specs.Start.{AreSourcesOf};
ghost use Rattle.run_start.specs.Steps.{IsFaultOfFile, OpensFile};

use crate::limits::FILE_LIMIT;
use crate::refusal::{Refusal, without_source};
use rpq_io::{AllFault, Files, OpenFault, read_all};
use rpq_text::{StartFault, Which};
use std::alloc::Global;

/// All the bytes of the file of this name.
pub fn whole_file<F: Files>(
    alloc: Global,
    files: &mut F,
    name: &str,
    which: Which,
) -> Result<Vec<u8>, Refusal<F::Source>>
    ensures content { IfOk result (λ bytes.
        IfSome (F.holds files.old name.now) (λ held. bytes.items ≡ held)) }
    ensures short { IfOk result (λ bytes. length bytes.items < file_limit) }
    ensures read { IfOk result (λ bytes.
        IsReadWhole F.Source.left F.Source.faults (F.holds files.old name.now)) }
    ensures cause { IfErr result (λ refusal.
        IsFaultOfFile which (F.holds files.old name.now) refusal.fault) }
    ensures source { IfErr result (λ refusal. AreSourcesOf F.Source.left F.Source.faults
        (λ any. F.holds files.old name.now) refusal.fault (option_to_list refusal.source)) }
    ensures files { OpensFile F.holds F.opened F.made F.unread F.unmade which name.now
        (fault_of result) files.old files.new }
{
    let mut source = match files.source(name) {
        Ok(source) => source,
        Err(OpenFault::Failed) => return Err(without_source(StartFault::Open(which))),
        Err(OpenFault::Memory) => return Err(without_source(StartFault::Memory)),
    };
    match read_all(alloc, &mut source, FILE_LIMIT) {
        Ok(bytes) => Ok(bytes),
        Err(fault) => Err(refusal_of(fault, which, source)),
    }
}

/// The refusal for this fault of reading the file whole; the source is left where a read failed.
fn refusal_of<S: Drop>(fault: AllFault, which: Which, source: S) -> Refusal<S>
    ensures read { fault ≡ AllFault.Read →
        result ≡ record { fault = StartFault.Read which; source = Some source } }
    ensures long { fault ≡ AllFault.Long →
        result ≡ record { fault = StartFault.Long which; source = None } }
    ensures memory { fault ≡ AllFault.Memory →
        result ≡ record { fault = StartFault.Memory; source = None } }
{
    match fault {
        AllFault::Read => Refusal {
            fault: StartFault::Read(which),
            source: Some(source),
        },
        AllFault::Long => without_source(StartFault::Long(which)),
        AllFault::Memory => without_source(StartFault::Memory),
    }
}
