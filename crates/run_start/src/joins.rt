//! The joins file is read and understood.

ghost use Rattle.std.specs.Prelude.{◌≡◌, ◌≢◌, ◌⊎◌, ◌<◌, ◌≤◌, ◌∷◌, [], All, length, Ok, IfOk};
ghost use Rattle.std.specs.Prelude.{IfErr, IfSome, option_to_list};
ghost use Rattle.join_file.specs.declared.fault.JoinFileFaultKind.{JoinFileFaultKind};
ghost use Rattle.join_file.specs.JoinsFile.{joins};
ghost use Rattle.join_file.specs.Sound.{IsSound};
ghost use Rattle.rpq_text.specs.Definitions.{definitions_of};
ghost use Rattle.rpq_text.specs.Limits.{file_limit};
ghost use Rattle.run_start.specs.Files.{ForJoins, HasQueries};
ghost use Rattle.run_start.specs.Ready.{IsReadWhole, fault_of};
ghost use Rattle.run_start.specs.Steps.{IsFaultOfJoins, IsRefusal, UsesMore};
ghost use Rattle.rpq_words.specs.Views.{joins_of, two_way_of};

use crate::refusal::{Refusal, without_source};
use crate::whole::whole_file;
use join_file::{JoinDef, JoinFileFault, JoinFileFaultKind, read_joins};
use query_file::{Compiled, copied_definitions};
use rpq_base::Memory;
use rpq_io::Files;
use rpq_text::{StartFault, Which};
use rpq_words::Settings;
use std::alloc::Global;
use std::sync::Arc;

/// The joins of the joins file over these queries, which are those of the queries file; none where
/// no joins file is named.
pub fn joins_of_file<F: Files>(
    alloc: Global,
    files: &mut F,
    chosen: &Settings,
    queries: &[Compiled],
) -> Result<Arc<Vec<JoinDef>>, Refusal<F::Source>>
    requires few { length queries.now ≤ 64 }
    requires has { IfSome (F.holds files.old chosen.now.queries)
        (λ bytes. HasQueries (two_way_of chosen.now) bytes (definitions_of queries.now)) }
    ensures joins { IfOk result (λ joins. ForJoins chosen.now (F.holds files.old)
        (definitions_of queries.now) (λ found. joins.value.items ≡ found)) }
    ensures few { IfOk result (λ joins. length joins.value.items ≤ 32) }
    ensures sound { IfOk result (λ joins.
        All (IsSound (length queries.now)) joins.value.items) }
    ensures read { IfOk result (λ joins. IfSome (joins_of chosen.now) (λ name.
        IsReadWhole F.Source.left F.Source.faults (F.holds files.old name))) }
    ensures refused { IfErr result
        (IsRefusal F.Source.left F.Source.faults chosen.now (F.holds files.old)) }
    ensures files { UsesMore F.holds F.opened F.made F.unread F.unmade chosen.now
        (chosen.now.queries ∷ []) (option_to_list (joins_of chosen.now)) [] (fault_of result)
        files.old files.new }
{
    let Some(name) = chosen.joins() else {
        return match shared(alloc, Vec::new(alloc)) {
            Ok(joins) => Ok(joins),
            Err(Memory) => Err(without_source(StartFault::Memory)),
        };
    };
    let bytes = whole_file(alloc, files, name.as_str(), Which::Joins)?;
    match joins_over(alloc, &bytes, queries) {
        Ok(joins) => Ok(joins),
        Err(fault) => Err(without_source(fault)),
    }
}

/// The joins, to be shared.
fn shared(alloc: Global, joins: Vec<JoinDef>) -> Result<Arc<Vec<JoinDef>>, Memory>
    ensures { IfOk result (λ shared. shared.value.items ≡ joins.items) }
{
    Ok(Arc::new(alloc, joins)?)
}

/// The joins that these bytes of a joins file give over the queries.
fn joins_over(
    alloc: Global,
    bytes: &[u8],
    queries: &[Compiled],
) -> Result<Arc<Vec<JoinDef>>, StartFault>
    requires bytes { length bytes.now < file_limit }
    requires queries { length queries.now ≤ 64 }
    ensures joins { IfOk result (λ found.
        joins (definitions_of queries.now) bytes.now ≡ Ok found.value.items) }
    ensures few { IfOk result (λ found. length found.value.items ≤ 32) }
    ensures sound { IfOk result (λ found.
        All (IsSound (length queries.now)) found.value.items) }
    ensures fault { IfErr result (IsFaultOfJoins (definitions_of queries.now) bytes.now) }
{
    let Ok(definitions) = copied_definitions(alloc, queries) else {
        return Err(StartFault::Memory);
    };
    let found = match read_joins(alloc, bytes, &definitions) {
        Ok(found) => found,
        Err(fault) => return Err(start_fault(fault)),
    };
    match shared(alloc, found) {
        Ok(joins) => Ok(joins),
        Err(Memory) => Err(StartFault::Memory),
    }
}

/// Why a run doesn't begin for this fault of its joins file.
fn start_fault(fault: JoinFileFault) -> StartFault
    ensures { ((fault.kind ≡ JoinFileFaultKind.Memory) × (result ≡ StartFault.Memory))
        ⊎ ((fault.kind ≢ JoinFileFaultKind.Memory) × (result ≡ StartFault.Joins fault)) }
{
    match fault.kind {
        JoinFileFaultKind::Memory => StartFault::Memory,
        _ => StartFault::Joins(fault),
    }
}
