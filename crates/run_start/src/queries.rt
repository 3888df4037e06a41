//! The queries file is read and understood.

ghost use Rattle.std.specs.Prelude.{◌≡◌, ◌≢◌, ◌<◌, ◌⊎◌, ◌∷◌, [], length, Ok, Err};
ghost use Rattle.std.specs.Prelude.{IfOk, IfErr, IfSome};
ghost use Rattle.query_file.specs.Queries.{QueriesOf};
ghost use Rattle.query_file.specs.declared.fault.QueryKind.{QueryKind};
ghost use Rattle.rpq_text.specs.Definitions.{definitions_of};
ghost use Rattle.rpq_text.specs.Limits.{file_limit};
ghost use Rattle.run_start.specs.Files.{HasQueries};
ghost use Rattle.run_start.specs.Ready.{AreUnderstood, IsReadWhole, fault_of};
ghost use Rattle.run_start.specs.Steps.{IsRefusal, UsesMore};
ghost use Rattle.rpq_words.specs.Views.{two_way_of};

use crate::refusal::{Refusal, without_source};
use crate::whole::whole_file;
use query_file::{Compiled, QueryFault, QueryKind, read_queries, read_two_way_queries};
use rpq_io::Files;
use rpq_text::{StartFault, Which};
use rpq_words::Settings;
use std::alloc::Global;

/// The queries of the queries file, each with its automaton and verdict.
pub fn queries_of_file<F: Files>(
    alloc: Global,
    files: &mut F,
    chosen: &Settings,
) -> Result<Vec<Compiled>, Refusal<F::Source>>
    ensures queries { IfOk result (λ queries. IfSome (F.holds files.old chosen.now.queries)
        (λ bytes. HasQueries (two_way_of chosen.now) bytes (definitions_of queries.items))) }
    ensures understood { IfOk result (λ queries. AreUnderstood queries.items) }
    ensures read { IfOk result (λ queries. IsReadWhole F.Source.left F.Source.faults
        (F.holds files.old chosen.now.queries)) }
    ensures refused { IfErr result
        (IsRefusal F.Source.left F.Source.faults chosen.now (F.holds files.old)) }
    ensures files { UsesMore F.holds F.opened F.made F.unread F.unmade chosen.now
        [] (chosen.now.queries ∷ []) [] (fault_of result) files.old files.new }
{
    let bytes = whole_file(alloc, files, chosen.queries.as_str(), Which::Queries)?;
    match read(alloc, chosen.is_two_way(), &bytes) {
        Ok(queries) => Ok(queries),
        Err(fault) => Err(without_source(start_fault(fault))),
    }
}

/// The queries of a queries file with these bytes, which may take edges backwards or not, or the
/// first fault.
fn read(alloc: Global, two_way: bool, bytes: &[u8]) -> Result<Vec<Compiled>, QueryFault>
    requires { length bytes.now < file_limit }
    ensures queries { IfOk result (λ queries.
        QueriesOf two_way bytes.now (Ok (definitions_of queries.items))) }
    ensures understood { IfOk result (λ queries. AreUnderstood queries.items) }
    ensures fault { IfErr result (λ fault. fault.kind ≢ QueryKind.Memory →
        QueriesOf two_way bytes.now (Err fault)) }
{
    if two_way {
        read_two_way_queries(alloc, bytes)
    } else {
        read_queries(alloc, bytes)
    }
}

/// Why a run doesn't begin for this fault of its queries file.
fn start_fault(fault: QueryFault) -> StartFault
    ensures { ((fault.kind ≡ QueryKind.Memory) × (result ≡ StartFault.Memory))
        ⊎ ((fault.kind ≢ QueryKind.Memory) × (result ≡ StartFault.Queries fault)) }
{
    match fault.kind {
        QueryKind::Memory => StartFault::Memory,
        _ => StartFault::Queries(fault),
    }
}
