//! The asks file is read and understood.

ghost use Rattle.std.specs.Prelude.{◌≡◌, ◌≢◌, ◌⊎◌, ◌<◌, ◌≤◌, [], All, length, Ok, IfOk};
ghost use Rattle.std.specs.Prelude.{IfErr, IfSome, option_to_list};
ghost use Rattle.ask_text.specs.declared.fault.AskKind.{AskKind};
ghost use Rattle.ask_text.specs.Asks.{asks};
ghost use Rattle.ask_text.specs.Ranges.{IsSession};
ghost use Rattle.rpq_text.specs.Definitions.{definitions_of};
ghost use Rattle.rpq_text.specs.Limits.{file_limit};
ghost use Rattle.run_start.specs.Files.{AreUnderstoodJoins, ForSessions, HasQueries};
ghost use Rattle.run_start.specs.Given.{understood_names};
ghost use Rattle.run_start.specs.Ready.{IsReadWhole, fault_of};
ghost use Rattle.run_start.specs.Steps.{IsFaultOfAsks, IsRefusal, UsesMore};
ghost use Rattle.rpq_words.specs.Views.{asks_of, two_way_of};

use crate::refusal::{Refusal, without_source};
use crate::whole::whole_file;
use ask_text::{AskFault, AskKind, Session, read_asks};
use query_file::{Compiled, copied_definitions};
use rpq_io::Files;
use rpq_text::{StartFault, Which};
use rpq_words::Settings;
use std::alloc::Global;

/// The sessions of the asks file about these queries, which are those of the queries file; none
/// where no asks file is named.
pub fn sessions_of_file<F: Files>(
    alloc: Global,
    files: &mut F,
    chosen: &Settings,
    queries: &[Compiled],
) -> Result<Vec<Session>, Refusal<F::Source>>
    requires few { length queries.now ≤ 64 }
    requires has { IfSome (F.holds files.old chosen.now.queries)
        (λ bytes. HasQueries (two_way_of chosen.now) bytes (definitions_of queries.now)) }
    requires joins { AreUnderstoodJoins chosen.now (F.holds files.old) }
    ensures sessions { IfOk result (λ sessions. ForSessions chosen.now (F.holds files.old)
        (definitions_of queries.now) (λ asked. sessions.items ≡ asked)) }
    ensures few { IfOk result (λ sessions. length sessions.items ≤ 64) }
    ensures ranges { IfOk result (λ sessions.
        All (IsSession (length queries.now)) sessions.items) }
    ensures read { IfOk result (λ sessions. IfSome (asks_of chosen.now) (λ name.
        IsReadWhole F.Source.left F.Source.faults (F.holds files.old name))) }
    ensures refused { IfErr result
        (IsRefusal F.Source.left F.Source.faults chosen.now (F.holds files.old)) }
    ensures files { UsesMore F.holds F.opened F.made F.unread F.unmade chosen.now
        (understood_names chosen.now) (option_to_list (asks_of chosen.now)) [] (fault_of result)
        files.old files.new }
{
    let Some(name) = chosen.asks() else {
        return Ok(Vec::new(alloc));
    };
    let bytes = whole_file(alloc, files, name.as_str(), Which::Asks)?;
    match sessions_about(alloc, &bytes, queries) {
        Ok(sessions) => Ok(sessions),
        Err(fault) => Err(without_source(fault)),
    }
}

/// The sessions that these bytes of an asks file give about the queries.
fn sessions_about(
    alloc: Global,
    bytes: &[u8],
    queries: &[Compiled],
) -> Result<Vec<Session>, StartFault>
    requires bytes { length bytes.now < file_limit }
    requires queries { length queries.now ≤ 64 }
    ensures sessions { IfOk result (λ sessions.
        asks (definitions_of queries.now) bytes.now ≡ Ok sessions.items) }
    ensures few { IfOk result (λ sessions. length sessions.items ≤ 64) }
    ensures ranges { IfOk result (λ sessions.
        All (IsSession (length queries.now)) sessions.items) }
    ensures fault { IfErr result (IsFaultOfAsks (definitions_of queries.now) bytes.now) }
{
    let Ok(definitions) = copied_definitions(alloc, queries) else {
        return Err(StartFault::Memory);
    };
    match read_asks(alloc, bytes, &definitions) {
        Ok(sessions) => Ok(sessions),
        Err(fault) => Err(start_fault(fault)),
    }
}

/// Why a run doesn't begin for this fault of its asks file.
fn start_fault(fault: AskFault) -> StartFault
    ensures { ((fault.kind ≡ AskKind.Memory) × (result ≡ StartFault.Memory))
        ⊎ ((fault.kind ≢ AskKind.Memory) × (result ≡ StartFault.Asks fault)) }
{
    match fault.kind {
        AskKind::Memory => StartFault::Memory,
        _ => StartFault::Asks(fault),
    }
}
