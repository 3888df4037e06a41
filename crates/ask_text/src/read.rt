//! Reading an asks file.

ghost use Rattle.std.specs.Prelude.{◌≡◌, ◌≢◌, ◌+◌, ◌<◌, ◌≤◌, ◌^◌, map, length, All, IfOk, IfErr};
ghost use Rattle.ask_text.specs.declared.fault.AskKind.{AskKind};
ghost use Rattle.ask_text.specs.Asks.{none_yet, all, begun, asked, after_fields, after_line, asks};
ghost use Rattle.ask_text.specs.Ranges.{IsSession};

use crate::ask::Session;
use crate::fault::{AskFault, AskKind};
use crate::line::{begins_session, read_ask};
use rpq_base::Memory;
use rpq_model::QueryDef;
use std::alloc::Global;
use std::marker::Model;
use text_parts::{TextReader, fields, is_blank_line, is_comment, read_lines};

/// The most sessions that a file has.
const MAX_SESSIONS: usize = 64;

/// The most asks of a session.
const MAX_ASKS: usize = 1024;

/// The sessions so far: those that are over, and the one that goes on.
#[derive(Drop)]
struct Progress {
    over: Vec<Session>,
    current: Option<Session>,
}

impl Model for Progress {
    ghost use Rattle.std.specs.Coded.{codes};
    ghost use Rattle.ask_text.specs.AskCode.{ask_code};
    ghost use Rattle.ask_text.specs.Asks.{Sessions};

    ghost Value = { Sessions };

    ghost coded = { Prim.hlevel (codes, ask_code) };

    ghost view = { λ progress. record {
      over = progress.over.items;
      current = progress.current;
    } };
}

/// What reads an asks file: the queries that its asks may name.
#[derive(Drop)]
struct AskReader<'a> {
    alloc: Global,
    queries: &'a [QueryDef],
}

impl<'a> TextReader for AskReader<'a> {
    type Progress = Progress;

    type Fault = AskFault;

    ghost use Rattle.ask_text.specs.Asks.{line_step};

    ghost can_read = { λ reader. length reader.queries.now ≤ 64 };

    ghost step = { λ reader. line_step reader.queries.now };

    ghost told = { λ fault. fault.kind ≢ AskKind.Memory };

    fn with_line(&self, number: u64, before: Progress, line: &[u8]) -> Result<Progress, AskFault> {
        match with_line(self.alloc, self.queries, before, line) {
            Ok(next) => Ok(next),
            Err(kind) => Err(AskFault { line: number, kind }),
        }
    }
}

/// The sessions of an asks file with these bytes, or the first fault. An ask's query is told by its
/// place among these.
///
/// The lines are gone through from the first on, up to the first that has a fault, and of its
/// faults the first in the order of [`AskKind`] is told. Blank lines and comments count as lines.
/// Where memory runs out the fault is `Memory`, at the line that was read then.
#[tactic(auto, unfolding(crate::specs::Asks::asks))]
pub fn read_asks(
    alloc: Global,
    bytes: &[u8],
    queries: &[QueryDef],
) -> Result<Vec<Session>, AskFault>
    requires bytes { length bytes.now < 2 ^ 24 + 1 }
    requires queries { length queries.now ≤ 64 }
    ensures sessions { IfOk result (λ found. asks queries.now bytes.now ≡ Ok found.items) }
    ensures fault { IfErr result (λ fault. fault.kind ≢ AskKind.Memory →
        asks queries.now bytes.now ≡ Err fault) }
    ensures few { IfOk result (λ found. length found.items ≤ 64) }
    ensures each { IfOk result (λ found. All (IsSession (length queries.now)) found.items) }
{
    let reader = AskReader { alloc, queries };
    let (progress, count) = read_lines(&reader, none_yet(alloc), bytes)?;
    match all(progress) {
        Ok(sessions) => Ok(sessions),
        Err(Memory) => Err(AskFault {
            line: count,
            kind: AskKind::Memory,
        }),
    }
}

/// No session.
fn none_yet(alloc: Global) -> Progress
    ensures { result ≡ none_yet }
{
    Progress {
        over: Vec::new(alloc),
        current: None,
    }
}

/// All sessions so far.
fn all(progress: Progress) -> Result<Vec<Session>, Memory>
    ensures { IfOk result (λ sessions. sessions.items ≡ all progress) }
{
    let Progress { mut over, current } = progress;
    if let Some(session) = current {
        over.push(session)?;
    }
    Ok(over)
}

/// The sessions after a line.
#[tactic(auto, unfolding(crate::specs::Asks::after_line))]
fn with_line(
    alloc: Global,
    queries: &[QueryDef],
    progress: Progress,
    line: &[u8],
) -> Result<Progress, AskKind>
    requires { length queries.now ≤ 64 }
    ensures ok { IfOk result (λ next. after_line queries.now progress line.now ≡ Ok next) }
    ensures err { IfErr result (λ kind. kind ≢ AskKind.Memory →
        after_line queries.now progress line.now ≡ Err kind) }
{
    if is_blank_line(line) || is_comment(line) {
        return Ok(progress);
    }
    let fields = fields(alloc, line)?;
    with_fields(alloc, queries, progress, &fields)
}

/// The sessions after a line with these fields.
#[tactic(auto, unfolding(crate::specs::Asks::after_fields))]
fn with_fields(
    alloc: Global,
    queries: &[QueryDef],
    progress: Progress,
    fields: &[&[u8]],
) -> Result<Progress, AskKind>
    requires { length queries.now ≤ 64 }
    ensures ok { IfOk result (λ next.
        after_fields queries.now progress (map (λ field. field.now) fields.now) ≡ Ok next) }
    ensures err { IfErr result (λ kind. kind ≢ AskKind.Memory →
        after_fields queries.now progress (map (λ field. field.now) fields.now) ≡ Err kind) }
{
    if begins_session(fields) {
        return with_session(alloc, progress);
    }
    with_ask(alloc, queries, progress, fields)
}

/// The sessions so far, and one that begins.
#[tactic(auto, unfolding(crate::specs::Asks::begun))]
fn with_session(alloc: Global, progress: Progress) -> Result<Progress, AskKind>
    ensures ok { IfOk result (λ next. begun (all progress) ≡ Ok next) }
    ensures err { IfErr result (λ kind. kind ≢ AskKind.Memory →
        begun (all progress) ≡ Err kind) }
{
    let over = all(progress)?;
    if over.len() >= MAX_SESSIONS {
        return Err(AskKind::TooMany);
    }
    let current = Some(Session {
        asks: Vec::new(alloc),
    });
    Ok(Progress { over, current })
}

/// The sessions so far, with one ask more in the one that goes on.
#[tactic(auto, unfolding(crate::specs::Asks::asked, crate::specs::Asks::grown))]
fn with_ask(
    alloc: Global,
    queries: &[QueryDef],
    progress: Progress,
    fields: &[&[u8]],
) -> Result<Progress, AskKind>
    requires { length queries.now ≤ 64 }
    ensures ok { IfOk result (λ next. asked queries.now progress.over progress.current
        (map (λ field. field.now) fields.now) ≡ Ok next) }
    ensures err { IfErr result (λ kind. kind ≢ AskKind.Memory →
        asked queries.now progress.over progress.current
        (map (λ field. field.now) fields.now) ≡ Err kind) }
{
    let Progress { over, current } = progress;
    let Some(mut session) = current else {
        return Err(AskKind::Shape);
    };
    let ask = read_ask(alloc, queries, fields)?;
    if session.asks.len() >= MAX_ASKS {
        return Err(AskKind::TooMany);
    }
    session.asks.push(ask)?;
    let current = Some(session);
    Ok(Progress { over, current })
}
