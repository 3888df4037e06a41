//! A program that asks the engine, and makes whole runs over objects in memory, so that what they
//! answer can be compared with what it should be. `stdin` has the requests, and `stdout` the
//! answers, which evaluators from outside gave, or which follow from the rules of the formats.
//! `rpq_cases` has the requests to the libraries below the engine, and `case_lines` says what a
//! line and its fields are.
//!
//! - `engine WORKERS TEXT TUPLES`: what each tuple changes of the answers of the queries of a
//!   queries file, `;` behind each, for an engine with this number of workers; then its position,
//!   and for each query `|` and the answers with their ends.
//! - `front WORKERS TEXT TUPLES`: the same, for an engine that takes all tuples at once, as a
//!   front.
//! - `rebuild WORKERS TEXT TUPLES`: an engine takes all tuples one by one and shows its answers. It
//!   is then rebuilt over all but the last, so it goes back, and takes the last once more. What
//!   that changes is printed, and then its position and the answers: the end of what `engine`
//!   prints.
//! - `run PIECE OPENING WORDS QUERIES STREAM [WINDOW [READ [WRITE]]]`: a run over the files `q`,
//!   `s` and `w`, read in pieces of this length, where the opening of this number fails, this read
//!   of `w`, and this write of the sinks that the run opens: its status, what it writes on the
//!   events, behind `|` what it tells on the errors, behind another `|` the window that it saves,
//!   if it does, and behind `|` what it tells of faulty lines of the stream, if it has a sink for
//!   them. Numbers count from 1, and 0, or none, is no failure.
//! - `calls READ WRITE ROOM OPENING FILE NUMBER EVENT ERROR WORDS QUERIES STREAM`: the same of a run
//!   over the files `q` and `s`, where a read gives at most READ bytes and a write takes at most
//!   WRITE, the events have room for ROOM, and the opening of this number fails, the read of this
//!   number of the file of this name, and these writes of the events and the errors.
//! - `readers PIECE WORDS QUERIES ASKS STREAM STREAM`: a run over the files `q`, `a`, `s` and `t`,
//!   read in pieces of this length: its status, how many entries its history has of each of the
//!   streams 1 to 4, and how many in all; behind `|` what it tells on the errors, and behind
//!   another `|` what on the replies. All are opened under these names, a stream as often as it is
//!   named.
//! - `faults OPENING FILE READ EVENT REPLY ERROR PIECE WORDS QUERIES ASKS STREAM STREAM STREAM`: a
//!   run over the files `q`, `a`, `s`, `t` and `u`, in which some calls fail: the opening of this
//!   number, this read of the file of this name, and these writes of the events, the replies and
//!   the errors. They are counted from 1, and 0 is none. A read gives, and a write takes, at most
//!   PIECE bytes. What is printed is the same in whichever order the tuples of the streams come:
//!   the status; how much was written of the text of the run's history, which is made from scratch;
//!   how many entries this history has, or `-` where not all of its text was written; how many
//!   sources and how many sessions the report has; how much of the text of these sessions was
//!   written on the replies, or `-` without a sink for them; `yes` where a tally that was handed in
//!   says how many events gained and lost a pair in the blocks that were written whole, else `no`;
//!   the list that it is in, `standing` or `left`; and behind `|` what was told on the errors. How
//!   much is `none` for no byte, `whole`, `part` for a proper front, and else `other`.
//! - `live PIECE OPENING FILE READ EVENT WRITE WORDS QUERIES ASKS STREAM ASKS ASKS`: a run over the
//!   files `q`, `a`, `s`, `t` and `u`, of which the last two are what readers beside the run ask,
//!   and in which some calls fail: the opening of this number, this read of the file of this name,
//!   this write of the events, and this write of each sink that the run opens. Numbers count from
//!   1, and 0 is no failure. What is printed is the status, what it writes on the events, behind
//!   `|` what it tells on the errors, behind `|` what it writes on the replies to sessions, if it
//!   has a sink for them, and behind `|` for each reader how it ended and what it was answered. So
//!   that it's the same however the reader and the stream come, a reader waits for the last tuple
//!   first.
//! - `told PIECE OPENING WRITE WORDS QUERIES STREAM STREAM`: a run over the files `q`, `s` and `t`,
//!   read in pieces of this length, where the opening of this number fails, and this write of each
//!   sink that the run opens: its status, how many entries its history has of each of the streams 1
//!   to 4, and how many in all; behind `|` what it tells on the errors, and behind `|` for each
//!   stream what it tells of its faulty lines, if it has a sink for them.
//!
//! `WORDS` are words with `;` between them, the program's name first, and `TUPLES` lines of a
//! stream with `;` between them: a name with such a byte has it as `%` and two digits.
#![tactic(auto)]

mod blocks;
mod engines;
mod faults;
mod given;
mod left;
mod live;
mod made;
mod outside;
mod readers;
mod request;
mod runs;
mod told;

use case_lines::{Fields, Output, answer_lines};
use engines::{Way, answer_engine};
use request::RunRequest;
use std::alloc::Global;
use std::random::RandomSource;
use std::sync::Wait;
use std::thread::Threads;

/// Answers one request.
fn answer<R: RandomSource + Threads + Wait + Sync>(
    rt: &R,
    alloc: Global,
    out: &mut Output,
    request: RunRequest,
    fields: Fields,
) -> anyhow::Result<()> {
    match request {
        RunRequest::Engine => answer_engine(rt, alloc, out, Way::Each, fields),
        RunRequest::Front => answer_engine(rt, alloc, out, Way::Front, fields),
        RunRequest::Rebuild => answer_engine(rt, alloc, out, Way::Rebuilt, fields),
        RunRequest::Run => runs::answer_run(rt, alloc, out, fields),
        RunRequest::Calls => runs::answer_calls(rt, alloc, out, fields),
        RunRequest::Readers => readers::answer_readers(rt, alloc, out, fields),
        RunRequest::Faults => faults::answer_faults(rt, alloc, out, fields),
        RunRequest::Live => live::answer_live(rt, alloc, out, fields),
        RunRequest::Told => told::answer_told(rt, alloc, out, fields),
    }
}

/// Answers the request of this keyword, if there is one. Whether there is.
fn answer_keyword<R: RandomSource + Threads + Wait + Sync>(
    rt: &R,
    alloc: Global,
    out: &mut Output,
    keyword: &[u8],
    fields: Fields,
) -> anyhow::Result<bool> {
    match RunRequest::named(keyword) {
        Some(request) => {
            answer(rt, alloc, out, request, fields)?;
            Ok(true)
        }
        None => Ok(false),
    }
}

fn main(rt: HostRuntime) -> anyhow::Result<()> {
    let alloc = rt.alloc();
    answer_lines(&rt, alloc, |out, keyword, fields| {
        answer_keyword(&rt, alloc, out, keyword, fields)
    })
}
