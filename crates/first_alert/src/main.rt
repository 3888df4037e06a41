//! A program that embeds rpq: it runs it with an object of its own, which acts on the first event
//! that it is told of and then leaves.
#![tactic(auto)]

ghost use Rattle.std.specs.Prelude.{◌≡◌, ◌⊎◌};
ghost use Rattle.std.specs.Process.{exit_status};

use rpq_base::{Event, Memory};
use rpq_io::{Files, HostFiles, HostSink, OpenGate, Place};
use rpq_run::{Report, run, status};
use standing::{Roll, Standing, Stay, Tail};
use std::alloc::Global;
use std::env;
use std::io::{self, ErrorKind};
use std::process::ExitCode;

/// Keeps the first event of the queries that it wants. A service would send a message instead.
#[derive(Drop)]
struct FirstAlert {
    event: Tail<1>,
    is_gone: bool,
}

impl Standing for FirstAlert {
    ghost use Rattle.std.specs.Prelude.{None};
    ghost use Rattle.standing.specs.Said.{tail_text};

    ghost seen = { λ alert. record {
      wanted = alert.event.wanted;
      numbers = alert.event.numbers;
      heard = None;
      said = tail_text alert.event.kept;
      gone = alert.is_gone;
    } };

    fn wants(&self, query: u32) -> bool {
        self.event.wants(query)
    }

    fn tell(&mut self, event: &Event) -> Result<Stay, Memory> {
        self.event.tell(event)?;
        self.is_gone = true;
        Ok(Stay::Leave)
    }

    fn say(&self) -> Result<Vec<u8>, Memory> {
        self.event.say()
    }
}

/// The objects that hear the events: of the first query all, the last two and the first, and all of
/// the second, which the example doesn't have.
#[derive(Drop)]
struct Objects {
    every: Box<Roll>,
    other: Box<Roll>,
    last: Box<Tail<2>>,
    alert: Box<FirstAlert>,
}

impl Objects {
    fn new(alloc: Global) -> Result<Objects, Memory> {
        Ok(Objects {
            every: roll(alloc, 0)?,
            other: roll(alloc, 1)?,
            last: last_two(alloc)?,
            alert: alert(alloc)?,
        })
    }
}

/// A roll of the events of one query.
fn roll(alloc: Global, query: u32) -> Result<Box<Roll>, Memory> {
    let wanted = vec![in alloc; query]?;
    Ok(Box::new(alloc, Roll::new(alloc, wanted))?)
}

/// A tail of the last two events of the first query.
fn last_two(alloc: Global) -> Result<Box<Tail<2>>, Memory> {
    let wanted = vec![in alloc; 0]?;
    Ok(Box::new(alloc, Tail::new(alloc, wanted)?)?)
}

/// An alert on the first event of the first query.
fn alert(alloc: Global) -> Result<Box<FirstAlert>, Memory> {
    let wanted = vec![in alloc; 0]?;
    let event = Tail::new(alloc, wanted)?;
    let is_gone = false;
    Ok(Box::new(alloc, FirstAlert { event, is_gone })?)
}

/// The words of the command line, the program's name first.
fn words(rt: &HostRuntime, alloc: Global) -> io::Result<Vec<String>> {
    Ok(env::args(rt)?.collect(alloc)?)
}

/// The end of the program where there is no memory to begin with, with the line that a run says for
/// want of memory.
fn out_of_memory(rt: &HostRuntime) -> ExitCode
    ensures { exit_status result ≡ 8 }
{
    // Where the line can't be written, the status says it.
    let _ = eprintln!(rt; "rpq: memory");
    ExitCode::from(status::MEMORY)
}

/// Prints what each object says, a line each.
fn print_said<S: Standing>(rt: &HostRuntime, objects: &[S]) -> anyhow::Result<()> {
    for object in objects {
        println!(rt; "{}", String::from_utf8(object.say()?)?)?;
    }
    Ok(())
}

/// The end of the program behind a run: what the objects say, those that stayed first, and the
/// report's status; where it can't be said, that of a failed write.
fn end<F: Files, S: Standing>(rt: &HostRuntime, stayed: &[S], report: Report<F>) -> ExitCode
    ensures { (exit_status result ≡ report.status) ⊎ (exit_status result ≡ 6) }
{
    let is_said = print_said(rt, stayed).is_ok() && print_said(rt, &report.left).is_ok();
    ExitCode::from(if is_said {
        report.status
    } else {
        status::WRITE
    })
}

fn main(rt: HostRuntime) -> ExitCode {
    let alloc = rt.alloc();
    let words = match words(&rt, alloc) {
        Ok(words) => words,
        Err(error) if error.kind() == ErrorKind::OutOfMemory => return out_of_memory(&rt),
        // A word that isn't UTF-8 can't be handed on: the run refuses the words, as it does none.
        Err(_) => Vec::new(alloc),
    };
    let mut standing: Vec<Box<dyn Standing>> = match Vec::with_capacity(alloc, 4) {
        Ok(room) => room,
        Err(_) => return out_of_memory(&rt),
    };
    let objects = match Objects::new(alloc) {
        Ok(objects) => objects,
        Err(Memory) => return out_of_memory(&rt),
    };
    standing.push_reserved(objects.every);
    standing.push_reserved(objects.other);
    standing.push_reserved(objects.last);
    standing.push_reserved(objects.alert);
    let mut files = HostFiles::new(alloc, &rt);
    let mut events = HostSink::new(Place::Output(rt.stdout()));
    let mut errors = HostSink::new(Place::Errors(rt.stderr()));
    let report = run(
        &rt,
        alloc,
        &words,
        &mut files,
        &mut events,
        &mut errors,
        &mut standing,
        &OpenGate,
    );
    end(&rt, &standing, report)
}
