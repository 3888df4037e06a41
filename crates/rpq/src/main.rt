//! The program `rpq`: it makes the real files and the sinks of standard output and standard error,
//! and ends with the status of one run over the words of the command line ([`run_once`]).
#![tactic(auto)]

mod once;
mod outlet;

ghost use Rattle.std.specs.Prelude.{◌≡◌, unwrap_or};
ghost use Rattle.std.specs.Process.{exit_status};

use once::run_once;
use rpq_io::{Context, HostFiles, HostSink, OpenGate, Place};
use rpq_run::status;
use std::env;
use std::process::ExitCode;

/// The end of the program with the status of its run. If there was no memory to begin one, it is
/// that for want of memory, with the line that a run says then.
fn end(rt: &HostRuntime, reported: Option<u8>) -> ExitCode
    ensures { exit_status result ≡ unwrap_or reported 8 }
{
    match reported {
        Some(status) => ExitCode::from(status),
        None => {
            // Where the line can't be written, the status says it.
            let _ = eprintln!(rt; "rpq: memory");
            ExitCode::from(status::MEMORY)
        }
    }
}

fn main(rt: HostRuntime) -> ExitCode {
    let context = Context {
        rt: &rt,
        alloc: rt.alloc(),
        gate: &OpenGate,
    };
    let mut files = HostFiles::new(rt.alloc(), &rt);
    let mut events = HostSink::new(Place::Output(rt.stdout()));
    let mut errors = HostSink::new(Place::Errors(rt.stderr()));
    let reported = run_once(
        &context,
        env::args(&rt),
        &mut files,
        &mut events,
        &mut errors,
    );
    end(&rt, reported)
}
