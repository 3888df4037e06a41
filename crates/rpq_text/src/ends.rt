//! How a run can end: why it doesn't begin, and which sink fails.

ghost use Rattle.std.specs.Prelude.{◌≡◌, Some};
ghost use Rattle.rpq_text.specs.ErrorLines.{file_text};
ghost use Rattle.rpq_text.specs.FaultTexts.{start_fault_text};
ghost use Rattle.rpq_text.specs.Statuses.{status_of_start, status_of_sink};

use crate::status;
use ask_text::AskFault;
use join_file::JoinFileFault;
use query_file::QueryFault;
use std::error::Error;
use std::fmt;

/// One of the files that a run opens: the replies, the saved window, the faulty lines of a stream
/// and the replies of a reader to be written, and the others to be read. Streams and readers are
/// numbered from 1.
#[derive(Clone, Copy, Debug, PartialEq, Eq)]
pub enum Which {
    Queries,
    /// The joins over the queries.
    Joins,
    Asks,
    /// The saved window of an earlier run.
    From,
    Stream(u32),
    Replies,
    /// The window that this run saves.
    Save,
    /// The faulty lines of this stream.
    FaultsOf(u32),
    /// What this reader asks.
    AsksOf(u32),
    /// The replies to this reader.
    RepliesOf(u32),
}

impl fmt::Display for Which {
    ghost output = { λ which. Some (file_text which) };

    fn fmt<W: fmt::Write>(&self, f: &mut fmt::Formatter<W>) -> fmt::Result {
        match self {
            Which::Queries => f.write_str("queries"),
            Which::Joins => f.write_str("joins"),
            Which::Asks => f.write_str("asks"),
            Which::From => f.write_str("from"),
            Which::Stream(number) => write!(f, "stream {number}"),
            Which::Replies => f.write_str("replies"),
            Which::Save => f.write_str("save"),
            Which::FaultsOf(number) => write!(f, "faults {number}"),
            Which::AsksOf(number) => write!(f, "reader {number}"),
            Which::RepliesOf(number) => write!(f, "reader {number}"),
        }
    }
}

/// One of the sinks on which a run writes what it finds.
#[derive(Clone, Copy, Debug, PartialEq, Eq)]
pub enum SinkName {
    Events,
    Replies,
    Save,
}

impl SinkName {
    /// The status of a run in which nothing but a failed write of this sink arose.
    pub fn status(&self) -> u8
        ensures { result ≡ status_of_sink self.now }
    {
        match self {
            SinkName::Events | SinkName::Replies | SinkName::Save => status::WRITE,
        }
    }
}

/// Why a run didn't begin.
///
/// As a text it is what the line on the errors says behind `rpq: `; behind the line for refused
/// words another says how the command is used. To tell a [`QueryFault`] as text may be an error, as
/// its kind says.
#[derive(Debug, Drop)]
pub enum StartFault {
    /// The words of the command line have no settings.
    Words,
    /// The queries file has this fault.
    Queries(QueryFault),
    /// The joins file has this fault.
    Joins(JoinFileFault),
    /// The asks file has this fault.
    Asks(AskFault),
    /// The opening of this file failed.
    Open(Which),
    /// A read of this file failed.
    Read(Which),
    /// This file, which is read whole, has too many bytes.
    Long(Which),
    /// Memory ran out.
    Memory,
}

impl StartFault {
    /// The status of a run that didn't begin for this.
    pub fn status(&self) -> u8
        ensures { result ≡ status_of_start self.now }
    {
        match self {
            StartFault::Words => status::WORDS,
            StartFault::Queries(_) => status::QUERIES,
            StartFault::Joins(_) => status::JOINS,
            StartFault::Asks(_) => status::ASKS,
            StartFault::Open(
                Which::Replies | Which::Save | Which::FaultsOf(_) | Which::RepliesOf(_),
            ) => status::WRITE,
            StartFault::Open(_) | StartFault::Read(_) => status::READ,
            StartFault::Long(_) => status::LIMIT,
            StartFault::Memory => status::MEMORY,
        }
    }
}

impl fmt::Display for StartFault {
    ghost output = { λ fault. Some (start_fault_text fault) };

    fn fmt<W: fmt::Write>(&self, f: &mut fmt::Formatter<W>) -> fmt::Result {
        match self {
            StartFault::Words => f.write_str("words"),
            StartFault::Queries(fault) => write!(f, "queries {fault}"),
            StartFault::Joins(fault) => write!(f, "joins {fault}"),
            StartFault::Asks(fault) => write!(f, "asks {fault}"),
            StartFault::Open(
                which @ (Which::Replies | Which::Save | Which::FaultsOf(_) | Which::RepliesOf(_)),
            ) => { write!(f, "write failed: {which}") }
            StartFault::Open(which) | StartFault::Read(which) => write!(f, "read failed: {which}"),
            StartFault::Long(which) => write!(f, "{which}: too long"),
            StartFault::Memory => f.write_str("memory"),
        }
    }
}

impl Error for StartFault {}
