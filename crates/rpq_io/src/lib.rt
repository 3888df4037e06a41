//! The edge of rpq to the outside: sources of bytes, sinks of bytes, and files by name.
//!
//! The traits [`Source`], [`Sink`] and [`Files`] say what the outside may do, and count its faults.
//! The layer above rests on one contract: a failed read, write or opening is answered exactly where
//! its count rose, so none is passed over in silence or tried again, and a failed read or write
//! moved nothing. [`read_all`] gives all the bytes of a source, whatever pieces it gives,
//! [`LineReader`] gives or lends its lines as they come and passes over one that is too long, and
//! [`put_all`] writes all bytes, or a proper prefix of them and a fault.
//!
//! What a call may do to the counts of faults, by its answer ("stays" and "rises" as in
//! `specs/Counts`; no other count changes):
//!
//! | Call | Answer | Count |
//! |---|---|---|
//! | [`Source::read`] | `Ok` | the reads that failed: stays |
//! | | `Err` | rises |
//! | [`Sink::write`] | `Ok` | the writes that failed: stays |
//! | | `Err` | rises |
//! | [`Files::source`] | `Ok`, `Memory` | the openings to read that failed, of every name: stays |
//! | | `Failed` | of this name: rises; of every other: stays |
//! | [`Files::sink`] | `Ok`, `Memory` | the openings to write that failed, of every name: stays |
//! | | `Failed` | of this name: rises; of every other: stays |
//! | [`read_all`] | `Ok`, `Long`, `Memory` | the reads of its source: stays |
//! | | `Read` | rises |
//! | [`LineReader::next_line`] | `Ok`, `LongLine`, `LongStream`, `Memory` | the reads: stays |
//! | | `Read` | rises |
//! | [`LineReader::lend_line`] | `Ok`, `LongLine`, `LongStream` | the reads: stays |
//! | | `Read` | rises |
//! | [`LineReader::pass_long_line`] | `Ok`, `LongStream` | the reads: stays |
//! | | `Read` | rises |
//! | [`put_all`] | `Ok` | the writes of its sink: stays |
//! | | `Err` | rises |
//!
//! Objects in memory tell what they hold, so that a proof can follow the bytes, and do exactly what
//! they were made to do: which calls fail, how many bytes one moves, how much room there is. The
//! adapters over std hand on exactly what std's reader or writer gave and took; what files of the
//! host hold isn't told, and that an opening to read leaves a file as it is is trusted. A regular
//! file that was opened before isn't opened to write, by whatever name ([`HostFiles`]). Each byte is
//! copied once by [`read_all`], twice at most by [`LineReader`], once at most where it lends its
//! lines, and not at all by [`put_all`].
#![tactic(auto)]

mod fault;
mod file_id;
mod file_list;
mod files;
mod host;
mod host_file;
mod host_files;
mod laws;
mod line_buffer;
mod line_reader;
mod memory_files;
mod memory_sink;
mod memory_source;
mod name_list;
mod opening;
mod place;
mod script;
mod sink;
mod source;
mod whole;

pub use fault::{AllFault, Failed, LineFault, OpenFault};
pub use file_id::FileId;
pub use files::Files;
pub use host::{HostSink, HostSource};
pub use host_file::HostFile;
pub use host_files::HostFiles;
pub use laws::only_lines_are_cut;
pub use line_reader::LineReader;
pub use memory_files::MemoryFiles;
pub use memory_sink::MemorySink;
pub use memory_source::MemorySource;
pub use place::Place;
pub use run_context::{Context, Gate, OpenGate, Who};
pub use sink::Sink;
pub use source::Source;
pub use whole::{put_all, read_all};
