//! The sources of a vertex.

ghost use Rattle.std.specs.Prelude.{◌≡◌, ◌++◌, [], length, flat_map, All, OnOk, if◌then◌else◌};
ghost use Rattle.std.specs.Map.{values_of};
ghost use Rattle.answer_rows.specs.Answers.{AreTargets, has_target, sources_of};
ghost use Rattle.answer_rows.specs.BySource.{answers};
ghost use Rattle.answer_rows.specs.Listing.{source_line};

use crate::row::Row;
use crate::rows::Rows;
use crate::target::has_target;
use rpq_base::{Memory, Name};

impl Rows {
    /// The number of sources of a vertex: those from which a pair leads to it. Takes no memory.
    ///
    /// The time grows with the number of all sources, and with the logarithms of the numbers of
    /// their targets.
    pub fn count_sources(&self, to: &Name) -> u128
        ensures { result ≡ length (sources_of self.now to.now) }
    {
        let mut count = 0;
        for chunk in self.rows.chunks() {
            count += count_in(chunk.entries(), to) as u128;
        }
        count
    }

    /// Writes the sources of a vertex at the end of a text, in order, each with a line feed behind
    /// it. Takes memory for the text alone, and time as [`Rows::count_sources`] does.
    pub fn push_sources(&self, to: &Name, text: &mut Vec<u8>) -> Result<(), Memory>
        ensures { OnOk result (text.new.items
            ≡ text.old.items ++ flat_map source_line (sources_of self.now to.now)) }
    {
        for chunk in self.rows.chunks() {
            push_in(chunk.entries(), to, text)?;
        }
        Ok(())
    }
}

/// How many of these sources have the vertex among their targets.
fn count_in(sources: &[(Name, Row)], to: &Name) -> usize
    requires { All AreTargets (values_of sources.now) }
    ensures { result ≡ length (sources_of (answers sources.now) to.now) }
{
    let mut count = 0;
    for (_, row) in sources {
        count += count_one(row, to);
    }
    count
}

/// 1 where the row has the vertex, and 0 elsewhere.
fn count_one(row: &Row, to: &Name) -> usize
    requires { AreTargets row.now }
    ensures { result ≡ (if has_target row.now to.now then 1 else 0) }
{
    if has_target(row.targets(), to) { 1 } else { 0 }
}

/// Writes those of these sources at the end of a text that have the vertex among their targets.
fn push_in(sources: &[(Name, Row)], to: &Name, text: &mut Vec<u8>) -> Result<(), Memory>
    requires { All AreTargets (values_of sources.now) }
    ensures { OnOk result (text.new.items
        ≡ text.old.items ++ flat_map source_line (sources_of (answers sources.now) to.now)) }
{
    for (from, row) in sources {
        push_one(text, from, row, to)?;
    }
    Ok(())
}

/// Writes a source at the end of a text, with a line feed behind it, where its row has the vertex.
fn push_one(text: &mut Vec<u8>, from: &Name, row: &Row, to: &Name) -> Result<(), Memory>
    requires { AreTargets row.now }
    ensures { OnOk result (text.new.items ≡ text.old.items
        ++ (if has_target row.now to.now then source_line from.now else [])) }
{
    if has_target(row.targets(), to) {
        text.extend_from_slice(from.as_bytes())?;
        text.extend_from_slice(b"\n")?;
    }
    Ok(())
}
