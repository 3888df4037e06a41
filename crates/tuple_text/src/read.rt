//! Reading a line of a stream.

ghost use Rattle.std.specs.Prelude.{ℕ, ◌≡◌, ◌≢◌, ◌+◌, ◌^◌, ◌<◌, ◌≤◌, ◌↔◌, map, length};
ghost use Rattle.std.specs.Prelude.{Some, IfOk, IfErr, IfSome};
ghost use Rattle.rpq_base.specs.Plain.{IsPlainLabel, IsPlainAct, IsPlainTuple};
ghost use Rattle.text_parts.specs.Fields.{fields};
ghost use Rattle.text_parts.specs.Lines.{is_blank as is_blank_byte};
ghost use Rattle.tuple_text.specs.declared.read.BadLine.{BadLine};
ghost use Rattle.tuple_text.specs.FaultTexts.{fault_text};
ghost use Rattle.tuple_text.specs.Parts.{GivesNothing};
ghost use Rattle.rpq_base.specs.TupleValue.{IsInRange};
ghost use Rattle.tuple_text.specs.Reading.{time_of, name_of, edge_of, act_of, end_of, ending_of};
ghost use Rattle.tuple_text.specs.Reading.{tick_of, change_of, lasting_of, tuple_of_fields};
ghost use Rattle.tuple_text.specs.Reading.{line_tuple};

use rpq_base::{Act, Edge, Label, MAX_TIME, Memory, Name, NameFault, Tuple};
use smallvec::SmallVec;
use std::alloc::{AllocError, Global};
use std::error::Error;
use std::fmt;
use text_parts::{NumberFault, is_blank_line, is_comment, read_number};

/// Why a line gives no tuple. A line is answered with the first fault in this order that it has; of
/// several fields that are no names the first counts.
#[derive(Clone, Copy, Debug, PartialEq, Eq)]
pub enum BadLine {
    /// The line has this many fields, and not 1, 4, 5, 6 or 7.
    Fields(u32),
    /// The first field isn't made of digits.
    Time,
    /// The first field is a number above [`MAX_TIME`].
    TimeRange,
    /// The field at this place, from 1, should be a name and isn't.
    BadName(u32),
    /// The fifth of five fields is neither `+` nor `-`, or the fifth of seven is not `+`.
    Op,
    /// The last two of six or seven fields are not the word `until` and a time in digits of at most
    /// [`MAX_TIME`].
    Until,
    /// Memory ran out.
    Memory,
}

impl From<AllocError> for BadLine {
    ghost from_gives = { λ _ fault. fault ≡ BadLine.Memory };

    fn from(_: AllocError) -> Self {
        Self::Memory
    }
}

impl fmt::Display for BadLine {
    ghost output = { λ fault. Some (fault_text fault) };

    fn fmt<W: fmt::Write>(&self, f: &mut fmt::Formatter<W>) -> fmt::Result {
        match self {
            Self::Fields(count) => write!(f, "fields {count}"),
            Self::Time => f.write_str("time"),
            Self::TimeRange => f.write_str("time range"),
            Self::BadName(place) => write!(f, "name {place}"),
            Self::Op => f.write_str("operation"),
            Self::Until => f.write_str("until"),
            Self::Memory => f.write_str("memory"),
        }
    }
}

impl Error for BadLine {}

/// The tuple that a line gives, or `None` where the line is blank or a comment. A line is handed
/// over without its line feed and without the carriage return that may stand at its end; such bytes
/// would be part of its fields.
///
/// A tick is written `TIME`, an insert `TIME SOURCE LABEL TARGET` or the same with `+` as a fifth
/// field, a delete with `-`. Behind an insert, `until END` gives it an end of its own. The time and
/// the end are written in digits and are at most [`MAX_TIME`], and the other three are names.
#[tactic(auto, unfolding(crate::specs::Reading::line_tuple))]
pub fn read_tuple(alloc: Global, line: &[u8]) -> Result<Option<Tuple>, BadLine>
    requires { length line.now < 2 ^ 24 + 1 }
    ensures ok { IfOk result (λ tuple. line_tuple line.now ≡ Ok tuple) }
    ensures err { IfErr result (λ bad. bad ≢ BadLine.Memory → line_tuple line.now ≡ Err bad) }
    ensures none { (result ≡ Ok None) ↔ GivesNothing line.now }
    ensures plain { IfOk result (λ tuple. IfSome tuple IsPlainTuple) }
{
    if is_blank_line(line) || is_comment(line) {
        return Ok(None);
    }
    let fields = fields_of(alloc, line)?;
    Ok(Some(read_fields(alloc, fields.as_slice())?))
}

/// The fields of a line. Up to seven, which is as many as a tuple has, take no memory.
fn fields_of<'a>(alloc: Global, line: &'a [u8]) -> Result<SmallVec<&'a [u8], 7>, AllocError>
    ensures { IfOk result (λ found. map (λ field. field.now) found.items ≡ fields line.now) }
{
    line.split(|byte| is_blank(*byte))
        .filter(|run| !run.is_empty())
        .collect(alloc)
}

/// Whether the byte is a space or a tab.
fn is_blank(byte: u8) -> bool
    ensures { result ≡ is_blank_byte byte }
{
    matches!(byte, b' ' | b'\t')
}

/// The tuple that the fields of a line give.
#[tactic(auto, unfolding(crate::specs::Reading::tuple_of_fields))]
fn read_fields(alloc: Global, fields: &[&[u8]]) -> Result<Tuple, BadLine>
    requires { length fields.now < 2 ^ 32 }
    ensures ok { IfOk result (λ tuple.
        tuple_of_fields (map (λ field. field.now) fields.now) ≡ Ok tuple) }
    ensures err { IfErr result (λ bad. bad ≢ BadLine.Memory
        → tuple_of_fields (map (λ field. field.now) fields.now) ≡ Err bad) }
    ensures plain { IfOk result IsPlainTuple }
{
    match fields {
        [time] => read_tick(time),
        [time, source, label, target] => read_change(alloc, time, source, label, target, b"+"),
        [time, source, label, target, sign] => {
            read_change(alloc, time, source, label, target, sign)
        }
        [time, source, label, target, word, end] => {
            let until = read_end(word, end);
            read_lasting(alloc, time, source, label, target, b"+", until)
        }
        [time, source, label, target, sign, word, end] => {
            let until = read_end(word, end);
            read_lasting(alloc, time, source, label, target, sign, until)
        }
        _ => Err(BadLine::Fields(fields.len() as u32)),
    }
}

/// The tick at the time that a field writes.
#[tactic(auto, unfolding(crate::specs::Reading::tick_of))]
fn read_tick(time: &[u8]) -> Result<Tuple, BadLine>
    ensures ok { IfOk result (λ tuple. tick_of time.now ≡ Ok tuple) }
    ensures err { IfErr result (λ bad. tick_of time.now ≡ Err bad) }
    ensures plain { IfOk result IsPlainTuple }
{
    Ok(Tuple {
        time: read_time(time)?,
        act: Act::Tick,
    })
}

/// The insert or delete that five fields give.
#[tactic(auto, unfolding(crate::specs::Reading::change_of))]
fn read_change(
    alloc: Global,
    time: &[u8],
    source: &[u8],
    label: &[u8],
    target: &[u8],
    sign: &[u8],
) -> Result<Tuple, BadLine>
    ensures ok { IfOk result (λ tuple.
        change_of time.now source.now label.now target.now sign.now ≡ Ok tuple) }
    ensures err { IfErr result (λ bad. bad ≢ BadLine.Memory
        → change_of time.now source.now label.now target.now sign.now ≡ Err bad) }
    ensures plain { IfOk result IsPlainTuple }
{
    let time = read_time(time)?;
    let edge = read_edge(alloc, source, label, target)?;
    let act = read_act(edge, sign)?;
    Ok(Tuple { time, act })
}

/// The insert with an end of its own that six or seven fields give. Whether the end is right counts
/// after all other fields, so it is handed over as it was read.
#[tactic(auto, unfolding(crate::specs::Reading::lasting_of))]
fn read_lasting(
    alloc: Global,
    time: &[u8],
    source: &[u8],
    label: &[u8],
    target: &[u8],
    sign: &[u8],
    until: Result<u64, BadLine>,
) -> Result<Tuple, BadLine>
    requires within { IfOk until (λ end. end ≤ MAX_TIME) }
    ensures ok { IfOk result (λ tuple.
        lasting_of time.now source.now label.now target.now sign.now until ≡ Ok tuple) }
    ensures err { IfErr result (λ bad. bad ≢ BadLine.Memory
        → lasting_of time.now source.now label.now target.now sign.now until ≡ Err bad) }
    ensures plain { IfOk result IsPlainTuple }
{
    let time = read_time(time)?;
    let edge = read_edge(alloc, source, label, target)?;
    let act = read_insert(edge, sign, until)?;
    Ok(Tuple { time, act })
}

/// The time that a field writes.
#[tactic(auto, unfolding(crate::specs::Reading::time_of))]
fn read_time(field: &[u8]) -> Result<u64, BadLine>
    ensures exact { result ≡ time_of field.now }
    ensures within { IfOk result (λ time. time ≤ MAX_TIME) }
{
    match read_number(field, MAX_TIME) {
        Ok(time) => Ok(time),
        Err(NumberFault::NotDigits) => Err(BadLine::Time),
        Err(NumberFault::TooLarge) => Err(BadLine::TimeRange),
    }
}

/// The edge with the names that three fields are, which stand from the second place on. Its label
/// points forwards.
#[tactic(auto, unfolding(crate::specs::Reading::edge_of))]
fn read_edge(alloc: Global, source: &[u8], label: &[u8], target: &[u8]) -> Result<Edge, BadLine>
    ensures ok { IfOk result (λ edge. edge_of source.now label.now target.now ≡ Ok edge) }
    ensures err { IfErr result (λ bad. bad ≢ BadLine.Memory
        → edge_of source.now label.now target.now ≡ Err bad) }
    ensures plain { IfOk result (λ edge. IsPlainLabel edge.label) }
{
    let from = read_name(alloc, 2, source)?;
    let name = read_name(alloc, 3, label)?;
    let to = read_name(alloc, 4, target)?;
    let label = Label { name, back: false };
    Ok(Edge { from, label, to })
}

/// The name that the field at a place is.
#[tactic(auto, unfolding(crate::specs::Reading::name_of))]
fn read_name(alloc: Global, place: u32, field: &[u8]) -> Result<Name, BadLine>
    ensures ok { IfOk result (λ name. name_of place field.now ≡ Ok name) }
    ensures err { IfErr result (λ bad. bad ≢ BadLine.Memory
        → name_of place field.now ≡ Err bad) }
{
    match Name::new(alloc, field) {
        Ok(name) => Ok(name),
        Err(NameFault::Length(_) | NameFault::Byte(_)) => Err(BadLine::BadName(place)),
        Err(NameFault::Memory) => Err(BadLine::Memory),
    }
}

/// What the sign in the fifth field does with an edge.
#[tactic(auto, unfolding(crate::specs::Reading::act_of))]
fn read_act(edge: Edge, sign: &[u8]) -> Result<Act, BadLine>
    requires { IsPlainLabel edge.label }
    ensures exact { result ≡ act_of edge sign.now }
    ensures plain { IfOk result IsPlainAct }
    ensures within { (time : ℕ) → time ≤ MAX_TIME → IfOk result (IsInRange time) }
{
    match sign {
        [b'+'] => Ok(Act::Insert { edge, until: None }),
        [b'-'] => Ok(Act::Delete(edge)),
        _ => Err(BadLine::Op),
    }
}

/// The insert of an edge up to an end, where the sign is one of an insert.
#[tactic(auto, unfolding(crate::specs::Reading::ending_of))]
fn read_insert(edge: Edge, sign: &[u8], until: Result<u64, BadLine>) -> Result<Act, BadLine>
    requires plain { IsPlainLabel edge.label }
    requires end { IfOk until (λ end. end ≤ MAX_TIME) }
    ensures exact { result ≡ ending_of edge sign.now until }
    ensures plain { IfOk result IsPlainAct }
    ensures within { (time : ℕ) → time ≤ MAX_TIME → IfOk result (IsInRange time) }
{
    match sign {
        [b'+'] => Ok(Act::Insert {
            edge,
            until: Some(until?),
        }),
        _ => Err(BadLine::Op),
    }
}

/// The end that the word `until` and a field of digits give.
#[tactic(auto, unfolding(crate::specs::Reading::end_of))]
fn read_end(word: &[u8], field: &[u8]) -> Result<u64, BadLine>
    ensures exact { result ≡ end_of word.now field.now }
    ensures within { IfOk result (λ end. end ≤ MAX_TIME) }
{
    if word != b"until".as_slice() {
        return Err(BadLine::Until);
    }
    match read_number(field, MAX_TIME) {
        Ok(end) => Ok(end),
        Err(_) => Err(BadLine::Until),
    }
}
