//! Lines, fields, numbers, names and tuples.

ghost use Rattle.rpq_base.specs.Plain.{IsPlainTuple};

use case_lines::{Fields, Output, decoded};
use rpq_base::{Name, Tuple};
use std::alloc::Global;
use std::cmp::Ordering;
use text_parts::{
    fields, is_blank_line, is_comment, line_length, push_decimal, read_number, split_line,
    without_return,
};
use tuple_text::{read_tuple, write_tuple};

/// What a line of a stream gives.
pub fn answer_tuple(alloc: Global, out: &mut Output, of: Fields) -> anyhow::Result<()> {
    let line = decoded(alloc, of.rest())?;
    match read_tuple(alloc, &line) {
        Ok(Some(tuple)) => put_tuple(alloc, out, &tuple),
        Ok(None) => out.put("nothing"),
        Err(fault) => out.put_shown(&fault),
    }
}

fn put_tuple(alloc: Global, out: &mut Output, tuple: &Tuple) -> anyhow::Result<()>
    requires { IsPlainTuple tuple.now }
{
    let text = write_tuple(alloc, tuple)?;
    out.put_bytes(&text)
}

/// The lines of a text.
pub fn answer_line(alloc: Global, out: &mut Output, of: Fields) -> anyhow::Result<()> {
    let text = decoded(alloc, of.rest())?;
    put_lines(out, &text)
}

fn put_lines(out: &mut Output, text: &[u8]) -> anyhow::Result<()> {
    let mut rest = text;
    while let Some((line, after)) = split_line(rest) {
        out.put_bytes(without_return(line))?;
        out.put("|")?;
        rest = after;
    }
    Ok(())
}

/// The length of the first line of a text.
pub fn answer_length(alloc: Global, out: &mut Output, of: Fields) -> anyhow::Result<()> {
    let text = decoded(alloc, of.rest())?;
    out.put_shown(&line_length(&text))
}

/// The fields of a line.
pub fn answer_fields(alloc: Global, out: &mut Output, of: Fields) -> anyhow::Result<()> {
    let line = decoded(alloc, of.rest())?;
    let found = fields(alloc, &line)?;
    put_fields(out, &found)
}

fn put_fields(out: &mut Output, fields: &[&[u8]]) -> anyhow::Result<()> {
    for field in fields {
        out.put_bytes(field)?;
        out.put("|")?;
    }
    Ok(())
}

/// Whether a line gives nothing.
pub fn answer_kind(alloc: Global, out: &mut Output, of: Fields) -> anyhow::Result<()> {
    let line = decoded(alloc, of.rest())?;
    out.put(match (is_blank_line(&line), is_comment(&line)) {
        (true, false) => "blank",
        (false, true) => "comment",
        (false, false) => "neither",
        (true, true) => "both",
    })
}

/// The number that a text writes.
pub fn answer_number(alloc: Global, out: &mut Output, mut of: Fields) -> anyhow::Result<()> {
    let most = of.number();
    let text = decoded(alloc, of.rest())?;
    match read_number(&text, most) {
        Ok(number) => put_number(alloc, out, number),
        Err(fault) => out.put_shown(&fault),
    }
}

fn put_number(alloc: Global, out: &mut Output, number: u64) -> anyhow::Result<()> {
    let mut digits = Vec::new(alloc);
    push_decimal(&mut digits, number)?;
    out.put_bytes(&digits)
}

/// The name that bytes are.
pub fn answer_name(alloc: Global, out: &mut Output, of: Fields) -> anyhow::Result<()> {
    let bytes = decoded(alloc, of.rest())?;
    match Name::new(alloc, &bytes) {
        Ok(name) => out.put_bytes(name.as_bytes()),
        Err(fault) => out.put_shown(&fault),
    }
}

/// The name that a part of a request is.
pub fn name_of(alloc: Global, part: &[u8]) -> anyhow::Result<Name> {
    let bytes = decoded(alloc, part)?;
    Ok(Name::new(alloc, &bytes)?)
}

/// How two names compare.
pub fn answer_order(alloc: Global, out: &mut Output, mut of: Fields) -> anyhow::Result<()> {
    let first = name_of(alloc, of.next())?;
    let second = name_of(alloc, of.next())?;
    out.put(match first.cmp(&second) {
        Ordering::Less => "less",
        Ordering::Equal => "equal",
        Ordering::Greater => "greater",
    })
}
