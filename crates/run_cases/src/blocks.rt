//! The text of a history, by the evaluation from scratch.

use plain_evaluator::{changes, plain_answers};
use query_file::Compiled;
use rpq_base::{Act, Edge, Entry, Event, Name, Tuple};
use rpq_model::QueryDef;
use std::alloc::{AllocError, Global};
use text_parts::push_decimal;

/// The text of some blocks, and how many events they have that gain a pair, and that lose one.
#[derive(Drop)]
pub struct WrittenBlocks {
    pub text: Vec<u8>,
    pub added: u64,
    pub retracted: u64,
}

/// The text of a history for some queries, and the events of those of its blocks that end among the
/// first `written` bytes.
pub fn blocks_of(
    alloc: Global,
    queries: &[Compiled],
    history: &[Entry],
    written: usize,
) -> anyhow::Result<WrittenBlocks> {
    let mut blocks = WrittenBlocks::new(alloc);
    for count in 1..=history.len() {
        let block = last_block(alloc, queries, &history[..count])?;
        blocks.put_block(&block, written)?;
    }
    Ok(blocks)
}

/// The block of the last of some entries.
fn last_block(
    alloc: Global,
    queries: &[Compiled],
    entries: &[Entry],
) -> anyhow::Result<WrittenBlocks> {
    let mut block = WrittenBlocks::new(alloc);
    if let Some((last, before)) = entries.split_last() {
        block.put_entry(entries.len() as u64, last)?;
        for query in queries {
            block.put_changes(alloc, &query.def, before, entries)?;
        }
    }
    Ok(block)
}

impl WrittenBlocks {
    /// No block.
    fn new(alloc: Global) -> WrittenBlocks {
        WrittenBlocks {
            text: Vec::new(alloc),
            added: 0,
            retracted: 0,
        }
    }

    /// Puts a block behind these. Its events count where it ends among the first `written` bytes.
    fn put_block(&mut self, block: &WrittenBlocks, written: usize) -> Result<(), AllocError> {
        self.text.extend_from_slice(&block.text)?;
        if self.text.len() <= written {
            self.added = self.added.saturating_add(block.added);
            self.retracted = self.retracted.saturating_add(block.retracted);
        }
        Ok(())
    }

    /// Puts the line of the entry at this position.
    fn put_entry(&mut self, position: u64, entry: &Entry) -> Result<(), AllocError> {
        self.text.push(b'@')?;
        push_decimal(&mut self.text, position)?;
        self.text.push(b' ')?;
        push_decimal(&mut self.text, entry.stream as u64)?;
        self.text.push(b' ')?;
        put_tuple(&mut self.text, &entry.tuple)?;
        self.text.extend_from_slice(b"\n")
    }

    /// Puts the lines of what changes of a query's answers from some entries to others.
    fn put_changes(
        &mut self,
        alloc: Global,
        query: &QueryDef,
        before: &[Entry],
        after: &[Entry],
    ) -> anyhow::Result<()> {
        let old = plain_answers(alloc, query, before)?;
        let new = plain_answers(alloc, query, after)?;
        for event in &changes(alloc, 0, &old, &new)? {
            self.put_event(&query.name, event)?;
        }
        Ok(())
    }

    /// Puts the line of an event of the query with this name.
    fn put_event(&mut self, name: &Name, event: &Event) -> Result<(), AllocError> {
        if event.added {
            self.added = self.added.saturating_add(1);
            self.text.push(b'+')?;
        } else {
            self.retracted = self.retracted.saturating_add(1);
            self.text.push(b'-')?;
        }
        put_word(&mut self.text, name)?;
        put_word(&mut self.text, &event.pair.from)?;
        put_word(&mut self.text, &event.pair.to)?;
        self.text.extend_from_slice(b"\n")
    }
}

/// Puts a tuple as it is written.
fn put_tuple(text: &mut Vec<u8>, tuple: &Tuple) -> Result<(), AllocError> {
    push_decimal(text, tuple.time)?;
    match &tuple.act {
        Act::Insert { edge, until } => {
            put_edge(text, edge, b" +")?;
            put_end(text, *until)
        }
        Act::Delete(edge) => put_edge(text, edge, b" -"),
        Act::Tick => Ok(()),
    }
}

/// Puts an edge with the sign of an insert or a delete.
fn put_edge(text: &mut Vec<u8>, edge: &Edge, sign: &[u8]) -> Result<(), AllocError> {
    put_word(text, &edge.from)?;
    put_word(text, &edge.label.name)?;
    put_word(text, &edge.to)?;
    text.extend_from_slice(sign)
}

/// Puts the end of its own that an insert has, if it has one.
fn put_end(text: &mut Vec<u8>, until: Option<u64>) -> Result<(), AllocError> {
    if let Some(end) = until {
        text.extend_from_slice(b" until ")?;
        push_decimal(text, end)?;
    }
    Ok(())
}

/// Puts a space and a name.
fn put_word(text: &mut Vec<u8>, name: &Name) -> Result<(), AllocError> {
    text.push(b' ')?;
    text.extend_from_slice(name.as_bytes())
}
