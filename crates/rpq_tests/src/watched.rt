//! Sources that wait for what a run does.

use std::hint::spin_loop;
use std::io;
use std::io::{ErrorKind, Read};
use std::sync::atomic::AtomicU64;
use std::sync::atomic::Ordering::SeqCst;

/// For how many turns one waits for another.
const TURNS: u32 = 10_000_000;

/// Whether the count comes to one within so many turns.
pub fn has_come(count: &AtomicU64) -> bool {
    for _ in 0..TURNS {
        if count.load(SeqCst) >= 1 {
            return true;
        }
        spin_loop();
    }
    false
}

/// Gives one text and then another, and the second only once a count comes to one.
#[derive(Drop)]
pub struct WatchedSource<'a> {
    pub first: &'a str,
    pub second: &'a str,
    pub awaited: &'a AtomicU64,
    pub calls: u8,
}

impl<'a> Read for WatchedSource<'a> {
    fn read(&mut self, buf: &mut [u8]) -> io::Result<usize> {
        self.calls = self.calls.saturating_add(1);
        let text = match self.calls {
            1 => self.first,
            2 if self.second.is_empty() => "",
            2 if has_come(self.awaited) => self.second,
            2 => return Err(io::Error::from(ErrorKind::Other)),
            _ => "",
        };
        let count = text.len().min(buf.len());
        buf[..count].copy_from_slice(&text.as_bytes()[..count]);
        Ok(count)
    }
}
