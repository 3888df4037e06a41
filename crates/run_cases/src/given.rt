//! What a run is given.

/// What a run is given: no more than bytes and numbers. A call that fails is told by its number
/// among those of its kind, counted from 1, and 0 is none.
#[derive(Clone, Copy)]
pub struct RunInput<'a> {
    /// The words, as a field has them, the program's name first.
    pub words: &'a [u8],
    pub texts: Texts<'a>,
    pub sizes: Sizes,
    pub faults: Faults<'a>,
    /// Whether a tally of all events is among the objects.
    pub is_counted: bool,
}

/// The files of a run, each under the name that its part has here, as fields have their bytes. One
/// without bytes isn't there.
#[derive(Clone, Copy)]
pub struct Texts<'a> {
    pub q: Option<&'a [u8]>,
    pub a: Option<&'a [u8]>,
    pub s: Option<&'a [u8]>,
    pub t: Option<&'a [u8]>,
    pub u: Option<&'a [u8]>,
    pub w: Option<&'a [u8]>,
}

/// How many bytes a call takes at most, and how many a sink in all.
#[derive(Clone, Copy)]
pub struct Sizes {
    pub read: usize,
    pub write: usize,
    /// Of the events.
    pub events: usize,
    /// Of each other sink.
    pub others: usize,
}

/// The calls that fail.
#[derive(Clone, Copy)]
pub struct Faults<'a> {
    pub opening: u64,
    /// The name of the file of which a read fails.
    pub file: &'a [u8],
    pub read: u64,
    /// Of the writes of the events.
    pub event: u64,
    /// Of the writes of each sink that the run opens.
    pub opened: u64,
    /// Of the writes of the errors.
    pub error: u64,
}

impl<'a> Texts<'a> {
    /// No files.
    pub fn none() -> Texts<'a> {
        Texts {
            q: None,
            a: None,
            s: None,
            t: None,
            u: None,
            w: None,
        }
    }
}

impl Sizes {
    /// Calls of this many bytes, and this room in each sink.
    pub fn of(piece: usize, room: usize) -> Sizes {
        Sizes {
            read: piece,
            write: piece,
            events: room,
            others: room,
        }
    }
}

impl<'a> Faults<'a> {
    /// No call fails.
    pub fn none() -> Faults<'a> {
        Faults {
            opening: 0,
            file: &[],
            read: 0,
            event: 0,
            opened: 0,
            error: 0,
        }
    }

    /// The read of the file of this name that fails, or 0.
    pub fn read_of(&self, name: &str) -> u64 {
        if self.file == name.as_bytes() {
            self.read
        } else {
            0
        }
    }
}
