// What the head of a script says of its streams.
use crate::expand::read_number;
use crate::outcome::Streams;
use crate::stop::Stop;
use std::alloc::Global;

/// How much may be read and written, and in which pieces.
#[derive(Clone, Copy, Debug, PartialEq, Eq)]
pub(crate) struct Limits {
    piece: u64,
    room: Option<u64>,
    budget: u64,
}

impl Limits {
    /// Pieces of 64 bytes, and room and budget for all.
    pub(crate) fn new() -> Limits {
        Limits {
            piece: 64,
            room: None,
            budget: 1 << 40,
        }
    }

    /// Whether the sink has room for more than is wanted.
    pub(crate) fn has_room(&self) -> bool {
        self.room.is_none()
    }

    /// Takes the number of a line of the head; answers whether there is such a line.
    pub(crate) fn take(&mut self, sign: &str, number: u64) -> bool {
        if sign == "piece" {
            self.piece = number;
        } else if sign == "room" {
            self.room = Some(number);
        } else if sign == "budget" {
            self.budget = number;
        } else {
            return false;
        }
        true
    }
}

/// The numbers of the calls that fail, counted from 1.
#[derive(Drop)]
pub(crate) struct Fails {
    reads: Vec<u64>,
    writes: Vec<u64>,
    flushes: Vec<u64>,
    commits: Vec<u64>,
    opens: Vec<u64>,
}

impl Fails {
    /// No call fails.
    pub(crate) fn new(alloc: Global) -> Fails {
        Fails {
            reads: Vec::new(alloc),
            writes: Vec::new(alloc),
            flushes: Vec::new(alloc),
            commits: Vec::new(alloc),
            opens: Vec::new(alloc),
        }
    }

    /// Whether no call fails.
    pub(crate) fn is_empty(&self) -> bool {
        self.reads.is_empty()
            && self.writes.is_empty()
            && self.flushes.is_empty()
            && self.commits.is_empty()
            && self.opens.is_empty()
    }

    /// Takes the numbers of a line of the head.
    pub(crate) fn take(&mut self, sign: &str, numbers: Vec<u64>) {
        if sign == "reads" {
            self.reads = numbers;
        } else if sign == "writes" {
            self.writes = numbers;
        } else if sign == "flushes" {
            self.flushes = numbers;
        } else if sign == "commits" {
            self.commits = numbers;
        } else {
            self.opens = numbers;
        }
    }
}

/// Whether a line of the head lists calls that fail.
pub(crate) fn lists_calls(sign: &str) -> bool {
    ["reads", "writes", "flushes", "commits", "opens"].contains(&sign)
}

/// The streams that a head says: `room` is that of a sink for which it says none.
pub(crate) fn streams_of<'a>(
    limits: &Limits,
    fails: &'a Fails,
    opener: Option<&'a [u8]>,
    room: usize,
) -> Streams<'a> {
    Streams {
        piece: limits.piece as usize,
        room: match limits.room {
            Some(room) => room as usize,
            None => room,
        },
        budget: limits.budget,
        opener,
        reads: fails.reads.as_slice(),
        writes: fails.writes.as_slice(),
        flushes: fails.flushes.as_slice(),
        commits: fails.commits.as_slice(),
        opens: fails.opens.as_slice(),
    }
}

/// The decimal numbers of a text, with blanks between them.
pub(crate) fn read_numbers(alloc: Global, text: &str) -> Result<Vec<u64>, Stop> {
    let mut numbers = Vec::new(alloc);
    for digits in text.split_whitespace() {
        numbers.push(read_number(digits)?)?;
    }
    Ok(numbers)
}
