// A script: how its streams behave, what is asked, and what should be answered.
use crate::expand::{expand, read_number};
use crate::head::{Fails, Limits, lists_calls, read_numbers, streams_of};
use crate::outcome::{Asking, Streams};
use crate::stop::Stop;
use gds_session::End;
use graph_model::List;
use std::alloc::Global;

/// As many bytes as a script may ask that is tried in other pieces and with faults.
const MOST_SMALL: usize = 4096;

/// Bytes that a sink takes beyond those that are wanted, so that a wrong answer is seen.
const SPARE_ROOM: usize = 4096;

/// A line that is answered: where it starts, and where it is whole. The last line is whole behind all bytes where no LF
/// ends it.
#[derive(Clone, Copy, Debug, PartialEq, Eq)]
pub(crate) struct Asked {
    pub(crate) start: usize,
    pub(crate) end: usize,
}

/// A script. It is read line by line:
///
///     # a comment; empty lines are passed over too
///     script NAME
///     words once degree      the words of `run`; without this line the script goes to `shell`
///     piece 64               as many bytes a read gives, and a write takes, at most
///     room 100               as many bytes the sink takes; without this line more than are wanted
///     budget 100             as many bytes may be read
///     reads 2 3              the reads that fail, counted from 1; so `writes`, `flushes` and `commits`
///     opener PATH            each desk has a keeper from an opener, of this path, or of none where none stands here
///     opens 1 3              the openings that fail; `commits` are then those of the opener's first keeper
///     > LINE                 a line that is answered; `>9` asks it nine times, `>.` leaves its LF out
///     - LINE                 a line that isn't answered, in the same forms
///     < ANSWER               an answer; `<9` stands for nine
///     restart                the desk ends, and its keeper begins another one for the lines below; with an opener the
///                            keeper goes back to it, and another one is opened
///     unopened               the opening for the lines above failed, and none of them is read
///     end Done               how it ends; the script is whole
#[derive(Drop)]
pub(crate) struct Script {
    pub(crate) name: String,
    is_command: bool,
    words: List<List<u8>>,
    limits: Limits,
    fails: Fails,
    opener: Option<String>,
    pub(crate) asked: Vec<u8>,
    parts: Vec<usize>,
    pub(crate) unopened: Vec<u64>,
    pub(crate) lines: Vec<Asked>,
    pub(crate) wanted: Vec<u8>,
    answers: u64,
    pub(crate) end: End,
}

impl Script {
    /// A script of which no line came yet.
    pub(crate) fn new(alloc: Global) -> Script {
        Script {
            name: String::new(alloc),
            is_command: false,
            words: List::new(alloc),
            limits: Limits::new(),
            fails: Fails::new(alloc),
            opener: None,
            asked: Vec::new(alloc),
            parts: Vec::new(alloc),
            unopened: Vec::new(alloc),
            lines: Vec::new(alloc),
            wanted: Vec::new(alloc),
            answers: 0,
            end: End::Done,
        }
    }

    /// How many answers are wanted.
    pub(crate) fn answers(&self) -> u64 {
        self.answers
    }

    /// Whether it is tried in other pieces and with faults: it asks little of one desk, its streams don't fail, and they
    /// have room.
    pub(crate) fn is_small_and_calm(&self) -> bool {
        self.asked.len() <= MOST_SMALL
            && self.parts.len() <= 1
            && self.limits.has_room()
            && self.end != End::Spent
            && self.fails.is_empty()
    }

    /// The streams as the script says.
    pub(crate) fn streams(&self) -> Streams<'_> {
        let opener = match &self.opener {
            Some(path) => Some(path.as_bytes()),
            None => None,
        };
        let room = self.wanted.len().saturating_add(SPARE_ROOM);
        streams_of(&self.limits, &self.fails, opener, room)
    }

    /// Whether it goes to `run`.
    pub(crate) fn is_command(&self) -> bool {
        self.is_command
    }

    /// What is asked.
    pub(crate) fn asking(&self) -> Asking<'_> {
        Asking {
            is_command: self.is_command,
            words: &self.words,
            bytes: self.asked.as_slice(),
            parts: self.parts.as_slice(),
        }
    }

    // Ends a part of what is asked.
    fn end_part(&mut self) -> Result<(), Stop> {
        let before = self
            .parts
            .iter()
            .fold(0usize, |sum, part| sum.saturating_add(*part));
        self.parts.push(self.asked.len().saturating_sub(before))?;
        Ok(())
    }

    /// Takes a line of the script, and answers whether the script is whole.
    pub(crate) fn take_line(&mut self, alloc: Global, line: &str) -> Result<bool, Stop> {
        if line.is_empty() || line.starts_with("#") {
            return Ok(false);
        }
        let (sign, rest) = line.split_once(" ").unwrap_or((line, ""));
        if sign == "end" {
            self.end = read_end(rest)?;
            self.end_part()?;
            return Ok(true);
        }
        if let Some(count) = sign.strip_prefix(">") {
            self.ask(alloc, count, rest, true)?;
        } else if let Some(count) = sign.strip_prefix("-") {
            self.ask(alloc, count, rest, false)?;
        } else if let Some(count) = sign.strip_prefix("<") {
            self.want(alloc, count, rest)?;
        } else {
            self.take_head(alloc, sign, rest)?;
        }
        Ok(false)
    }

    // Takes a line of the head, or one between parts.
    fn take_head(&mut self, alloc: Global, sign: &str, rest: &str) -> Result<(), Stop> {
        if sign == "restart" {
            return self.end_part();
        }
        if sign == "unopened" {
            return self.leave_unopened();
        }
        if lists_calls(sign) {
            let numbers = read_numbers(alloc, rest)?;
            self.fails.take(sign, numbers);
            return Ok(());
        }
        self.take_text(alloc, sign, rest)
    }

    // Notes that the desk for the lines above isn't opened.
    fn leave_unopened(&mut self) -> Result<(), Stop> {
        let number = self.parts.len() as u64;
        self.unopened.push(number.saturating_add(1))?;
        Ok(())
    }

    // Takes the text of a line of the head, or its number.
    fn take_text(&mut self, alloc: Global, sign: &str, rest: &str) -> Result<(), Stop> {
        if sign == "script" {
            self.name = String::from_str(alloc, rest)?;
        } else if sign == "words" {
            self.is_command = true;
            self.words = read_words(alloc, rest)?;
        } else if sign == "opener" {
            self.opener = Some(String::from_str(alloc, rest)?);
        } else if !self.limits.take(sign, read_number(rest)?) {
            return Err(Stop::Script);
        }
        Ok(())
    }

    // Takes a line that is asked, so many times.
    fn ask(&mut self, alloc: Global, count: &str, text: &str, answered: bool) -> Result<(), Stop> {
        let (count, whole) = match count.strip_suffix(".") {
            Some(count) => (count, false),
            None => (count, true),
        };
        for time in 0..read_times(count)? {
            let start = self.asked.len();
            expand(alloc, &mut self.asked, text, time.saturating_add(1))?;
            if whole {
                self.asked.push(b'\n')?;
            }
            let end = self.asked.len().saturating_add(usize::from(!whole));
            if answered {
                self.lines.push(Asked { start, end })?;
            }
        }
        Ok(())
    }

    // Takes an answer that is wanted, so many times.
    fn want(&mut self, alloc: Global, count: &str, text: &str) -> Result<(), Stop> {
        for time in 0..read_times(count)? {
            expand(alloc, &mut self.wanted, text, time.saturating_add(1))?;
            self.wanted.push(b'\n')?;
            self.answers = self.answers.saturating_add(1);
        }
        Ok(())
    }
}

// How often a line stands.
fn read_times(count: &str) -> Result<u64, Stop> {
    if count.is_empty() {
        Ok(1)
    } else {
        read_number(count)
    }
}

fn read_words(alloc: Global, text: &str) -> Result<List<List<u8>>, Stop> {
    let mut words = List::new(alloc);
    for word in text.split_whitespace() {
        words.push(List::from_vec(Vec::from_slice(alloc, word.as_bytes())?))?;
    }
    Ok(words)
}

fn read_end(text: &str) -> Result<End, Stop> {
    if let Some(line) = text.strip_prefix("BadInput ") {
        return Ok(End::BadInput {
            line: read_number(line)?,
        });
    }
    match text {
        "Done" => Ok(End::Done),
        "BadWords" => Ok(End::BadWords),
        "ReadFault" => Ok(End::ReadFault),
        "WriteFault" => Ok(End::WriteFault),
        "Spent" => Ok(End::Spent),
        _ => Err(Stop::Script),
    }
}
