// Lines that are answered one after another, as they come in pieces.
ghost use Rattle.std.specs.Prelude.{◌≡◌, ◌≤◌, ℕ, List, [], ◌++◌, true, false, length, Err, IsTrue, OnOk, OnErr, IfErr, MatchOption};
ghost use Rattle.std.specs.Io.KnownBytes.{Appends};
ghost use Rattle.std.specs.Option.{option_map};
ghost use Rattle.std.specs.List.{list_any};
ghost use Rattle.gds_causes.specs.Faults.{Rose};
ghost use Rattle.desk_model.specs.Replies.{plain_reply, Refused};
ghost use Rattle.desk_core.specs.Fields.{state_of};
ghost use Rattle.call_codec.specs.Answers.{line_answer};
ghost use Rattle.call_codec.specs.Lines.{asked_by_line, is_lf, line_items, most_line_bytes, rest_of};
ghost use Rattle.gds_session.specs.declared.degrees.WriteStop.TheVariants as stop;
ghost use Rattle.gds_session.specs.Serving.{Halts, HaltsPiece, IsCut, IsPending, Serves, ServesPiece, TookFront, asks_with, moment, stopped_by};

use crate::degrees::WriteStop;
use crate::once::place_of;
use crate::performing::perform;
use call_codec::{is_blank, line_write};
use desk_core::{Desk, Reply};
use gds_causes::{Failed, Sink};
use graph_model::{LongPart, Mem, Refusal};
use std::alloc::Global;
use store_keeper::Keeper;

const MOST_LINE_BYTES: usize = 16_777_216;

/// The front of a line that isn't whole yet: its bytes, or only that there are too many.
#[derive(Drop)]
pub(crate) struct Pending {
    pub(crate) bytes: Vec<u8>,
    pub(crate) long: bool,
}

impl Pending {
    /// Nothing has come of the next line. It takes no memory.
    pub(crate) fn new(alloc: Global) -> Pending
        ensures bytes { result.bytes.items ≡ [] }
        ensures long { result.long ≡ false }
    {
        Pending {
            bytes: Vec::new(alloc),
            long: false,
        }
    }

    /// Nothing has come of the next line.
    fn clear(&mut self)
        ensures bytes { self.new.bytes.items ≡ [] }
        ensures long { self.new.long ≡ false }
    {
        self.bytes.clear();
        self.long = false;
    }

    /// Whether nothing has come of the next line.
    fn is_fresh(&self) -> bool
        ensures long { IsTrue result → self.now.long ≡ false }
        ensures bytes { IsTrue result → self.now.bytes.items ≡ [] }
    {
        !self.long && self.bytes.is_empty()
    }

    /// Keeps some more bytes of the line.
    ///
    /// # Errors
    /// `Mem` where there is no memory for them.
    fn keep(&mut self, tail: &[u8]) -> Result<(), Mem>
        ensures ok { OnOk result ((waiting : List ℕ) → IsPending self.old.long self.old.bytes.items waiting → IsPending self.new.long self.new.bytes.items (waiting ++ tail.now)) }
        ensures long { OnOk result (self.old.long ≡ true → self.new.long ≡ true) }
        ensures within { OnOk result (self.new.long ≡ false → length self.new.bytes.items ≤ most_line_bytes) }
    {
        if self.long {
            return Ok(());
        }
        if tail.len() > MOST_LINE_BYTES || self.bytes.len() > MOST_LINE_BYTES - tail.len() {
            self.long = true;
            self.bytes.clear();
            return Ok(());
        }
        self.bytes.extend_from_slice(tail)?;
        Ok(())
    }
}

/// Writes the answer to a reply and an LF, and flushes.
fn answer<W: Sink>(sink: &mut W, reply: &Reply) -> Result<(), Failed>
    ensures ok { OnOk result (Appends (W.taken sink.old) (W.taken sink.new) (line_answer (plain_reply reply.now))) }
    ensures err { OnErr result (TookFront (W.taken sink.old) (W.taken sink.new) (line_answer (plain_reply reply.now))) }
    ensures fault { OnErr result (Rose (W.faults sink.old) (W.faults sink.new)) }
    ensures calm { OnOk result (W.faults sink.new ≡ W.faults sink.old) }
    ensures flushed { OnOk result (W.flushed sink.new ≡ option_map length (W.taken sink.new)) }
    ensures later { W.faults sink.old ≤ W.faults sink.new }
{
    line_write(reply, sink)?;
    sink.flush()
}

/// Answers with a reply, which is gone then.
fn answer_with<W: Sink>(sink: &mut W, reply: Reply) -> Result<(), Failed>
    ensures ok { OnOk result (Appends (W.taken sink.old) (W.taken sink.new) (line_answer (plain_reply reply))) }
    ensures err { OnErr result (TookFront (W.taken sink.old) (W.taken sink.new) (line_answer (plain_reply reply))) }
    ensures fault { OnErr result (Rose (W.faults sink.old) (W.faults sink.new)) }
    ensures calm { OnOk result (W.faults sink.new ≡ W.faults sink.old) }
    ensures flushed { OnOk result (W.flushed sink.new ≡ option_map length (W.taken sink.new)) }
    ensures later { W.faults sink.old ≤ W.faults sink.new }
{
    let answered = answer(sink, &reply);
    drop(reply);
    answered
}

/// Answers a line that is whole and not too long.
fn serve_line<W: Sink, K: Keeper>(
    alloc: Global,
    sink: &mut W,
    desk: &mut Desk<K>,
    line: &[u8],
) -> Result<(), Failed>
    requires { length line.now ≤ most_line_bytes }
    ensures ok { OnOk result (Serves (asked_by_line line.now)
        (moment (state_of desk.old) (K.faults desk.old.keeper) (W.taken sink.old) (W.flushed sink.old) (W.faults sink.old))
        (moment (state_of desk.new) (K.faults desk.new.keeper) (W.taken sink.new) (W.flushed sink.new) (W.faults sink.new))) }
    ensures err { OnErr result (Halts stop.Fault (asked_by_line line.now)
        (moment (state_of desk.old) (K.faults desk.old.keeper) (W.taken sink.old) (W.flushed sink.old) (W.faults sink.old))
        (moment (state_of desk.new) (K.faults desk.new.keeper) (W.taken sink.new) (W.flushed sink.new) (W.faults sink.new))) }
    ensures fault { OnErr result (Rose (W.faults sink.old) (W.faults sink.new)) }
    ensures calm { OnOk result (W.faults sink.new ≡ W.faults sink.old) }
    ensures path { K.path desk.new.keeper ≡ K.path desk.old.keeper }
    ensures later { W.faults sink.old ≤ W.faults sink.new }
{
    if is_blank(line) {
        return Ok(());
    }
    let reply = perform(alloc, desk, line);
    answer_with(sink, reply)
}

/// A failed write as a stop.
fn stop_of(written: Result<(), Failed>) -> Result<(), WriteStop>
    ensures { result ≡ stopped_by written }
{
    match written {
        Ok(()) => Ok(()),
        Err(Failed) => Err(WriteStop::Fault),
    }
}

/// Answers a line of which these bytes are the tail.
pub(crate) fn serve_whole<W: Sink, K: Keeper>(
    alloc: Global,
    sink: &mut W,
    desk: &mut Desk<K>,
    pending: &mut Pending,
    tail: &[u8],
) -> Result<(), WriteStop>
    ensures ok { OnOk result (Serves (asks_with pending.old.long pending.old.bytes.items tail.now)
        (moment (state_of desk.old) (K.faults desk.old.keeper) (W.taken sink.old) (W.flushed sink.old) (W.faults sink.old))
        (moment (state_of desk.new) (K.faults desk.new.keeper) (W.taken sink.new) (W.flushed sink.new) (W.faults sink.new))) }
    ensures err { IfErr result (λ why. Halts why (asks_with pending.old.long pending.old.bytes.items tail.now)
        (moment (state_of desk.old) (K.faults desk.old.keeper) (W.taken sink.old) (W.flushed sink.old) (W.faults sink.old))
        (moment (state_of desk.new) (K.faults desk.new.keeper) (W.taken sink.new) (W.flushed sink.new) (W.faults sink.new))) }
    ensures bytes { OnOk result (pending.new.bytes.items ≡ []) }
    ensures long { OnOk result (pending.new.long ≡ false) }
    ensures fault { result ≡ Err WriteStop.Fault → Rose (W.faults sink.old) (W.faults sink.new) }
    ensures path { K.path desk.new.keeper ≡ K.path desk.old.keeper }
    ensures later { W.faults sink.old ≤ W.faults sink.new }
{
    if pending.is_fresh() && tail.len() <= MOST_LINE_BYTES {
        return stop_of(serve_line(alloc, sink, desk, tail));
    }
    if pending.keep(tail).is_err() {
        return Err(WriteStop::OutOfMemory);
    }
    if pending.long {
        pending.clear();
        return stop_of(answer_with(sink, too_long()));
    }
    let served = serve_line(alloc, sink, desk, pending.bytes.as_slice());
    pending.clear();
    stop_of(served)
}

/// What a line that is too long is answered with.
fn too_long() -> Reply
    ensures { plain_reply result ≡ Refused (Refusal.TooLong LongPart.Line most_line_bytes) }
{
    Reply::Refused(Refusal::TooLong {
        what: LongPart::Line,
        limit: MOST_LINE_BYTES as u64,
    })
}

/// What stands before the first LF, and what stands behind it.
fn cut_line(bytes: &[u8]) -> Option<(&[u8], &[u8])>
    ensures { MatchOption result (list_any is_lf bytes.now ≡ false) (λ parts. IsCut bytes.now parts.0.now parts.1.now) }
{
    let (line, from) = bytes.split_at(place_of(b'\n', bytes));
    match from.split_first() {
        Some((_, behind)) => Some((line, behind)),
        None => None,
    }
}

/// Answers the lines that a piece makes whole, and keeps the rest of it.
pub(crate) fn serve_piece<W: Sink, K: Keeper>(
    alloc: Global,
    sink: &mut W,
    desk: &mut Desk<K>,
    pending: &mut Pending,
    piece: &[u8],
) -> Result<(), WriteStop>
    ensures ok { OnOk result (ServesPiece pending.old.long pending.old.bytes.items piece.now pending.new.long pending.new.bytes.items
        (moment (state_of desk.old) (K.faults desk.old.keeper) (W.taken sink.old) (W.flushed sink.old) (W.faults sink.old))
        (moment (state_of desk.new) (K.faults desk.new.keeper) (W.taken sink.new) (W.flushed sink.new) (W.faults sink.new))) }
    ensures err { IfErr result (λ why. HaltsPiece why pending.old.long pending.old.bytes.items piece.now
        (moment (state_of desk.old) (K.faults desk.old.keeper) (W.taken sink.old) (W.flushed sink.old) (W.faults sink.old))
        (moment (state_of desk.new) (K.faults desk.new.keeper) (W.taken sink.new) (W.flushed sink.new) (W.faults sink.new))) }
    ensures fault { result ≡ Err WriteStop.Fault → Rose (W.faults sink.old) (W.faults sink.new) }
    ensures path { K.path desk.new.keeper ≡ K.path desk.old.keeper }
    ensures later { W.faults sink.old ≤ W.faults sink.new }
{
    let mut rest = piece;
    while let Some((tail, behind)) = cut_line(rest) {
        match serve_whole(alloc, sink, desk, pending, tail) {
            Ok(()) => {}
            Err(why) => return Err(why),
        }
        rest = behind;
    }
    match pending.keep(rest) {
        Ok(()) => Ok(()),
        Err(Mem) => Err(WriteStop::OutOfMemory),
    }
}
