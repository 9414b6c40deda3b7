// A sink in memory that takes pieces and fails where it is told to.
ghost use Rattle.std.specs.Prelude.{◌≡◌, ℕ, List, [], Some, Ok, ◌<◌, ◌≤◌, length, IfOk, OnOk, OnErr};
ghost use Rattle.std.specs.Io.KnownBytes.{Keeps, WriteAppends};
ghost use Rattle.gds_causes.specs.Faults.{Rose};
ghost use Rattle.gds_causes.specs.MemSink.{write_answer, sink_after_write};

use crate::memory::Mem;
use crate::traits::{Failed, Sink};
use std::alloc::Global;
use std::marker::Model;

/// Takes bytes into memory, in pieces, as far as its room goes. Writes are numbered from 1, and chosen ones fail.
///
/// The number of a write and the count of faults stand still at the greatest u64.
#[derive(Debug, Drop)]
pub struct MemSink {
    bytes: Vec<u8>,
    flushed: usize,
    room: usize,
    piece: usize,
    fails: Vec<u64>,
    calls: u64,
    faults: u64,
}

impl Model for MemSink {
    ghost use Rattle.std.specs.Prelude.{ℕ, ◌+◌, ◌<◌, ◌≤◌, vec_len, vec_capacity};
    ghost use Rattle.gds_causes.specs.MemSink.{SinkState};

    ghost Value = { SinkState };

    ghost view = { λ sink. record {
      taken = sink.bytes.items;
      flushed = sink.flushed;
      room = sink.room;
      piece = sink.piece;
      fails = sink.fails.items;
      calls = sink.calls;
      faults = sink.faults;
    } };

    ghost invariant = { λ sink. (vec_len sink.bytes + sink.room ≤ vec_capacity sink.bytes) × (0 < sink.piece) };
}

impl MemSink {
    /// A sink with `room` for so many bytes that takes at most `piece` of them per write, which is at least 1. The
    /// writes whose numbers `fails` lists fail. It takes its memory here, and none later.
    ///
    /// # Errors
    /// `Mem` where there is no memory for the room.
    pub fn new(alloc: Global, room: usize, piece: usize, fails: Vec<u64>) -> Result<MemSink, Mem>
        requires { 0 < piece }
        ensures { IfOk result (λ sink. sink ≡ record { taken = []; flushed = 0; room = room; piece = piece; fails = fails.items; calls = 0; faults = 0 }) }
    {
        Ok(MemSink {
            bytes: Vec::with_capacity(alloc, room)?,
            flushed: 0,
            room,
            piece,
            fails,
            calls: 0,
            faults: 0,
        })
    }

    /// The bytes that were taken, in order.
    pub fn bytes(&self) -> &[u8]
        ensures { result.now ≡ self.now.taken }
    {
        self.bytes.as_slice()
    }

    /// How many of them were flushed.
    pub fn flushed(&self) -> usize
        ensures { result ≡ self.now.flushed }
    {
        self.flushed
    }

    /// How many writes failed.
    pub fn faults(&self) -> u64
        ensures { result ≡ self.now.faults }
    {
        self.faults
    }
}

impl Sink for MemSink {
    ghost taken = { λ sink. Some sink.taken };

    ghost flushed = { λ sink. Some sink.flushed };

    ghost faults = { λ sink. sink.faults };

    /// Takes a front of `from`, as much as the piece and the room that is left allow.
    ///
    /// # Errors
    /// `Failed` exactly where the number of this write is listed, or `from` isn't empty and no room is left.
    fn write(&mut self, from: &[u8]) -> Result<usize, Failed>
        ensures answer { result ≡ write_answer self.old (length from.now) }
        ensures next { self.new ≡ sink_after_write self.old from.now }
        ensures bound { IfOk result (λ n. n ≤ length from.now) }
        ensures progress { IfOk result (λ n. 0 < length from.now → 0 < n) }
        ensures bytes { WriteAppends (Some self.old.taken) (Some self.new.taken) result from.now }
        ensures held { Some self.new.flushed ≡ Some self.old.flushed }
        ensures fault { OnErr result (Rose self.old.faults self.new.faults) }
        ensures calm { OnOk result (self.new.faults ≡ self.old.faults) }
        ensures later { self.old.faults ≤ self.new.faults }
    {
        self.calls = self.calls.saturating_add(1);
        if self.fails.contains(&self.calls) || (!from.is_empty() && self.room == 0) {
            self.faults = self.faults.saturating_add(1);
            return Err(Failed);
        }
        let count = self.piece.min(self.room).min(from.len());
        self.bytes.extend_from_slice(&from[..count]).unwrap();
        self.room -= count;
        Ok(count)
    }

    /// Notes that all that was taken is flushed. It never fails.
    fn flush(&mut self) -> Result<(), Failed>
        ensures answer { result ≡ Ok tt }
        ensures next { self.new ≡ record self.old { flushed = length self.old.taken } }
        ensures bytes { Keeps (Some self.old.taken) (Some self.new.taken) }
        ensures flushed { OnOk result (Some self.new.flushed ≡ Some (length self.new.taken)) }
        ensures held { OnErr result (Some self.new.flushed ≡ Some self.old.flushed) }
        ensures fault { OnErr result (Rose self.old.faults self.new.faults) }
        ensures calm { OnOk result (self.new.faults ≡ self.old.faults) }
        ensures later { self.old.faults ≤ self.new.faults }
    {
        self.flushed = self.bytes.len();
        Ok(())
    }
}
