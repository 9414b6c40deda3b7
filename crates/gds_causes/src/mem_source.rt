// A source in memory that gives pieces and fails where it is told to.
ghost use Rattle.std.specs.Prelude.{◌≡◌, ℕ, List, Some, ◌<◌, ◌≤◌, length, IfOk, OnOk, OnErr};
ghost use Rattle.std.specs.Io.KnownBytes.{ReadConsumes};
ghost use Rattle.gds_causes.specs.Faults.{Rose};
ghost use Rattle.gds_causes.specs.MemSource.{read_answer, buffer_after_read, source_after_read};

use crate::traits::{Failed, Source};
use std::marker::Model;

/// Bytes in memory, given in pieces. Reads are numbered from 1, and chosen ones fail.
///
/// The number of a read and the count of faults stand still at the greatest u64.
#[derive(Debug, Drop)]
pub struct MemSource {
    bytes: Vec<u8>,
    at: usize,
    piece: usize,
    fails: Vec<u64>,
    calls: u64,
    faults: u64,
}

impl Model for MemSource {
    ghost use Rattle.std.specs.Prelude.{ℕ, ◌<◌, ◌≤◌, drop, length};
    ghost use Rattle.gds_causes.specs.MemSource.{SourceState};

    ghost Value = { SourceState };

    ghost view = { λ source. record {
      remaining = drop source.at source.bytes.items;
      piece = source.piece;
      fails = source.fails.items;
      calls = source.calls;
      faults = source.faults;
    } };

    ghost invariant = { λ source. (source.at ≤ length source.bytes.items) × (0 < source.piece) };
}

impl MemSource {
    /// A source of `bytes` that gives at most `piece` of them per read, which is at least 1. The reads whose numbers
    /// `fails` lists fail.
    pub fn new(bytes: Vec<u8>, piece: usize, fails: Vec<u64>) -> MemSource
        requires { 0 < piece }
        ensures { result ≡ record { remaining = bytes.items; piece = piece; fails = fails.items; calls = 0; faults = 0 } }
    {
        MemSource {
            bytes,
            at: 0,
            piece,
            fails,
            calls: 0,
            faults: 0,
        }
    }

    /// How many reads failed.
    pub fn faults(&self) -> u64
        ensures { result ≡ self.now.faults }
    {
        self.faults
    }
}

impl Source for MemSource {
    ghost remaining = { λ source. Some source.remaining };

    ghost faults = { λ source. source.faults };

    /// Gives the next bytes, at most a piece and at most as many as `into` has room for.
    ///
    /// # Errors
    /// `Failed` exactly where the number of this read is listed.
    fn read(&mut self, into: &mut [u8]) -> Result<usize, Failed>
        ensures answer { result ≡ read_answer self.old (length into.old) }
        ensures buffer { into.new ≡ buffer_after_read self.old into.old }
        ensures next { self.new ≡ source_after_read self.old (length into.old) }
        ensures bound { IfOk result (λ n. n ≤ length into.new) }
        ensures bytes { ReadConsumes (Some self.old.remaining) (Some self.new.remaining) result into.new }
        ensures fault { OnErr result (Rose self.old.faults self.new.faults) }
        ensures calm { OnOk result (self.new.faults ≡ self.old.faults) }
        ensures later { self.old.faults ≤ self.new.faults }
    {
        self.calls = self.calls.saturating_add(1);
        if self.fails.contains(&self.calls) {
            self.faults = self.faults.saturating_add(1);
            return Err(Failed);
        }
        let count = into.len().min(self.piece).min(self.bytes.len() - self.at);
        into[..count].copy_from_slice(&self.bytes[self.at..self.at + count]);
        self.at += count;
        Ok(count)
    }
}
