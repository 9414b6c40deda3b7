// Sources and sinks over std's readers and writers. They are as sound as what they stand on.
ghost use Rattle.std.specs.Prelude.{◌≡◌, ℕ, List, Option, ◌<◌, ◌≤◌, length, IfOk, OnOk, OnErr};
ghost use Rattle.std.specs.Option.{option_map};
ghost use Rattle.std.specs.Io.KnownBytes.{Keeps, ReadConsumes, WriteAppends};
ghost use Rattle.gds_causes.specs.Faults.{Rose};
ghost use Rattle.gds_causes.specs.Counted.{count_after};

use crate::traits::{Failed, Sink, Source};
use std::io::{Read, Write};
use std::marker::Model;
use std::snapshot::Snapshot;

/// A source over any reader. It tells the bytes that the reader tells.
#[derive(Debug, Drop)]
pub struct StdSource<R> {
    inner: R,
    faults: u64,
}

impl<R> Model for StdSource<R> {
    ghost use Rattle.gds_causes.specs.Counted.{Counted};

    ghost Value = { Counted R };

    ghost view = { λ source. record { inner = source.inner; faults = source.faults } };
}

impl<R> StdSource<R> {
    /// A source over `inner`, of which no read failed yet.
    pub fn new(inner: R) -> StdSource<R>
        ensures { result ≡ record { inner = inner; faults = 0 } }
    {
        StdSource { inner, faults: 0 }
    }

    /// How many reads failed.
    pub fn faults(&self) -> u64
        ensures { result ≡ self.now.faults }
    {
        self.faults
    }
}

impl<R: Read> Source for StdSource<R> {
    ghost remaining = { λ source. R.remaining source.inner };

    ghost faults = { λ source. source.faults };

    /// Reads from the inner one.
    ///
    /// # Errors
    /// `Failed` where the inner one answers an error. Exactly then the count rises.
    fn read(&mut self, into: &mut [u8]) -> Result<usize, Failed>
        ensures counted { self.new.faults ≡ count_after result self.old.faults }
        ensures bound { IfOk result (λ n. n ≤ length into.new) }
        ensures bytes { ReadConsumes (R.remaining self.old.inner) (R.remaining self.new.inner) result into.new }
        ensures fault { OnErr result (Rose self.old.faults self.new.faults) }
        ensures calm { OnOk result (self.new.faults ≡ self.old.faults) }
        ensures later { self.old.faults ≤ self.new.faults }
    {
        match self.inner.read(into) {
            Ok(count) => Ok(count),
            Err(_) => {
                self.faults = self.faults.saturating_add(1);
                Err(Failed)
            }
        }
    }
}

/// A sink over any writer. It tells the bytes that the writer tells, and that those were flushed which were there when a
/// flush last succeeded, or at first.
#[derive(Drop)]
pub struct StdSink<W> {
    inner: W,
    at_flush: Snapshot<W>,
    faults: u64,
}

impl<W> Model for StdSink<W> {
    ghost use Rattle.gds_causes.specs.Counted.{CountedSink};

    ghost Value = { CountedSink W };

    ghost view = { λ sink. record { inner = sink.inner; at_flush = sink.at_flush.value; faults = sink.faults } };
}

impl<W> StdSink<W> {
    /// A sink over `inner`, of which no call failed yet.
    pub fn new(inner: W) -> StdSink<W>
        ensures { result ≡ record { inner = inner; at_flush = inner; faults = 0 } }
    {
        StdSink {
            at_flush: Snapshot::of(&inner),
            inner,
            faults: 0,
        }
    }

    /// How many calls failed.
    pub fn faults(&self) -> u64
        ensures { result ≡ self.now.faults }
    {
        self.faults
    }
}

impl<W: Write> Sink for StdSink<W> {
    ghost taken = { λ sink. W.contents sink.inner };

    ghost flushed = { λ sink. option_map length (W.contents sink.at_flush) };

    ghost faults = { λ sink. sink.faults };

    /// Writes to the inner one.
    ///
    /// # Errors
    /// `Failed` where the inner one answers an error, or takes nothing of a piece that isn't empty. Exactly then the
    /// count rises.
    fn write(&mut self, from: &[u8]) -> Result<usize, Failed>
        ensures counted { self.new.faults ≡ count_after result self.old.faults }
        ensures bound { IfOk result (λ n. n ≤ length from.now) }
        ensures progress { IfOk result (λ n. 0 < length from.now → 0 < n) }
        ensures bytes { WriteAppends (W.contents self.old.inner) (W.contents self.new.inner) result from.now }
        ensures held { option_map length (W.contents self.new.at_flush) ≡ option_map length (W.contents self.old.at_flush) }
        ensures fault { OnErr result (Rose self.old.faults self.new.faults) }
        ensures calm { OnOk result (self.new.faults ≡ self.old.faults) }
        ensures later { self.old.faults ≤ self.new.faults }
    {
        match self.inner.write(from) {
            Ok(count) if count > 0 || from.is_empty() => Ok(count),
            _ => {
                self.faults = self.faults.saturating_add(1);
                Err(Failed)
            }
        }
    }

    /// Flushes the inner one.
    ///
    /// # Errors
    /// `Failed` where the inner one answers an error. Exactly then the count rises.
    fn flush(&mut self) -> Result<(), Failed>
        ensures counted { self.new.faults ≡ count_after result self.old.faults }
        ensures bytes { Keeps (W.contents self.old.inner) (W.contents self.new.inner) }
        ensures flushed { OnOk result (option_map length (W.contents self.new.at_flush) ≡ option_map length (W.contents self.new.inner)) }
        ensures held { OnErr result (option_map length (W.contents self.new.at_flush) ≡ option_map length (W.contents self.old.at_flush)) }
        ensures fault { OnErr result (Rose self.old.faults self.new.faults) }
        ensures calm { OnOk result (self.new.faults ≡ self.old.faults) }
        ensures later { self.old.faults ≤ self.new.faults }
    {
        match self.inner.flush() {
            Ok(()) => {
                self.at_flush = Snapshot::of(&self.inner);
                Ok(())
            }
            Err(_) => {
                self.faults = self.faults.saturating_add(1);
                Err(Failed)
            }
        }
    }
}
