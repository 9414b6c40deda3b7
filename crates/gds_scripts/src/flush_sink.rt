// A sink in memory of which chosen flushes fail.
ghost use Rattle.std.specs.Prelude.{◌≡◌, ◌+◌, Some, ◌<◌, ◌≤◌, length, IfOk, OnOk, OnErr};
ghost use Rattle.std.specs.Io.KnownBytes.{Keeps, WriteAppends};
ghost use Rattle.gds_causes.specs.Faults.{Rose};

use gds_causes::{Failed, MemSink, Sink};

/// A sink in memory. Flushes are numbered from 1, and chosen ones fail: then no more is flushed than was.
///
/// The number of a flush and the count of faults stand still at the greatest u64.
#[derive(Debug, Drop)]
pub(crate) struct FlushSink {
    inner: MemSink,
    fails: Vec<u64>,
    calls: u64,
    faults: u64,
}

impl FlushSink {
    /// A sink over one in memory, whose flushes of these numbers fail.
    pub(crate) fn new(inner: MemSink, fails: Vec<u64>) -> FlushSink {
        FlushSink {
            inner,
            fails,
            calls: 0,
            faults: 0,
        }
    }

    /// The bytes that were taken, in order.
    pub(crate) fn bytes(&self) -> &[u8] {
        self.inner.bytes()
    }

    /// How many of them were flushed.
    pub(crate) fn flushed(&self) -> usize {
        self.inner.flushed()
    }

    /// How many writes and flushes failed.
    pub(crate) fn faults(&self) -> u64 {
        self.inner.faults().saturating_add(self.faults)
    }
}

impl Sink for FlushSink {
    ghost taken = { λ sink. Some sink.inner.taken };

    ghost flushed = { λ sink. Some sink.inner.flushed };

    ghost faults = { λ sink. sink.inner.faults + sink.faults };

    /// Takes what the sink in memory takes.
    ///
    /// # Errors
    /// `Failed` where that one answers it.
    fn write(&mut self, from: &[u8]) -> Result<usize, Failed>
        ensures bound { IfOk result (λ n. n ≤ length from.now) }
        ensures progress { IfOk result (λ n. 0 < length from.now → 0 < n) }
        ensures bytes { WriteAppends (Some self.old.inner.taken) (Some self.new.inner.taken) result from.now }
        ensures held { Some self.new.inner.flushed ≡ Some self.old.inner.flushed }
        ensures fault { OnErr result (Rose (self.old.inner.faults + self.old.faults) (self.new.inner.faults + self.new.faults)) }
        ensures calm { OnOk result (self.new.inner.faults + self.new.faults ≡ self.old.inner.faults + self.old.faults) }
        ensures later { self.old.inner.faults + self.old.faults ≤ self.new.inner.faults + self.new.faults }
    {
        self.inner.write(from)
    }

    /// Notes that all that was taken is flushed.
    ///
    /// # Errors
    /// `Failed` where the number of this flush is listed.
    fn flush(&mut self) -> Result<(), Failed>
        ensures bytes { Keeps (Some self.old.inner.taken) (Some self.new.inner.taken) }
        ensures flushed { OnOk result (Some self.new.inner.flushed ≡ Some (length self.new.inner.taken)) }
        ensures held { OnErr result (Some self.new.inner.flushed ≡ Some self.old.inner.flushed) }
        ensures fault { OnErr result (Rose (self.old.inner.faults + self.old.faults) (self.new.inner.faults + self.new.faults)) }
        ensures calm { OnOk result (self.new.inner.faults + self.new.faults ≡ self.old.inner.faults + self.old.faults) }
        ensures later { self.old.inner.faults + self.old.faults ≤ self.new.inner.faults + self.new.faults }
    {
        self.calls = self.calls.saturating_add(1);
        if self.fails.contains(&self.calls) {
            self.faults = self.faults.saturating_add(1);
            return Err(Failed);
        }
        self.inner.flush()
    }
}
