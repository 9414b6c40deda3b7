// A sink that counts.
ghost use Rattle.std.specs.Prelude.{◌≡◌, ℕ, ◌+◌, ◌-◌, ◌^◌, Some, min, length};
ghost use Rattle.text_sinks.specs.Told.{Wrote, counted};

use crate::text_sink::TextSink;
use gds_causes::Failed;

/// Counts the bytes that are put. The count stands still at the greatest u64.
#[derive(Clone, Copy, Debug, PartialEq, Eq)]
pub struct LengthSink {
    length: u64,
}

impl LengthSink {
    /// A sink into which nothing was put.
    pub fn new() -> LengthSink
        ensures { result.length ≡ 0 }
    {
        LengthSink { length: 0 }
    }

    /// How many bytes were put.
    pub fn length(&self) -> u64
        ensures { result ≡ self.now.length }
    {
        self.length
    }
}

impl TextSink for LengthSink {
    ghost told = { λ sink. counted sink.length };

    /// Counts the bytes of a part. It never fails.
    fn put(&mut self, part: &[u8]) -> Result<(), Failed>
        ensures length { self.new.length ≡ min (self.old.length + length part.now) (2 ^ 64 - 1) }
        ensures wrote { Wrote result (counted self.old.length) (counted self.new.length) part.now }
    {
        self.length = self.length.saturating_add(part.len() as u64);
        Ok(())
    }
}
