// A sink that gathers small parts into pieces.
ghost use Rattle.std.specs.Prelude.{◌≡◌, [], ◌++◌};
ghost use Rattle.text_sinks.specs.Told.{Wrote, gathered};

use crate::text_sink::TextSink;
use arrayvec::ArrayVec;
use gds_causes::{Failed, Sink, write_all};

/// The bytes of a piece.
const PIECE: usize = 8_192;

/// Gathers the parts that are put in a piece of fixed size, and hands it on to a sink whenever it is full.
#[derive(Drop)]
pub struct PieceSink<'a, W> {
    sink: &'a mut W,
    piece: ArrayVec<u8, PIECE>,
}

impl<'a, W: Sink> PieceSink<'a, W> {
    /// A sink for which nothing waits.
    pub fn new(sink: &'a mut W) -> PieceSink<'a, W>
        ensures same { result.sink.ghost_name ≡ sink.entry.ghost_name }
        ensures sink { result.sink.now ≡ sink.old }
        ensures piece { result.piece.items ≡ [] }
    {
        PieceSink {
            sink,
            piece: ArrayVec::new(),
        }
    }

    /// Hands on all that waits.
    ///
    /// # Errors
    /// `Failed` where a write failed. Then the sink behind took a front of what waited, and nothing waits.
    pub fn hand_on(&mut self) -> Result<(), Failed>
        ensures wrote { Wrote result
            (gathered self.old.sink.ghost_name (W.taken self.old.sink.now) self.old.piece.items (W.flushed self.old.sink.now) (W.faults self.old.sink.now))
            (gathered self.new.sink.ghost_name (W.taken self.new.sink.now) self.new.piece.items (W.flushed self.new.sink.now) (W.faults self.new.sink.now))
            [] }
        ensures piece { self.new.piece.items ≡ [] }
    {
        let written = write_all(self.sink, self.piece.as_slice());
        self.piece.clear();
        written
    }
}

impl<'a, W: Sink> TextSink for PieceSink<'a, W> {
    ghost told = { λ text. gathered text.sink.ghost_name (W.taken text.sink.now) text.piece.items (W.flushed text.sink.now) (W.faults text.sink.now) };

    /// Gathers a part. Where the piece is full, it is handed on first.
    fn put(&mut self, part: &[u8]) -> Result<(), Failed>
        ensures wrote { Wrote result
            (gathered self.old.sink.ghost_name (W.taken self.old.sink.now) self.old.piece.items (W.flushed self.old.sink.now) (W.faults self.old.sink.now))
            (gathered self.new.sink.ghost_name (W.taken self.new.sink.now) self.new.piece.items (W.flushed self.new.sink.now) (W.faults self.new.sink.now))
            part.now }
    {
        if self.piece.try_extend_from_slice(part).is_ok() {
            return Ok(());
        }
        self.hand_on()?;
        if self.piece.try_extend_from_slice(part).is_ok() {
            return Ok(());
        }
        write_all(self.sink, part)
    }
}
