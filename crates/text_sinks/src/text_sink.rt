// Where the parts of a text are put.
ghost use Rattle.std.specs.Prelude.{◌≡◌};
ghost use Rattle.text_sinks.specs.Told.{Told, Wrote};

use gds_causes::Failed;

/// Where the parts of a text are put, one after another.
pub trait TextSink {
    /// What the sink tells.
    ghost told: { Self → Told };

    /// Puts a part of a text behind those that were put.
    ///
    /// # Errors
    /// `Failed` exactly where the count of faults of a sink behind it rises. Then that one took a front of what was put.
    fn put(&mut self, part: &[u8]) -> Result<(), Failed>
        ensures wrote { Wrote result (told self.old) (told self.new) part.now };
}
