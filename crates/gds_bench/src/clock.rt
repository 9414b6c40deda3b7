// Times of calls, told where they are asked for.
use crate::stop::Stop;
use std::time::Instant;

/// Whether times are told.
#[derive(Clone, Copy, Debug, PartialEq, Eq)]
pub(crate) struct Meter {
    pub(crate) on: bool,
}

impl Meter {
    /// Tells on standard error how long a piece of work took that began at `start`.
    pub(crate) fn tell(&self, rt: &HostRuntime, work: &str, start: Instant) -> Result<(), Stop> {
        let took = start.elapsed(rt)?;
        if self.on {
            eprintln!(rt; "{work} {}", took.as_micros())?;
        }
        Ok(())
    }

    /// Tells the same of a piece of work that was done by so many workers.
    pub(crate) fn tell_by(
        &self,
        rt: &HostRuntime,
        work: &str,
        workers: u32,
        start: Instant,
    ) -> Result<(), Stop> {
        let took = start.elapsed(rt)?;
        if self.on {
            eprintln!(rt; "{work}-{workers} {}", took.as_micros())?;
        }
        Ok(())
    }
}
