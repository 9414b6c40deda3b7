// Rounds over a frontier of one place.
ghost use Rattle.std.specs.Prelude.{◌≡◌, length, IfOk};

use crate::clock::Meter;
use crate::falling::Falling;
use crate::stop::Stop;
use gds_causes::{OpenGate, Turned};
use graph_model::Mem;
use round_engine::Rounds;
use std::alloc::Global;
use std::thread::Threads;
use std::time::Instant;

/// Starts rounds with a value in the middle of so many places and 0 at all others; each round lowers it by one. From the second
/// round on its place alone is the frontier. These rounds, as many as the value, are timed together.
pub(crate) fn run<R: Threads + Sync>(
    rt: &HostRuntime,
    threads: &R,
    places: u32,
    value: u32,
    meter: &Meter,
) -> Result<(), Stop> {
    let first = one_value(rt.alloc(), places, value)?;
    let mut rounds = Rounds::start(rt.alloc(), Falling { places }, first)?;
    rounds.advance(threads, 4, &OpenGate);
    let start = Instant::now(rt)?;
    let count = until_done(threads, &mut rounds);
    meter.tell(rt, "frontiers", start)?;
    let left = rounds.column().iter().max().copied().unwrap_or(0);
    println!(rt; "frontiers {places} {count} {left}")?;
    Ok(())
}

// Rounds until no value falls. Answers how many.
fn until_done<R: Threads + Sync>(threads: &R, rounds: &mut Rounds<Falling>) -> u32 {
    let mut count: u32 = 0;
    loop {
        let turned = rounds.advance(threads, 4, &OpenGate);
        count = count.saturating_add(1);
        if let Turned::Done = turned {
            return count;
        }
    }
}

// A value in the middle of so many places, and 0 at all others.
fn one_value(alloc: Global, places: u32, value: u32) -> Result<Vec<u64>, Mem>
    ensures { IfOk result (λ values. length values.items ≡ places) }
{
    let mut values = vec![in alloc; 0; places as usize]?;
    if let Some(middle) = values.get_mut(places as usize / 2) {
        *middle = u64::from(value);
    }
    Ok(values)
}
