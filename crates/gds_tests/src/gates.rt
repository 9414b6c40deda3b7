// Which parts of a round go through the gate, and that two of them are at work at once.
ghost use Rattle.std.specs.Prelude.{ℕ, List, [], ◌≡◌, ◌-◌, ◌<◌, ◌≤◌, length};
ghost use Rattle.std.proofs.Common.{ap, arith};
ghost use Rattle.std.specs.List.{All, Contains};
ghost use Rattle.round_engine.specs.Columns.{value_at, NowhereGreater, AllSound};

use gds_causes::Gate;
use graph_model::Mem;
use round_engine::{Kernel, Rounds};
use std::sync::atomic::{AtomicU64, Ordering};

/// Six places, at each of which the value falls by one until it is 0.
#[derive(Drop)]
struct Falling;

impl Kernel for Falling {
    ghost size = { λ kernel. 6 };

    ghost next_value = { λ kernel column v. value_at column v - 1 };

    ghost touched = { λ kernel u. [] };

    ghost IsSound = { λ kernel v value. Unit {0} };

    fn len(&self) -> u32 {
        6
    }

    fn next(&self, column: &[u64], v: u32) -> u64 {
        column[v as usize].saturating_sub(1)
    }

    fn touches(&self, _u: u32) -> &[u32] {
        &[]
    }

    ghost touches_places = { λ kernel u in_range k d below. absurd (Prim.omega (arith, below)) };

    ghost falls = { λ kernel column v long in_range. Prim.omega arith };

    ghost keeps_order = { λ kernel lower upper v lower_long upper_long in_range nowhere. Prim.omega (arith, nowhere v (Prim.omega (arith, upper_long, in_range))) };

    ghost keeps_sound = { λ kernel column v long in_range sound. tt };

    ghost looks_near = { λ kernel one other v one_long other_long in_range here near. ap (λ x. x - 1) here };
}

/// A gate that counts who goes through it.
#[derive(Drop)]
pub(crate) struct Counting {
    pub(crate) entries: AtomicU64,
    pub(crate) numbers: AtomicU64,
}

impl Counting {
    pub(crate) fn new() -> Counting {
        Counting {
            entries: AtomicU64::new(0),
            numbers: AtomicU64::new(0),
        }
    }
}

impl Gate for Counting {
    fn enter(&self, part: u32) {
        self.entries.fetch_add(1, Ordering::SeqCst);
        self.numbers.fetch_add(u64::from(part), Ordering::SeqCst);
    }
}

/// A gate in which part 1 waits until part 2 has come, for a while.
#[derive(Drop)]
pub(crate) struct Waiting {
    come: AtomicU64,
    pub(crate) met: AtomicU64,
}

impl Waiting {
    pub(crate) fn new() -> Waiting {
        Waiting {
            come: AtomicU64::new(0),
            met: AtomicU64::new(0),
        }
    }
}

impl Gate for Waiting {
    fn enter(&self, part: u32) {
        if part == 2 {
            self.come.store(1, Ordering::SeqCst);
        }
        if part == 1 {
            for _ in 0..10_000_000u32 {
                if self.come.load(Ordering::SeqCst) == 1 {
                    self.met.store(1, Ordering::SeqCst);
                    return;
                }
            }
        }
    }
}

#[test]
fn parts_with_frontier_enter(rt: HostRuntime) -> Result<(), Mem> {
    let first = Vec::from_slice(rt.alloc(), &[0, 0, 0, 0, 0, 2])?;
    let mut rounds = Rounds::start(rt.alloc(), Falling, first)?;
    for (entries, numbers) in [(3, 6), (1, 3), (1, 3), (0, 0)] {
        let gate = Counting::new();
        rounds.advance(&rt, 4, &gate);
        assert_eq!(rt; gate.entries.load(Ordering::SeqCst), entries);
        assert_eq!(rt; gate.numbers.load(Ordering::SeqCst), numbers);
    }
    Ok(())
}

#[test]
fn two_parts_run_at_once(rt: HostRuntime) -> Result<(), Mem> {
    let first = Vec::from_slice(rt.alloc(), &[1, 1, 1, 1, 1, 1])?;
    let mut rounds = Rounds::start(rt.alloc(), Falling, first)?;
    let gate = Waiting::new();
    rounds.advance(&rt, 2, &gate);
    assert_eq!(rt; gate.met.load(Ordering::SeqCst), 1);
    Ok(())
}
