// Why arcs could not be grouped.
ghost use Rattle.std.specs.Prelude.{◌≡◌};
ghost use Rattle.rel_aggregate.specs.declared.refusal.GroupRefusal.TheVariants.{Mem as group_mem};

use graph_model::{Mem, Name};

/// Why arcs could not be grouped.
#[derive(Debug, Drop)]
pub enum GroupRefusal {
    /// The sum of a key over the arcs between two nodes leaves i64.
    Sum { source: u32, target: u32, key: Name },
    /// No memory was to be had.
    Mem,
}

impl From<Mem> for GroupRefusal {
    ghost from_gives = { λ _ refusal. refusal ≡ group_mem };

    fn from(_mem: Mem) -> GroupRefusal {
        GroupRefusal::Mem
    }
}
