// A kernel whose values fall by themselves.
ghost use Rattle.std.specs.Prelude.{ℕ, List, [], ◌≡◌, ◌-◌, ◌<◌, ◌≤◌, length};
ghost use Rattle.std.proofs.Common.{ap, arith};
ghost use Rattle.std.specs.List.{All, Contains};
ghost use Rattle.round_engine.specs.Columns.{value_at, NowhereGreater, AllSound};

use round_engine::Kernel;

/// Places at each of which the value falls by one until it is 0.
#[derive(Drop)]
pub(crate) struct Falling {
    pub(crate) places: u32,
}

impl Kernel for Falling {
    ghost size = { λ kernel. kernel.places };

    ghost next_value = { λ kernel column v. value_at column v - 1 };

    ghost touched = { λ kernel u. [] };

    ghost IsSound = { λ kernel v value. Unit {0} };

    fn len(&self) -> u32 {
        self.places
    }

    fn next(&self, column: &[u64], v: u32) -> u64 {
        column[v as usize].saturating_sub(1)
    }

    fn touches(&self, _u: u32) -> &[u32] {
        &[]
    }

    ghost touches_places = { λ kernel u in_range k d below. absurd (Prim.omega (arith, below)) };

    ghost falls = { λ kernel column v long in_range. Prim.omega arith };

    ghost keeps_order = { λ kernel lower upper v lower_long upper_long in_range nowhere. Prim.omega (arith, nowhere v (Prim.omega (arith, upper_long, in_range))) };

    ghost keeps_sound = { λ kernel column v long in_range sound. tt };

    ghost looks_near = { λ kernel one other v one_long other_long in_range here near. ap (λ x. x - 1) here };
}
