// A kernel that lowers values along arcs.
ghost use Rattle.std.specs.Prelude.{◌≡◌, ◌<◌, length};
ghost use Rattle.std.specs.List.{All, Contains};
ghost use Rattle.csr_columns.specs.Rows.{row_at, turned_rows};
ghost use Rattle.round_engine.specs.Columns.{value_at, NowhereGreater, AllSound};
ghost use Rattle.gds_bench.specs.Least.{least_of};
ghost use Rattle.gds_bench.specs.LeastLaws.{least-falls, touches_places, keeps_order, looks_near};

use csr_columns::Csr;
use graph_model::{Mem, TryClone};
use round_engine::Kernel;
use std::alloc::Global;

/// Gives each node the least of its value and of those at the targets of its arcs.
#[derive(Drop)]
pub(crate) struct Least {
    rows: Csr,
    reversed: Csr,
    ghost turned: { reversed ≡ turned_rows rows },
}

impl Least {
    /// The kernel over the arcs of these rows.
    pub(crate) fn over(alloc: Global, rows: Csr) -> Result<Least, Mem> {
        let reversed = rows.reverse(alloc)?;
        Ok(Least { rows, reversed })
    }

    /// The number of arcs.
    pub(crate) fn arc_count(&self) -> u32 {
        self.rows.arc_count()
    }
}

impl TryClone for Least {
    fn try_clone(&self) -> Result<Least, Mem> {
        Ok(Least {
            rows: self.rows.try_clone()?,
            reversed: self.reversed.try_clone()?,
        })
    }
}

// The least of a value and of the values at these places.
#[inline]
fn least_of(column: &[u64], own: u64, places: &[u32]) -> u64
    requires { All (λ place. place < length column.now) places.now }
    ensures { result ≡ least_of column.now own places.now }
{
    let mut least = own;
    for place in places {
        least = least.min(column[*place as usize]);
    }
    least
}

impl Kernel for Least {
    ghost size = { λ kernel. length kernel.rows.rows };

    ghost next_value = { λ kernel column v. least_of column (value_at column v) (row_at kernel.rows.rows v) };

    ghost touched = { λ kernel u. row_at kernel.reversed.rows u };

    ghost IsSound = { λ kernel v value. Unit {0} };

    fn len(&self) -> u32 {
        self.rows.node_count()
    }

    fn next(&self, column: &[u64], v: u32) -> u64 {
        least_of(column, column[v as usize], self.rows.row(v))
    }

    fn touches(&self, u: u32) -> &[u32] {
        self.reversed.row(u)
    }

    ghost touches_places = { λ kernel u in_range. touches_places kernel.rows kernel.reversed kernel.turned u in_range };

    ghost falls = { λ kernel column v long in_range. least-falls column (value_at column v) (row_at kernel.rows.rows v) };

    ghost keeps_order = { λ kernel lower upper v lower_long upper_long in_range nowhere. keeps_order (length kernel.rows.rows) lower upper v (row_at kernel.rows.rows v) lower_long upper_long in_range nowhere };

    ghost keeps_sound = { λ kernel column v long in_range sound. tt };

    ghost looks_near = { λ kernel one other v one_long other_long in_range here near. looks_near kernel.rows kernel.reversed kernel.turned one other v one_long other_long in_range here near };
}
