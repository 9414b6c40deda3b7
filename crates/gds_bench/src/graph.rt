// A graph by the recurrence x(0) = 1, x(k + 1) = 6364136223846793005 x(k) + 1442695040888963407 modulo 2^64. Its draws
// are d(k) = x(k) div 2^33, and arc i goes from d(3i + 1) to d(3i + 2), both modulo the number of nodes, with the value
// d(3i + 3) modulo 100.
ghost use Rattle.std.specs.Prelude.{◌≡◌, ◌<◌, true, length, All, IfOk};
ghost use Rattle.std.specs.List.Sorted.{IsSorted, IsStrictlyIncreasing};
ghost use Rattle.csr_columns.specs.Rows.{LiesBelow, arc_cmp};

use graph_model::{List, Mem};
use std::alloc::Global;

/// The draws of the recurrence.
#[derive(Drop)]
pub(crate) struct Draws {
    state: u64,
}

impl Draws {
    /// The recurrence at its start.
    pub(crate) fn new() -> Draws {
        Draws { state: 1 }
    }

    // The next draw.
    fn draw(&mut self) -> u64 {
        let grown = self.state.wrapping_mul(6_364_136_223_846_793_005);
        self.state = grown.wrapping_add(1_442_695_040_888_963_407);
        self.state >> 33
    }

    /// The next draw as a node.
    pub(crate) fn node(&mut self, nodes: u32) -> u32
        requires { 0 < nodes }
    {
        (self.draw() % u64::from(nodes)) as u32
    }

    /// The next draw as a value.
    pub(crate) fn value(&mut self) -> i64 {
        (self.draw() % 100) as i64
    }
}

/// Arcs in ascending order, each with its value.
pub(crate) fn sorted_arcs(
    alloc: Global,
    nodes: u32,
    count: u32,
) -> Result<Vec<(u32, u32, i64)>, Mem>
    requires { 0 < nodes }
{
    let mut draws = Draws::new();
    let mut arcs = Vec::with_capacity(alloc, count as usize)?;
    for _arc in 0..count {
        let source = draws.node(nodes);
        let target = draws.node(nodes);
        arcs.push((source, target, draws.value()))?;
    }
    arcs.sort_unstable();
    Ok(arcs)
}

/// The arcs of the first half of some, each both ways with its value, in ascending order.
pub(crate) fn both_ways(
    alloc: Global,
    arcs: &[(u32, u32, i64)],
) -> Result<Vec<(u32, u32, i64)>, Mem> {
    let mut both = Vec::with_capacity(alloc, arcs.len())?;
    for (source, target, value) in &arcs[..arcs.len() / 2] {
        both.push((*source, *target, *value))?;
        both.push((*target, *source, *value))?;
    }
    both.sort_unstable();
    Ok(both)
}

/// The ends of arcs, and beside them their values.
pub(crate) fn apart(
    alloc: Global,
    arcs: &[(u32, u32, i64)],
) -> Result<(Vec<(u32, u32)>, List<i64>), Mem>
    ensures { IfOk result (λ parts. length parts.1 ≡ length parts.0.items) }
{
    let mut ends = Vec::with_capacity(alloc, arcs.len())?;
    let mut values = Vec::with_capacity(alloc, arcs.len())?;
    for (source, target, value) in arcs {
        ends.push((*source, *target))?;
        values.push(*value)?;
    }
    Ok((ends, List::from_vec(values)))
}

/// Whether arcs ascend.
pub(crate) fn ascend(ends: &[(u32, u32)]) -> bool
    ensures { result ≡ true → IsSorted arc_cmp ends.now }
{
    for place in 1..ends.len() {
        if ends[place] < ends[place - 1] {
            return false;
        }
    }
    true
}

/// Whether arcs lie below a number of nodes.
pub(crate) fn lie_below(nodes: u32, ends: &[(u32, u32)]) -> bool
    ensures { result ≡ true → All (LiesBelow nodes) ends.now }
{
    for arc in ends {
        if arc.0 >= nodes || arc.1 >= nodes {
            return false;
        }
    }
    true
}

/// The ids of so many nodes, from 0 on.
pub(crate) fn ids(alloc: Global, nodes: u32) -> Result<List<u32>, Mem>
    ensures len { IfOk result (λ ids. length ids ≡ nodes) }
    ensures ascend { IfOk result IsStrictlyIncreasing }
{
    let mut ids = Vec::with_capacity(alloc, nodes as usize)?;
    for id in 0..nodes {
        ids.push(id)?;
    }
    Ok(List::from_vec(ids))
}
