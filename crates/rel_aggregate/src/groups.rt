// The groups of raw arcs, one after another.
ghost use Rattle.std.specs.Prelude.{◌≡◌, ◌<◌, ◌≤◌, ◌∷◌, All, length, take, drop, Ok, Err, IfOk, IfErr};
ghost use Rattle.std.specs.List.{AllByRecursion, prefix_len};
ghost use Rattle.graph_model.specs.Lists.{Pairwise};
ghost use Rattle.projection_spec.specs.RawArcs.{ArcInOrder};
ghost use Rattle.projection_spec.specs.KeptArcs.{leads, groups_of, group_values, kept_arc, kept_groups, kept_arcs};
ghost use Rattle.rel_aggregate.specs.Groups.{HasCells, LeastFirst, group_from};
ghost use Rattle.rel_aggregate.specs.Refusals.{IfSum};

use crate::refusal::GroupRefusal;
use crate::values::rule_value;
use graph_model::{List, TryClone};
use projection_spec::{Grouped, RawArc, RelEntry, RelProp};
use std::alloc::Global;

/// The arcs that an entry keeps of its raw arcs: each of them, or one for those between the same two nodes.
///
/// The raw arcs come in ascending order of source, target and relationship id, each with a cell for each key of the
/// entry. The kept arcs stand in ascending order of source and target.
///
/// # Errors
/// `Sum` for the first group, and then its first key, whose sum leaves i64, or `Mem`.
pub fn group(
    alloc: Global,
    arcs: &[RawArc],
    entry: &RelEntry,
) -> Result<List<Grouped>, GroupRefusal>
    requires ascending { Pairwise ArcInOrder arcs.now }
    requires cells { AllByRecursion (HasCells entry.now.props) arcs.now }
    ensures ok { IfOk result (λ kept. kept_arcs entry.now arcs.now ≡ Ok kept) }
    ensures refused { IfErr result (λ why. IfSum why (λ out. kept_arcs entry.now arcs.now ≡ Err out)) }
{
    keep_groups(alloc, arcs, entry.grouped, entry.props.as_slice())
}

fn keep_groups(
    alloc: Global,
    arcs: &[RawArc],
    grouped: bool,
    props: &[RelProp],
) -> Result<List<Grouped>, GroupRefusal>
    requires ascending { Pairwise ArcInOrder arcs.now }
    requires cells { All (HasCells props.now) arcs.now }
    ensures ok { IfOk result (λ kept. kept_groups props.now (groups_of grouped arcs.now) ≡ Ok kept) }
    ensures refused { IfErr result (λ why. IfSum why (λ out. kept_groups props.now (groups_of grouped arcs.now) ≡ Err out)) }
{
    let mut kept = List::new(alloc);
    let mut rest = arcs;
    while !rest.is_empty() {
        let (members, later) = rest.split_at(first_group_length(rest, grouped));
        kept.push(keep_group(alloc, members, props)?)?;
        rest = later;
    }
    Ok(kept)
}

// How many of the arcs are in the first group.
fn first_group_length(arcs: &[RawArc], grouped: bool) -> usize
    requires some { 0 < length arcs.now }
    requires ascending { Pairwise ArcInOrder arcs.now }
    ensures some { 0 < result }
    ensures within { result ≤ length arcs.now }
    ensures cut { groups_of grouped arcs.now ≡ group_from (take result arcs.now) ∷ groups_of grouped (drop result arcs.now) }
    ensures least_first { LeastFirst (take result arcs.now) }
{
    match arcs.first() {
        Some(first) if grouped => leading_length(arcs, first.source, first.target),
        _ => 1,
    }
}

// How many arcs at the front lead from one node to another.
fn leading_length(arcs: &[RawArc], source: u32, target: u32) -> usize
    ensures count { result ≡ prefix_len (leads source target) arcs.now }
    ensures within { result ≤ length arcs.now }
{
    arcs.iter()
        .take_while(|arc| arc.source == source && arc.target == target)
        .count()
}

// The arc that a group becomes.
fn keep_group(alloc: Global, arcs: &[RawArc], props: &[RelProp]) -> Result<Grouped, GroupRefusal>
    requires some { 0 < length arcs.now }
    requires cells { All (HasCells props.now) arcs.now }
    requires least_first { LeastFirst arcs.now }
    ensures ok { IfOk result (λ arc. kept_arc (group_from arcs.now) (group_values 0 props.now arcs.now) ≡ Ok arc) }
    ensures refused { IfErr result (λ why. IfSum why (λ out. kept_arc (group_from arcs.now) (group_values 0 props.now arcs.now) ≡ Err out)) }
{
    let first = &arcs[0];
    let mut values = List::new(alloc);
    for (place, prop) in props.iter().enumerate() {
        match rule_value(arcs, place, prop) {
            Some(value) => values.push(value)?,
            None => {
                return Err(GroupRefusal::Sum {
                    source: first.source,
                    target: first.target,
                    key: prop.key.try_clone()?,
                });
            }
        }
    }
    Ok(Grouped {
        source: first.source,
        target: first.target,
        rel: first.rel,
        values,
    })
}
