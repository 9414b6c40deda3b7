// Slots of nodes or relationships by their ids: looking one up, and making them of elements.
ghost use Rattle.std.specs.Prelude.{◌≡◌, ◌<◌, ◌≤◌, ◌-◌, ◌++◌, ◌^◌, length, map, replicate, sum_by, None, IfOk, OnOk};
ghost use Rattle.std.specs.List.{AllByRecursion};
ghost use Rattle.std.specs.Option.{option_copied};
ghost use Rattle.graph_model.specs.Lists.{Pairwise};
ghost use Rattle.store_tables.specs.Slots.{slot_at, living, IsNumbered};

use crate::element::Element;
use crate::slot::Slot;
use crate::table::Table;
use graph_model::{List, Mem, Shared};
use std::alloc::Global;

/// What lives under an id.
pub fn live_at<E>(slots: &Table<Slot<E>>, id: usize) -> Option<&E>
    ensures { option_copied result ≡ slot_at slots.now id }
{
    match slots.get(id) {
        Some(slot) => slot.get(),
        None => None,
    }
}

/// What lives under an id, shared once more.
pub fn shared_at<E>(slots: &Table<Slot<E>>, id: usize) -> Result<Option<Shared<E>>, Mem>
    ensures { IfOk result (λ found. found ≡ slot_at slots.now id) }
{
    match slots.get(id) {
        Some(slot) => slot.shared(),
        None => Ok(None),
    }
}

/// Puts dead slots behind the last one until there are `len` of them.
fn fill<E: Drop>(slots: &mut Table<Slot<E>>, alloc: Global, len: usize) -> Result<(), Mem>
    requires { length slots.old ≤ len }
    ensures { OnOk result (slots.new ≡ slots.old ++ replicate (len - length slots.old) None) }
{
    for _row in slots.len()..len {
        slots.push(alloc, Slot::dead())?;
    }
    Ok(())
}

/// Slots of elements whose ids ascend below `next`, one for each id below it.
pub fn slots_of<E: Element>(
    alloc: Global,
    elements: List<E>,
    next: u32,
) -> Result<Table<Slot<E>>, Mem>
    requires ascend { Pairwise (λ a b. E.id_of a < E.id_of b) elements }
    requires below { AllByRecursion (λ element. E.id_of element < next) elements }
    ensures living { IfOk result (λ slots. living slots ≡ elements) }
    ensures numbered { IfOk result (λ slots. IsNumbered E.id_of 0 slots) }
    ensures len { IfOk result (λ slots. length slots ≡ next) }
{
    let mut slots = Table::new(alloc)?;
    for element in elements.into_vec() {
        fill(&mut slots, alloc, element.id() as usize)?;
        slots.push(alloc, Slot::of(alloc, element)?)?;
    }
    fill(&mut slots, alloc, next as usize)?;
    Ok(slots)
}

/// How many values elements have.
pub fn value_count<E: Element>(elements: &List<E>) -> u64
    requires { sum_by (λ element. length (E.props_of element)) elements.now < 2 ^ 64 }
    ensures { result ≡ sum_by (λ element. length (E.props_of element)) elements.now }
{
    let mut count = 0;
    for element in elements.as_slice() {
        count += element.props().len() as u64;
    }
    count
}

/// The ids of what lives, ascending.
#[tactic(auto, using(crate::proofs::SlotLemmas::living_drop_more))]
pub fn live_ids<E: Element>(slots: &Table<Slot<E>>, alloc: Global) -> Result<List<u32>, Mem>
    ensures { IfOk result (λ ids. ids ≡ map E.id_of (living slots.now)) }
{
    let mut ids = List::new(alloc);
    for row in 0..slots.len() {
        if let Some(element) = live_at(slots, row) {
            ids.push(element.id())?;
        }
    }
    Ok(ids)
}
