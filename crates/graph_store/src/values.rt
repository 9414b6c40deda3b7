// Values of an element, which ascend by key, and one of them set.
ghost use Rattle.std.specs.Prelude.{◌≡◌, ◌+◌, ◌∷◌, ◌++◌, IfOk, OnOk};
ghost use Rattle.graph_model.specs.Change.{set_prop as prop_set};

use graph_model::{List, Mem, Name, Prop, TryClone};
use std::alloc::Global;
use std::cmp::Ordering;

/// A copy of a value with its key.
fn copy_prop(prop: &Prop) -> Result<Prop, Mem>
    ensures { IfOk result (λ copy. copy ≡ prop.now) }
{
    Ok(Prop {
        key: prop.key.try_clone()?,
        value: prop.value,
    })
}

/// Puts copies of values behind others.
fn push_copies(props: &mut List<Prop>, rest: &[Prop]) -> Result<(), Mem>
    ensures { OnOk result (props.new ≡ props.old ++ rest.now) }
{
    for prop in rest {
        props.push(copy_prop(prop)?)?;
    }
    Ok(())
}

/// Values, then a new one, then copies of the rest.
fn joined(front: List<Prop>, key: &Name, value: i64, rest: &[Prop]) -> Result<List<Prop>, Mem>
    ensures { IfOk result (λ props. props ≡ front ++ record { key = key.now; value = value } ∷ rest.now) }
{
    let mut props = front;
    props.push(Prop {
        key: key.try_clone()?,
        value,
    })?;
    push_copies(&mut props, rest)?;
    Ok(props)
}

/// Values that ascend by key, copied with one of them set.
pub(crate) fn set_prop(
    alloc: Global,
    props: &List<Prop>,
    key: &Name,
    value: i64,
) -> Result<List<Prop>, Mem>
    ensures { IfOk result (λ after. after ≡ prop_set key.now value props.now) }
{
    let all = props.as_slice();
    let mut front = List::new(alloc);
    for (place, prop) in all.iter().enumerate() {
        match key.cmp(&prop.key) {
            Ordering::Less => return joined(front, key, value, all.split_at(place).1),
            Ordering::Equal => return joined(front, key, value, all.split_at(place + 1).1),
            Ordering::Greater => front.push(copy_prop(prop)?)?,
        }
    }
    joined(front, key, value, &[])
}
