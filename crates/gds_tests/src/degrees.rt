// Which parts of a step of degrees go through the gate.
ghost use Rattle.std.specs.Prelude.{◌≡◌, [], ◌∷◌, length, IfOk};
ghost use Rattle.csr_columns.specs.Parts.{FitTogether, HasNodes, arcs_in_rows, kind_of};

use crate::gates::{Counting, Waiting};
use csr_columns::{Csr, Parts, Projection, TypeColumns, View};
use graph_model::{Choice, List, Name, Orientation, Shared};
use par_degree::DegreeRun;
use std::alloc::Global;
use std::sync::atomic::Ordering;
use std::test::Fail;

// Two arcs between six nodes.
fn arcs(alloc: Global) -> Result<TypeColumns, Fail>
    ensures name { IfOk result (λ type. type.kind ≡ 82 ∷ []) }
    ensures nodes { IfOk result (HasNodes 6) }
    ensures arcs { IfOk result (λ type. arcs_in_rows type.arcs ≡ 2) }
{
    let csr = Csr::build(alloc, 6, &[(0, 1), (3, 4)], List::new(alloc))?;
    Ok(TypeColumns {
        kind: Name::read(alloc, b"R")?,
        orientation: Orientation::Natural,
        arcs: Shared::new(alloc, csr)?,
    })
}

fn parts(alloc: Global) -> Result<Parts, Fail>
    ensures { IfOk result FitTogether }
{
    let mut types = List::new(alloc);
    types.push(arcs(alloc)?)?;
    Ok(Parts {
        ids: List::from_vec(vec![in alloc; 10, 11, 12, 13, 14, 15]?),
        labels: List::new(alloc),
        columns: List::new(alloc),
        types,
    })
}

fn view(alloc: Global) -> Result<Shared<View>, Fail> {
    let projection = Projection::of(alloc, parts(alloc)?)?;
    let view = projection.view(alloc, &Choice::All, &Choice::All, None)?;
    Ok(Shared::new(alloc, view)?)
}

#[test]
fn parts_of_a_step_enter(rt: HostRuntime) -> Result<(), Fail> {
    let mut run = DegreeRun::start(rt.alloc(), view(rt.alloc())?)?;
    let gate = Counting::new();
    run.advance(&rt, 4, &gate)?;
    assert_eq!(rt; gate.entries.load(Ordering::SeqCst), 3);
    assert_eq!(rt; gate.numbers.load(Ordering::SeqCst), 6);
    Ok(())
}

#[test]
fn two_parts_of_a_step_run_at_once(rt: HostRuntime) -> Result<(), Fail> {
    let mut run = DegreeRun::start(rt.alloc(), view(rt.alloc())?)?;
    let gate = Waiting::new();
    run.advance(&rt, 2, &gate)?;
    assert_eq!(rt; gate.met.load(Ordering::SeqCst), 1);
    Ok(())
}
