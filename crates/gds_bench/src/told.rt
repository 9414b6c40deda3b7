// What is told of rows.
ghost use Rattle.std.specs.Prelude.{◌<◌, length};

use crate::stop::Stop;
use csr_columns::Csr;
use graph_model::Name;

/// Prints how many nodes and arcs rows have, and a number that all their targets and values make.
pub(crate) fn tell(rt: &HostRuntime, work: &str, csr: &Csr) -> Result<(), Stop> {
    let key = Name::read(rt.alloc(), b"w")?;
    let digest = match csr.place_of(&key) {
        Some(place) => digest(csr, place),
        None => 0,
    };
    println!(rt; "{work} {} {} {digest}", csr.node_count(), csr.arc_count())?;
    Ok(())
}

// A number that the targets of rows and the values in a column make, in their order.
fn digest(csr: &Csr, place: usize) -> u64
    requires { place < length csr.now.columns }
{
    let mut sum: u64 = 0;
    for v in 0..csr.node_count() {
        for target in csr.row(v) {
            sum = sum.wrapping_mul(31).wrapping_add(u64::from(*target));
        }
        for value in csr.values(place, v) {
            sum = sum.wrapping_mul(31).wrapping_add(value.unsigned_abs());
        }
    }
    sum
}
