//! A bench with other databases.

ghost use Rattle.std.specs.Prelude.{◌≡◌, ◌≢◌, ℕ, find, position, map, All, IfOk};
ghost use Rattle.std.specs.List.{enumerate_from};
ghost use Rattle.bench_model.specs.Check.{IsValid};
ghost use Rattle.bench_model.specs.ValidBench.{IsValidBench, HasBusesOf};
ghost use Rattle.bench_model.specs.Replaced.{names_bus, database_after, bus_after, bench_after};

use crate::copies::DeepCopy;
use crate::{Bench, Bus, Database, Valid};
use multiplex_tree::List;
use std::alloc::{AllocError, Global};

/// The database that a bus is to have.
#[derive(Debug, Drop)]
pub struct Change {
    /// The bus's place in the bench.
    pub bus: u32,
    pub database: Valid,
}

/// The place of the first change that names the bus at this place.
fn change_of(place: usize, changes: &[Change]) -> Option<usize>
    ensures { result ≡ position (names_bus place) changes.now }
{
    changes
        .iter()
        .position(|change| change.bus as usize == place)
}

/// The database that the bus at this place is to have: the one of the first change that names it, which is taken out,
/// or a copy of its own.
fn database_at(
    alloc: Global,
    place: usize,
    own: &Database,
    changes: &mut Vec<Change>,
) -> Result<Database, AllocError>
    ensures database { IfOk result (λ d. d ≡ database_after own.now (find (names_bus place) changes.old.items)) }
    ensures others { (other : ℕ) → other ≢ place →
        find (names_bus other) changes.new.items ≡ find (names_bus other) changes.old.items }
{
    match change_of(place, changes) {
        Some(found) => {
            let Change { bus: _, database } = changes.remove(found);
            Ok(database.into_database())
        }
        None => Ok(own.deep_copy(alloc)?),
    }
}

/// The buses after the changes.
fn buses_after(
    alloc: Global,
    buses: &[Bus],
    mut changes: Vec<Change>,
) -> Result<Vec<Bus>, AllocError>
    ensures { IfOk result (λ after. after.items ≡ map (bus_after changes.items) (enumerate_from 0 buses.now)) }
{
    let mut after = Vec::with_capacity(alloc, buses.len())?;
    for (place, bus) in buses.iter().enumerate() {
        let database = database_at(alloc, place, &bus.database, &mut changes)?;
        after.push(Bus {
            name: bus.name.copy(alloc)?,
            kind: bus.kind,
            database,
        })?;
    }
    Ok(after)
}

impl Bench {
    /// The bench in which each bus that a change names has the change's database, and all else is the same. Of two
    /// changes of one bus the first counts, and a change of no bus has no effect.
    pub fn replace(&self, alloc: Global, changes: Vec<Change>) -> Result<Bench, AllocError>
        ensures after { IfOk result (λ bench. bench ≡ bench_after self.now changes.items) }
        ensures kept { IfOk result (λ bench. HasBusesOf bench self.now) }
        ensures databases { All (λ b. IsValid b.database) self.now.buses
            → IfOk result (λ bench. All (λ b. IsValid b.database) bench.buses) }
        ensures valid { IsValidBench self.now → IfOk result IsValidBench }
    {
        let buses = buses_after(alloc, self.buses.items(), changes)?;
        Ok(Bench {
            buses: List::of(buses),
        })
    }
}
