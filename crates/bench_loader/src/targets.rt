//! The buses that a command names.

ghost use Rattle.std.specs.Prelude.{◌≡◌, ◌≤◌, length, position};
ghost use Rattle.std.specs.Str.{bytes_eq};
ghost use Rattle.bench_model.specs.declared.database.Bus.{Bus};
ghost use Rattle.bench_model.specs.ValidBench.{most_buses};
ghost use Rattle.bench_loader.specs.LoadLine.{most_pairs};
ghost use Rattle.bench_loader.specs.Targets.{place_of_bus};
ghost use Rattle.bench_loader.specs.LoadView.{FindsTarget, FindsTargets};

use crate::load_line::Pair;
use bench_model::{Bus, Kind, Text};
use std::alloc::{AllocError, AllocFailed, Global};
use thiserror::Error;

/// A bus that a command names.
#[derive(Clone, Copy, Debug, PartialEq, Eq)]
pub struct Target {
    /// The bus's place in the bench.
    pub bus: u32,
    pub kind: Kind,
}

/// Why a command names no buses of the bench.
#[derive(Debug, Drop, Error)]
pub(crate) enum BusRefused {
    /// The pair at this place is the first that names no bus.
    #[error("the pair at {place} names no bus")]
    Unknown { place: u32, name: Text },
    #[error("out of memory")]
    Memory,
}

impl From<AllocError> for BusRefused {
    ghost use Rattle.std.specs.Prelude.{◌≡◌};
    ghost use Rattle.bench_loader.specs.declared.targets.BusRefused.TheVariants as refusals;

    ghost from_gives = { λ _ refused. refused ≡ refusals.Memory };

    fn from(_: AllocError) -> BusRefused {
        BusRefused::Memory
    }
}

impl<T: Drop> From<AllocFailed<T>> for BusRefused {
    ghost use Rattle.std.specs.Prelude.{◌≡◌};
    ghost use Rattle.bench_loader.specs.declared.targets.BusRefused.TheVariants as refusals;

    ghost from_gives = { λ _ refused. refused ≡ refusals.Memory };

    fn from(_: AllocFailed<T>) -> BusRefused {
        BusRefused::Memory
    }
}

/// The place of the bus of this name.
fn place_of(buses: &[Bus], name: &[u8]) -> Option<usize>
    ensures { result ≡ place_of_bus buses.now name.now }
{
    buses.iter().position(|bus| bus.name.bytes() == name)
}

/// The bus that a pair names.
fn target_of(buses: &[Bus], pair: &Pair) -> Option<Target>
    requires few { length buses.now ≤ most_buses }
    ensures { FindsTarget buses.now pair.now result }
{
    let place = place_of(buses, pair.bus.bytes())?;
    Some(Target {
        bus: place as u32,
        kind: buses[place].kind,
    })
}

/// The buses that the pairs name, in order.
pub(crate) fn find_targets(
    alloc: Global,
    buses: &[Bus],
    pairs: &[Pair],
) -> Result<Vec<Target>, BusRefused>
    requires few { length buses.now ≤ most_buses }
    requires pairs { length pairs.now ≤ most_pairs }
    ensures { FindsTargets buses.now pairs.now result }
{
    let mut targets = Vec::with_capacity(alloc, pairs.len())?;
    for (place, pair) in pairs.iter().enumerate() {
        match target_of(buses, pair) {
            Some(target) => targets.push(target)?,
            None => {
                return Err(BusRefused::Unknown {
                    place: place as u32,
                    name: pair.bus.copy(alloc)?,
                });
            }
        }
    }
    Ok(targets)
}
