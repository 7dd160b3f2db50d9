//! Which bus is printed.
ghost use Rattle.std.specs.Prelude.{◌≡◌, ◌<◌, length};
ghost use Rattle.bus_text.specs.BusText.{bus_at};

use bench_model::{Bench, Kind};

/// A bus by its place in the bench, with its kind.
#[derive(Clone, Copy, Debug, PartialEq, Eq)]
pub struct BusPlace {
    pub place: u32,
    pub kind: Kind,
}

impl BusPlace {
    /// The bus at this place of a bench, which says its kind.
    pub fn of(bench: &Bench, place: u32) -> BusPlace
        requires { place < length bench.now.buses }
        ensures { result ≡ bus_at bench.now place }
    {
        BusPlace {
            place,
            kind: bench.buses.items()[place as usize].kind,
        }
    }
}
