//! The first state.

ghost use Rattle.std.specs.Prelude.{◌≡◌, ◌-◌, ◌≤◌, [], ◌∷◌, replicate, true, false, IfOk};
ghost use Rattle.epoch_core.specs.Machine.{first};
ghost use Rattle.epoch_core.specs.Rule.{RegionRule};
ghost use Rattle.epoch_core.specs.Runs.{AreWithinLimits};

use crate::lane::LaneState;
use crate::list::List;
use crate::state::State;
use std::alloc::{AllocError, Global};

impl State {
    /// The state at the start: the image is published as version 0 in region 0, the other of the 2 to 8 regions
    /// are empty, and the 1 to 16 lanes are idle.
    pub fn first(
        alloc: Global,
        regions: u32,
        lanes: u32,
        image: &[u64],
    ) -> Result<State, AllocError>
        requires { AreWithinLimits regions lanes }
        ensures first { IfOk result (λ state. state ≡ first regions lanes image.now) }
        ensures rule { IfOk result RegionRule }
    {
        let state = State {
            epoch: 0,
            version: 0,
            region: 0,
            pins: repeat(alloc, 0, lanes)?,
            regions: first_regions(alloc, regions, image)?,
            retired: repeat(alloc, None, regions)?,
            images: first_images(alloc, image)?,
            writing: None,
            lanes: repeat(alloc, LaneState::Idle, lanes)?,
            cleared: first_clearings(alloc, regions, lanes)?,
        };
        state.keeps_rule();
        Ok(state)
    }
}

/// A value so many times.
fn repeat<T: Copy + Drop>(alloc: Global, value: T, count: u32) -> Result<List<T>, AllocError>
    ensures { IfOk result (λ list. list ≡ replicate count value) }
{
    let mut list = List::of(Vec::new(alloc));
    for _ in 0..count {
        list.push(value)?;
    }
    Ok(list)
}

fn first_images(alloc: Global, image: &[u64]) -> Result<List<List<u64>>, AllocError>
    ensures { IfOk result (λ list. list ≡ image.now ∷ []) }
{
    let mut images = List::of(Vec::new(alloc));
    images.push(List::of(Vec::from_slice(alloc, image)?))?;
    Ok(images)
}

/// The image and then the other regions, which are empty.
#[tactic(auto, using(crate::proofs::ListLaws::one_more))]
fn first_regions(alloc: Global, count: u32, image: &[u64]) -> Result<List<List<u64>>, AllocError>
    requires { 1 ≤ count }
    ensures { IfOk result (λ list. list ≡ image.now ∷ replicate (count - 1) []) }
{
    let mut regions = first_images(alloc, image)?;
    for _ in 1..count {
        regions.push(List::of(Vec::new(alloc)))?;
    }
    Ok(regions)
}

/// No lane for the first region, and every lane for each other one.
#[tactic(auto, using(crate::proofs::ListLaws::one_more))]
fn first_clearings(alloc: Global, regions: u32, lanes: u32) -> Result<List<List<bool>>, AllocError>
    requires { 1 ≤ regions }
    ensures { IfOk result (λ list. list ≡ replicate lanes false ∷ replicate (regions - 1) (replicate lanes true)) }
{
    let mut cleared = List::of(Vec::new(alloc));
    cleared.push(repeat(alloc, false, lanes)?)?;
    for _ in 1..regions {
        cleared.push(repeat(alloc, true, lanes)?)?;
    }
    Ok(cleared)
}
