//! The effect of each step. Each function changes what its step names, and keeps the rule of the machine.

ghost use Rattle.std.specs.Prelude.{◌≡◌, OnOk, OnErr};
ghost use Rattle.epoch_core.specs.Machine.{is_cleared};
ghost use Rattle.epoch_core.specs.Rule.{RegionRule};
ghost use Rattle.epoch_core.specs.Steps.{May, TakesMemory, after, loaded_epoch, is_past};

use crate::lane::LaneState;
use crate::state::State;
use crate::step::Step;
use std::alloc::AllocError;

impl State {
    /// Takes a step. Only a stored word by which the region grows, and a publication, take memory; after want of it
    /// the state is as it was.
    pub fn take(&mut self, step: &Step) -> Result<(), AllocError>
        requires { May self.old step.now }
        ensures ok { OnOk result (self.new ≡ after self.old step.now) }
        ensures err { OnErr result (self.new ≡ self.old) }
        ensures rule { RegionRule self.new }

        // Every other step is taken whatever memory is left.
        ensures memory { OnErr result (TakesMemory self.old step.now) }
    {
        let taken = self.make(step);
        self.keeps_rule();
        taken
    }

    fn make(&mut self, step: &Step) -> Result<(), AllocError>
        requires { May self.old step.now }
        ensures ok { OnOk result (self.new ≡ after self.old step.now) }
        ensures err { OnErr result (self.new ≡ self.old) }
        ensures memory { OnErr result (TakesMemory self.old step.now) }
    {
        match *step {
            Step::L1 { lane } => {
                self.load_epoch(lane);
                Ok(())
            }
            Step::L2 { lane } => {
                self.store_pin(lane);
                Ok(())
            }
            Step::L3 { lane } => {
                self.take_hold(lane);
                Ok(())
            }
            Step::L5 { lane } => {
                self.let_go(lane);
                Ok(())
            }
            Step::W1 {
                region,
                place,
                word,
            } => self.store_word(region, place, word),
            Step::W2 { region, length } => self.publish(region, length),
            Step::W3 => {
                self.store_epoch();
                Ok(())
            }
            Step::W4 { region, lane } => {
                self.load_pin(region, lane);
                Ok(())
            }
            Step::L4 { .. } | Step::S | Step::J { .. } => Ok(()),
        }
    }

    #[tactic(auto, using(crate::proofs::LaneLaws::load_epoch_kept))]
    fn load_epoch(&mut self, lane: u32)
        requires { May self.old (Step.L1 lane) }
        ensures { self.new ≡ after self.old (Step.L1 lane) }
    {
        let epoch = self.epoch;
        self.lanes.set(lane as usize, LaneState::Loaded { epoch });
    }

    #[tactic(auto, using(crate::proofs::LaneLaws::is_loaded))]
    fn store_pin(&mut self, lane: u32)
        requires { May self.old (Step.L2 lane) }
        ensures { self.new ≡ after self.old (Step.L2 lane) }
    {
        let epoch = self.lane(lane).epoch();
        self.pins.set(lane as usize, epoch + 1);
        self.lanes.set(lane as usize, LaneState::Pinned { epoch });
    }

    fn take_hold(&mut self, lane: u32)
        requires { May self.old (Step.L3 lane) }
        ensures { self.new ≡ after self.old (Step.L3 lane) }
    {
        let epoch = self.lane(lane).epoch();
        let version = self.version;
        let region = self.region;
        self.lanes.set(
            lane as usize,
            LaneState::Holding {
                epoch,
                version,
                region,
            },
        );
    }

    fn let_go(&mut self, lane: u32)
        requires { May self.old (Step.L5 lane) }
        ensures { self.new ≡ after self.old (Step.L5 lane) }
    {
        self.pins.set(lane as usize, 0);
        self.lanes.set(lane as usize, LaneState::Idle);
    }

    fn store_word(&mut self, region: u32, place: usize, word: u64) -> Result<(), AllocError>
        requires { May self.old (Step.W1 region place word) }
        ensures ok { OnOk result (self.new ≡ after self.old (Step.W1 region place word)) }
        ensures err { OnErr result (self.new ≡ self.old) }
        ensures memory { OnErr result (TakesMemory self.old (Step.W1 region place word)) }
    {
        self.regions.store_in(region as usize, place, word)?;
        self.writing = Some(region);
        Ok(())
    }

    fn publish(&mut self, region: u32, length: usize) -> Result<(), AllocError>
        requires { May self.old (Step.W2 region length) }
        ensures ok { OnOk result (self.new ≡ after self.old (Step.W2 region length)) }
        ensures err { OnErr result (self.new ≡ self.old) }
    {
        let image = self.regions.prefix_in(region as usize, length)?;
        self.images.push(image)?;
        let epoch = self.epoch;
        self.retired.set(self.region as usize, Some(epoch));
        self.retired.set(region as usize, None);
        self.cleared.clear_in(region as usize);
        self.version += 1;
        self.region = region;
        self.writing = None;
        Ok(())
    }

    #[tactic(auto, using(crate::proofs::LoaderLaws::store_epoch_kept))]
    fn store_epoch(&mut self)
        requires { May self.old Step.W3 }
        ensures { self.new ≡ after self.old Step.W3 }
    {
        self.epoch += 1;
    }

    #[tactic(auto, using(crate::proofs::LoaderLaws::load_pin_kept))]
    fn load_pin(&mut self, region: u32, lane: u32)
        requires { May self.old (Step.W4 region lane) }
        ensures { self.new ≡ after self.old (Step.W4 region lane) }
    {
        let pin = self.pins.items()[lane as usize];
        let is_cleared = self.is_cleared(region, lane) || cannot_hold(pin, self.retirement(region));
        self.cleared
            .set_in(region as usize, lane as usize, is_cleared);
    }

    fn is_cleared(&self, region: u32, lane: u32) -> bool
        ensures { result ≡ is_cleared self.now region lane }
    {
        match self.cleared.items().get(region as usize) {
            Some(lanes) => match lanes.items().get(lane as usize) {
                Some(is_cleared) => *is_cleared,
                None => false,
            },
            None => false,
        }
    }
}

/// Whether a lane with this pin cannot hold a region retired at this epoch. A lane that announced the epoch of
/// the retirement itself may have found the region still published, so only a later one is past it.
fn cannot_hold(pin: u64, retired: Option<u64>) -> bool
    ensures { result ≡ is_past pin retired }
{
    match retired {
        Some(epoch) => pin == 0 || epoch < pin - 1,
        None => false,
    }
}
