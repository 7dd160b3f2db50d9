//! The state of the machine, and which steps it allows.

ghost use Rattle.std.specs.Prelude.{◌≡◌, ◌↔◌, ℕ, IsTrue, length};
ghost use Rattle.epoch_core.specs.Machine.{lane_state, words_of, retirement};
ghost use Rattle.epoch_core.specs.Rule.{RegionRule};
ghost use Rattle.epoch_core.specs.Steps.{May, NamesWhatIsThere, IsIdle, EveryLaneIsCleared, NoOtherIsWritten};

use crate::lane::LaneState;
use crate::list::List;
use crate::step::Step;
use std::marker::Model;

/// A state of the machine. It keeps the rule of the machine, whatever steps were taken.
#[derive(Debug, Drop)]
pub struct State {
    /// The epoch that the loader has stored.
    pub epoch: u64,
    /// The published version.
    pub version: u32,
    /// The region that holds the published version's image.
    pub region: u32,
    /// By lane, its pin: 0, or one more than the epoch that it announced.
    pub pins: List<u64>,
    /// By region, its words.
    pub regions: List<List<u64>>,
    /// By region, the epoch at which it was retired, where it was since it was last published.
    pub retired: List<Option<u64>>,
    /// By version, its image.
    pub images: List<List<u64>>,
    /// The region being written.
    pub writing: Option<u32>,
    /// By lane, what it does.
    pub lanes: List<LaneState>,
    /// By region and lane, whether the loader knows that the lane cannot hold the region.
    pub cleared: List<List<bool>>,
}

impl Model for State {
    ghost use Rattle.epoch_core.specs.Machine.{Machine};
    ghost use Rattle.epoch_core.specs.Rule.{RegionRule};

    ghost Value = { Machine };

    ghost view = { λ s. record {
      epoch = s.epoch;
      version = s.version;
      region = s.region;
      pins = s.pins;
      regions = s.regions;
      retired = s.retired;
      images = s.images;
      writing = s.writing;
      lanes = s.lanes;
      cleared = s.cleared;
    } };

    ghost invariant = { λ s. RegionRule (record {
      epoch = s.epoch;
      version = s.version;
      region = s.region;
      pins = s.pins;
      regions = s.regions;
      retired = s.retired;
      images = s.images;
      writing = s.writing;
      lanes = s.lanes;
      cleared = s.cleared;
    }) };
}

impl State {
    /// Nothing is done: the clause says what holds of every state.
    pub fn keeps_rule(&self)
        ensures { RegionRule self.now }
    {
        let _ = &self.epoch;
    }

    /// Whether a step may be taken. A step that names a lane or a region that is not there may not.
    #[tactic(auto, using(crate::proofs::RangeLaws::in_range))]
    pub fn may(&self, step: &Step) -> bool
        ensures exact { IsTrue result ↔ May self.now step.now }
        ensures in_range { IsTrue result → NamesWhatIsThere self.now step.now }
    {
        match *step {
            Step::L1 { lane } | Step::J { lane } => self.is_idle(lane),
            Step::L2 { lane } => matches!(self.lane(lane), LaneState::Loaded { .. }),
            Step::L3 { lane } => matches!(self.lane(lane), LaneState::Pinned { .. }),
            Step::L4 { lane, place } => self.may_load_word(lane, place),
            Step::L5 { lane } => matches!(self.lane(lane), LaneState::Holding { .. }),
            Step::W1 { region, place, .. } => self.may_store_word(region, place),
            Step::W2 { region, length } => self.may_publish(region, length),
            Step::W3 => self.epoch < self.version as u64,
            Step::W4 { region, lane } => self.may_load_pin(region, lane),
            Step::S => true,
        }
    }

    /// What a lane does; a lane that is not there is idle.
    pub(crate) fn lane(&self, lane: u32) -> LaneState
        ensures { result ≡ lane_state self.now lane }
    {
        match self.lanes.items().get(lane as usize) {
            Some(state) => *state,
            None => LaneState::Idle,
        }
    }

    fn is_idle(&self, lane: u32) -> bool
        ensures { IsTrue result ↔ IsIdle self.now lane }
    {
        match self.lanes.items().get(lane as usize) {
            Some(LaneState::Idle) => true,
            _ => false,
        }
    }

    fn may_load_word(&self, lane: u32, place: usize) -> bool
        ensures { IsTrue result ↔ May self.now (Step.L4 lane place) }
    {
        match self.lane(lane) {
            LaneState::Holding { region, .. } => place < self.length_of(region),
            _ => false,
        }
    }

    /// How many words a region has; none where it is not there.
    fn length_of(&self, region: u32) -> usize
        ensures { result ≡ length (words_of self.now region) }
    {
        match self.regions.items().get(region as usize) {
            Some(words) => words.items().len(),
            None => 0,
        }
    }

    fn is_every_lane_cleared(&self, region: u32) -> bool
        ensures { IsTrue result ↔ EveryLaneIsCleared self.now region }
    {
        match self.cleared.items().get(region as usize) {
            Some(lanes) => lanes.items().iter().all(|is_cleared| *is_cleared),
            None => true,
        }
    }

    fn may_store_word(&self, region: u32, place: usize) -> bool
        ensures { (word : ℕ) → (IsTrue result ↔ May self.now (Step.W1 region place word)) }
    {
        (region as usize) < self.regions.items().len()
            && region != self.region
            && self.is_every_lane_cleared(region)
            && self.is_no_other_written(region)
            && place <= self.length_of(region)
    }

    fn is_no_other_written(&self, region: u32) -> bool
        ensures { IsTrue result ↔ NoOtherIsWritten self.now region }
    {
        match self.writing {
            Some(written) => written == region,
            None => true,
        }
    }

    fn is_written(&self, region: u32) -> bool
        ensures { IsTrue result ↔ (self.now.writing ≡ Some region) }
    {
        match self.writing {
            Some(written) => written == region,
            None => false,
        }
    }

    fn may_publish(&self, region: u32, length: usize) -> bool
        ensures { IsTrue result ↔ May self.now (Step.W2 region length) }
    {
        (region as usize) < self.regions.items().len()
            && self.is_written(region)
            && length <= self.length_of(region)
            && self.epoch == self.version as u64
            && self.version < u32::MAX
    }

    /// The epoch at which a region was retired.
    pub(crate) fn retirement(&self, region: u32) -> Option<u64>
        ensures { result ≡ retirement self.now region }
    {
        match self.retired.items().get(region as usize) {
            Some(retired) => *retired,
            None => None,
        }
    }

    fn may_load_pin(&self, region: u32, lane: u32) -> bool
        ensures { IsTrue result ↔ May self.now (Step.W4 region lane) }
    {
        (lane as usize) < self.lanes.items().len() && self.retirement(region).is_some()
    }
}
