//! What a lane does, from its load of the epoch to its last read.

ghost use Rattle.std.specs.Prelude.{◌≡◌};
ghost use Rattle.epoch_core.specs.Steps.{loaded_epoch};

/// Where a lane is between its load of an epoch and the end of its reads.
#[derive(Clone, Copy, Debug, PartialEq, Eq)]
pub enum LaneState {
    /// It reads nothing, and its pin is 0.
    Idle,
    /// It has loaded the epoch, and not announced it yet: the loader may pass it by.
    Loaded {
        epoch: u64,
    },
    /// Its pin is one more than the epoch.
    Pinned {
        epoch: u64,
    },
    /// It reads the region in which it found the version published.
    Holding {
        epoch: u64,
        version: u32,
        region: u32,
    },
}

impl LaneState {
    /// The epoch that the lane has loaded, 0 where it is idle.
    pub(crate) fn epoch(&self) -> u64
        ensures { result ≡ loaded_epoch self.now }
    {
        match *self {
            LaneState::Idle => 0,
            LaneState::Loaded { epoch } => epoch,
            LaneState::Pinned { epoch } => epoch,
            LaneState::Holding { epoch, .. } => epoch,
        }
    }
}
