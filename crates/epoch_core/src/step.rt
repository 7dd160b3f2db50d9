//! The steps of the machine: each is one load or store of one word, or hands a seat on. A seat is the right to
//! act as the loader or as one of the lanes.

/// One atomic step: the five of the letter L are a lane's, the four of the letter W the loader's, and in the last
/// two a seat is handed on.
#[derive(Clone, Copy, Debug, PartialEq, Eq)]
pub enum Step {
    /// A lane loads the epoch.
    L1 {
        lane: u32,
    },
    /// It stores one more than that epoch into its pin.
    L2 {
        lane: u32,
    },
    /// It loads the published word, and holds the region that it names from then on.
    L3 {
        lane: u32,
    },
    /// It loads a word of the region that it holds.
    L4 {
        lane: u32,
        place: usize,
    },
    /// It stores 0 into its pin, and holds nothing from then on.
    L5 {
        lane: u32,
    },
    /// The loader stores a word of a region that no lane can hold.
    W1 {
        region: u32,
        place: usize,
        word: u64,
    },
    /// It stores the published word: the first `length` words of the region are the image of the next version.
    W2 {
        region: u32,
        length: usize,
    },
    /// It stores the next epoch.
    W3,
    /// It loads a lane's pin, to learn whether the lane can still hold a retired region.
    W4 {
        region: u32,
        lane: u32,
    },
    /// A lane's seat is split off from the others, to go to a worker of its own.
    S,
    /// An idle lane's seat is joined to the others again.
    J {
        lane: u32,
    },
}
