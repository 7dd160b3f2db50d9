//! Where the words of a store lie, and the published word.
ghost use Rattle.std.specs.Prelude.{◌≡◌, ◌+◌, ◌<◌, ◌≤◌};
ghost use Rattle.region_store.specs.Layout.{pin_place, place_of, packed, version_in, region_in, size_in};
ghost use Rattle.region_store.specs.Layout.{most_regions, most_lanes, most_room};

pub(crate) const PUBLISHED: usize = 0;

pub(crate) const EPOCH: usize = 16;

const FIRST_PIN: usize = 32;

const PIN_STRIDE: usize = 16;

pub(crate) const FIRST_REGION: usize = 288;

const VERSION_WEIGHT: u64 = 4_294_967_296;

const REGION_WEIGHT: u64 = 16_777_216;

const REGION_SPAN: u64 = 256;

pub(crate) fn pin_word(lane: u32) -> usize
    requires { lane < most_lanes }
    ensures { result ≡ pin_place lane }
{
    FIRST_PIN + PIN_STRIDE * lane as usize
}

pub(crate) fn region_word(room: usize, region: u32) -> usize
    requires { (room ≤ most_room) × (region < most_regions) }
    ensures { result ≡ place_of room region 0 }
{
    FIRST_REGION + region as usize * room
}

pub(crate) fn pack(version: u32, region: u32, size: usize) -> u64
    requires { (size ≤ most_room) × (region < most_regions) }
    ensures { result ≡ packed version region size }
{
    u64::from(version) * VERSION_WEIGHT + u64::from(region) * REGION_WEIGHT + size as u64
}

/// The version, the region and the length of the image that the published word names.
#[derive(Clone, Copy)]
pub(crate) struct Published {
    pub version: u32,
    pub region: u32,
    pub size: usize,
}

pub(crate) fn unpack(word: u64) -> Published
    ensures { (result.version ≡ version_in word) × (result.region ≡ region_in word) × (result.size ≡ size_in word) }
{
    Published {
        version: (word / VERSION_WEIGHT) as u32,
        region: (word / REGION_WEIGHT % REGION_SPAN) as u32,
        size: (word % REGION_WEIGHT) as usize,
    }
}
