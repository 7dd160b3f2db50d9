//! What the objects in memory share: calls that fail by their numbers, and bytes copied as far as
//! there is room.
ghost use Rattle.std.specs.Prelude.{◌≡◌, ◌+◌, ◌≤◌, ◌-◌, ◌↔◌, ◌++◌, min, take, drop, length, Contains, IsTrue};
ghost use Rattle.port_io.specs.Causes.{raised};

use crate::counts::raise;

/// Whether the call of this number is to fail, and counts it.
pub(crate) fn is_failing(calls: &mut u64, fails: &[u64]) -> bool
    ensures fails { IsTrue result ↔ Contains fails.now calls.old }
    ensures counted { calls.new ≡ raised calls.old }
{
    let failing = fails.contains(calls);
    raise(calls);
    failing
}

/// Copies the first bytes of `from` to the front of `to`, `most` of them at most, and answers how
/// many.
pub(crate) fn copy_some(from: &[u8], most: usize, to: &mut [u8]) -> usize
    ensures count { result ≡ min (min most (length to.old)) (length from.now) }
    ensures copied { take result to.new ≡ take result from.now }
    ensures rest { drop result to.new ≡ drop result to.old }
{
    let count = most.min(to.len()).min(from.len());
    to[..count].copy_from_slice(&from[..count]);
    count
}

/// Writes the first bytes of `piece` over those of `room` from `place` on, `most` of them at most,
/// and answers how many.
pub(crate) fn write_over(room: &mut [u8], place: usize, piece: &[u8], most: usize) -> usize
    requires { place ≤ length room.old }
    ensures count { result ≡ min (min most (length piece.now)) (length room.old - place) }
    ensures written { take (place + result) room.new
        ≡ take place room.old ++ take result piece.now }
{
    copy_some(piece, most, &mut room[place..])
}
