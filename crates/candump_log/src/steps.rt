//! What a reader of lines does, in parts: each over the bytes held and the place alone.
ghost use Rattle.std.specs.Prelude.{◌≡◌, ◌^◌, ◌≤◌, length};
ghost use Rattle.candump_log.specs.LinesState.{source_state};
ghost use Rattle.candump_log.specs.LinesView.{is_ready};
ghost use Rattle.candump_log.specs.Steps.{IsInLog, TakesWhole, TakesLast, LetsGo, FetchesSome};

use crate::held::{CHUNK, Held};
use crate::log_line::LINE_LIMIT;
use crate::place::{LinesRefused, Place, Routed};
use crate::routing::route;
use bench_model::Text;
use memchr::memchr;
use port_io::Source;

/// The most bytes that are taken of a log.
const LOG_LIMIT: u64 = 1_099_511_627_776;

/// Whether a line can be given: a whole one, or what is left at the end.
pub(crate) fn is_ready(ended: bool, held: &[u8], long: bool) -> bool
    ensures { result ≡ is_ready ended held.now long }
{
    match memchr(b'\n', held) {
        Some(_) => true,
        None => ended && (!held.is_empty() || long),
    }
}

/// Takes the first whole line.
#[inline(always)]
pub(crate) fn take_whole(held: &mut Held, place: &mut Place, names: &[Text]) -> Option<Routed>
    requires log { IsInLog place.old held.old }
    requires names { length names.now ≤ 2 ^ 32 }
    ensures { TakesWhole names.now held.old place.old result held.new place.new }
{
    let at = memchr(b'\n', held.bytes())?;
    let routed = route(names, place.long, &held.bytes()[..at]);
    held.pass(at + 1);
    place.start = place.taken - held.bytes().len() as u64;
    place.given += 1;
    place.long = false;
    Some(routed)
}

/// Takes what is left as the last line.
pub(crate) fn take_last(held: &mut Held, place: &mut Place, names: &[Text]) -> Option<Routed>
    requires log { IsInLog place.old held.old }
    requires names { length names.now ≤ 2 ^ 32 }
    ensures { TakesLast names.now held.old place.old result held.new place.new }
{
    if held.bytes().is_empty() && !place.long {
        return None;
    }
    let routed = route(names, place.long, held.bytes());
    held.clear();
    place.start = place.taken;
    place.given += 1;
    place.long = false;
    Some(routed)
}

/// Lets go what is held where it is more than a line may have.
pub(crate) fn let_go(held: &mut Held, place: &mut Place)
    ensures { LetsGo held.old place.old held.new place.new }
{
    if held.bytes().len() > LINE_LIMIT {
        held.clear();
        place.long = true;
    }
}

/// Reads once more, up to the limit of the log, and says whether the source has said its end.
pub(crate) fn fetch<S: Source>(
    source: &mut S,
    held: &mut Held,
    place: &mut Place,
) -> Result<bool, LinesRefused>
    requires short { length held.old ≤ 512 }
    requires log { IsInLog place.old held.old }

    ensures fetches { FetchesSome
        (source_state (S.left source.old) (S.taken source.old) (S.read_faults source.old) (S.ended source.old))
        held.old place.old result
        (source_state (S.left source.new) (S.taken source.new) (S.read_faults source.new) (S.ended source.new))
        held.new place.new }
    ensures other { S.other source.new ≡ S.other source.old }
{
    if place.taken == LOG_LIMIT {
        return Err(LinesRefused::TooLong);
    }
    let most = (LOG_LIMIT - place.taken).min(CHUNK as u64) as usize;
    let Ok(count) = held.read_from(source, most) else {
        return Err(LinesRefused::ReadFault);
    };
    place.taken += count as u64;
    Ok(count == 0)
}
