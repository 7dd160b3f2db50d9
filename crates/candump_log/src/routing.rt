//! The place of a line's interface among names.
ghost use Rattle.std.specs.Prelude.{◌≡◌, ◌^◌, ◌<◌, ◌≤◌, length};
ghost use Rattle.candump_log.specs.Routing.{name_place};
ghost use Rattle.candump_log.specs.Steps.{route};

use crate::log_line::{LogLine, read_line};
use crate::place::Routed;
use bench_model::Text;

/// The first name that equals the word.
fn name_place(names: &[Text], word: &[u8]) -> Option<u32>
    requires { length names.now ≤ 2 ^ 32 }
    ensures { result ≡ name_place names.now word.now }
{
    for (i, name) in names.iter().enumerate() {
        if name.bytes() == word {
            return Some(i as u32);
        }
    }
    None
}

/// What a piece says as a line, and the place of its interface; a bad line where bytes before it were let go.
#[inline(always)]
pub(crate) fn route(names: &[Text], long: bool, piece: &[u8]) -> Routed
    requires { length names.now ≤ 2 ^ 32 }
    ensures { result ≡ route names.now long piece.now }
{
    let bad = Routed {
        line: LogLine::Bad,
        place: None,
    };
    if long {
        return bad;
    }
    match read_line(piece) {
        Some((span, line)) => Routed {
            line,
            place: name_place(names, &piece[span.at..span.end]),
        },
        None => bad,
    }
}
