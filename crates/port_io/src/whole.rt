//! Reading a file whole.
ghost use Rattle.std.specs.Prelude.{◌≡◌, ◌+◌, ◌<◌, ◌≤◌, ◌↔◌, ◌++◌, List, ℕ, false, length, vec_len, Some, IfOk, OnOk, OnErr, IfSome, IsErrOf};
ghost use Rattle.std.specs.Io.KnownBytes.{prepend_known};
ghost use Rattle.port_io.specs.Causes.{Explains};
ghost use Rattle.port_io.specs.Library.{named, OpensFile, strays_after};
ghost use Rattle.port_io.specs.Transfers.{AnswersTaken};

use crate::Library;
use std::alloc::Global;
use thiserror::Error;

/// How many bytes one read asks for.
const CHUNK: usize = 4096;

/// Why a file was not read whole.
#[derive(Clone, Copy, Debug, PartialEq, Eq, Error)]
pub enum WholeRefused {
    /// The library could not begin it.
    #[error("the file could not be opened")]
    Open,
    /// The library could not give more of it.
    #[error("the file could not be read")]
    Read,
    /// It has more bytes than the limit.
    #[error("the file is too long")]
    Long,
    /// There was no memory for its bytes.
    #[error("out of memory")]
    Memory,
}

/// Why a chunk was not kept.
#[derive(Clone, Copy)]
enum Overrun {
    Long,
    Memory,
}

impl From<Overrun> for WholeRefused {
    ghost use Rattle.port_io.specs.Overrun.{whole_refused_of};

    ghost from_gives = { λ overrun refused. refused ≡ whole_refused_of overrun };

    fn from(overrun: Overrun) -> WholeRefused {
        match overrun {
            Overrun::Long => WholeRefused::Long,
            Overrun::Memory => WholeRefused::Memory,
        }
    }
}

/// Appends a chunk, unless there would be more than `limit` bytes then.
fn keep_chunk(bytes: &mut Vec<u8>, chunk: &[u8], limit: usize) -> Result<(), Overrun>
    requires { vec_len bytes.old ≤ limit }
    ensures kept { OnOk result (bytes.new.items ≡ bytes.old.items ++ chunk.now) }
    ensures within { OnOk result (vec_len bytes.new ≤ limit) }
    ensures same { OnErr result (bytes.new.items ≡ bytes.old.items) }
    ensures long { IsErrOf result Overrun.Long ↔ (limit < vec_len bytes.old + length chunk.now) }
{
    if chunk.len() > limit - bytes.len() {
        return Err(Overrun::Long);
    }
    match bytes.extend_from_slice(chunk) {
        Ok(()) => Ok(()),
        Err(_) => Err(Overrun::Memory),
    }
}

/// Reads the file of that name whole: its bytes, where they are at most `limit`.
pub fn read_whole<B: Library>(
    alloc: Global,
    library: &mut B,
    name: &str,
    limit: usize,
) -> Result<Vec<u8>, WholeRefused>
    ensures whole { IfOk result (λ bytes. IfSome (B.files library.old) (λ files.
        named files name.now ≡ Some bytes.items)) }

    // The bytes taken and those left are the named file, and `Long` comes exactly where more than
    // `limit` were taken.
    ensures taken { ¬ IsErrOf result WholeRefused.Open → (moved : List ℕ)
        × OpensFile (B.files library.old) name.now (prepend_known moved (B.left library.new))
        × AnswersTaken limit moved WholeRefused.Long result }

    ensures open_cause { Explains (B.open_faults library.old) (B.open_faults library.new)
        (IsErrOf result WholeRefused.Open) }
    ensures read_cause { Explains (B.more_faults library.old) (B.more_faults library.new)
        (IsErrOf result WholeRefused.Read) }
    ensures unread { IsErrOf result WholeRefused.Open →
        B.more_faults library.new ≡ B.more_faults library.old }

    // The answer is `Open` exactly where no file is begun afterwards.
    ensures begun { (B.begun library.new ≡ false) ↔ IsErrOf result WholeRefused.Open }
    ensures strays { B.strays library.new
        ≡ strays_after (B.files library.old) name.now (B.strays library.old) }
    ensures files { B.files library.new ≡ B.files library.old }
{
    if library.begin(name).is_err() {
        return Err(WholeRefused::Open);
    }
    let mut bytes = Vec::new(alloc);
    let mut chunk = [0u8; CHUNK];
    loop {
        let Ok(count) = library.more(&mut chunk) else {
            return Err(WholeRefused::Read);
        };
        if count == 0 {
            return Ok(bytes);
        }
        keep_chunk(&mut bytes, &chunk[..count], limit)?;
    }
}
