//! Writing a piece whole.
ghost use Rattle.port_io.specs.Causes.{HasCause};
ghost use Rattle.std.specs.Prelude.{◌≡◌};
ghost use Rattle.port_io.specs.Sink.{WritesPiece};

use crate::{Failed, Sink};

/// Writes all of `piece`, which may be empty. At `Failed` a part of it was written, and the sink's
/// count rose.
pub fn write_piece<K: Sink>(sink: &mut K, piece: &[u8]) -> Result<(), Failed>
    ensures written { WritesPiece (K.written sink.old) (K.written sink.new) result piece.now }
    ensures cause { HasCause (K.write_faults sink.old) (K.write_faults sink.new) result }
    ensures other { K.other sink.new ≡ K.other sink.old }
{
    let mut rest = piece;
    while !rest.is_empty() {
        let count = sink.write(rest)?;
        rest = &rest[count..];
    }
    Ok(())
}
