//! The repeated parts of statements: what follows one after another up to a closing sign.

ghost use Rattle.std.specs.Prelude.{◌≡◌, ℕ, List, Option};
ghost use Rattle.sig_text.specs.declared.token.Token.{Token};
ghost use Rattle.ldf_grammar.specs.Forms.{until};
ghost use Rattle.ldf_grammar.specs.Gives.{Gives};
ghost use Rattle.ldf_grammar.specs.declared.parts.Stop.TheVariants.{Memory};

use multiplex_tree::List;
use sig_text::Token;
use std::alloc::{AllocFailed, Global};
use token_forms::literal_at;

/// Why a part was not read.
#[derive(Clone, Copy, Debug, PartialEq, Eq)]
pub(crate) enum Stop {
    /// The tokens are not of its form.
    Form,
    Memory,
}

impl<T: Drop> From<AllocFailed<T>> for Stop {
    ghost from_gives = { λ _ stop. stop ≡ Memory };

    fn from(_failed: AllocFailed<T>) -> Stop {
        Stop::Memory
    }
}

/// A part that may be repeated.
pub(crate) trait Part: Sized + Drop {
    /// The form of the part in a text.
    ghost form: { List ℕ → List Token → Option (Self × List Token) };

    /// The part at the front of the tokens, and the tokens after it.
    fn read<'a>(
        alloc: Global,
        bytes: &[u8],
        tokens: &'a [Token],
    ) -> Result<(Self, &'a [Token]), Stop>
        ensures { Gives result (form bytes.now tokens.now) };
}

/// All parts up to the closing sign, and the tokens after it.
pub(crate) fn parts_until<'a, T: Part>(
    alloc: Global,
    bytes: &[u8],
    close: &[u8],
    tokens: &'a [Token],
) -> Result<(List<T>, &'a [Token]), Stop>
    ensures { Gives result (until bytes.now close.now (T.form bytes.now) tokens.now) }
{
    let mut parts = Vec::new(alloc);
    let mut rest = tokens;
    loop {
        if let Some(after) = literal_at(bytes, close, rest) {
            return Ok((List::of(parts), after));
        }
        let (part, after) = T::read(alloc, bytes, rest)?;
        // A part takes a token at least.
        if after.len() >= rest.len() {
            return Err(Stop::Form);
        }
        parts.push(part)?;
        rest = after;
    }
}
