//! What the links to each signal say together.

ghost use Rattle.std.specs.Prelude.{◌≡◌, ℕ, ◌<◌, [], ◌∷◌, ◌++◌, List, IfOk, All, slice_index_or, vec_len, length};
ghost use Rattle.multiplex_tree.specs.declared.claim.Claim.TheVariants.{Unlinked};
ghost use Rattle.multiplex_tree.specs.declared.mark.Link.{Link};
ghost use Rattle.multiplex_tree.specs.Claims.{claim_of};
ghost use Rattle.multiplex_tree.specs.Parents.{links_to};

use crate::{Link, List, Range};
use std::alloc::{AllocError, Global};
use std::mem;

/// What the links to one signal say together.
#[derive(Debug, Drop)]
pub(crate) enum Claim {
    /// There is none.
    Unlinked,
    /// All name this parent, or none; with the ranges of all, in order.
    Linked {
        parent: Option<usize>,
        ranges: List<Range>,
    },
    /// They name different parents.
    Divided,
}

impl Claim {
    /// What the links say together once `link` comes after those before it.
    fn join(self, alloc: Global, link: &Link) -> Result<Claim, AllocError>
        ensures { IfOk result (λ claim. (links : List Link) → self ≡ claim_of links → claim ≡ claim_of (links ++ link.now ∷ [])) }
    {
        match self {
            Claim::Unlinked => Ok(Claim::Linked {
                parent: link.parent,
                ranges: link.ranges.copy(alloc)?,
            }),
            Claim::Linked { parent, ranges } => {
                if parent == link.parent {
                    Ok(Claim::Linked {
                        parent,
                        ranges: ranges.append(link.ranges.items())?,
                    })
                } else {
                    Ok(Claim::Divided)
                }
            }
            Claim::Divided => Ok(Claim::Divided),
        }
    }
}

/// So many signals without links.
fn unlinked_claims(alloc: Global, count: usize) -> Result<Vec<Claim>, AllocError>
    ensures len { IfOk result (λ claims. vec_len claims ≡ count) }
    ensures each { IfOk result (λ claims. (i : ℕ) → slice_index_or claims.items i Unlinked ≡ Unlinked) }
{
    let mut claims = Vec::new(alloc);
    for _ in 0..count {
        claims.push(Claim::Unlinked)?;
    }
    Ok(claims)
}

/// What the links to each of `count` signals say together.
pub(crate) fn claims_of(
    alloc: Global,
    count: usize,
    links: &[Link],
) -> Result<Vec<Claim>, AllocError>
    requires { All (λ l. l.child < count) links.now }
    ensures len { IfOk result (λ claims. vec_len claims ≡ count) }
    ensures each { IfOk result (λ claims. (i : ℕ) → slice_index_or claims.items i Unlinked ≡ claim_of (links_to i links.now)) }
{
    let mut claims = unlinked_claims(alloc, count)?;
    for link in links {
        let before = mem::replace(&mut claims[link.child], Claim::Unlinked);
        claims[link.child] = before.join(alloc, link)?;
    }
    Ok(claims)
}
