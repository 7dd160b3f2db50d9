//! Laws of trees and of active signals, for the crates above.

ghost use Rattle.std.specs.Prelude.{◌≡◌, ℕ, ℤ, ◌+◌, ◌<◌, ◌&&◌, ◌↔◌, ◌⊎◌, List, Option, Some, None, Bool, true, false, All, length, replicate};
ghost use Rattle.multiplex_tree.specs.declared.fault.MuxWhy.{MuxWhy};
ghost use Rattle.multiplex_tree.specs.declared.fault.MuxFault.TheVariants.{At};
ghost use Rattle.multiplex_tree.specs.declared.mark.Mark.{Mark};
ghost use Rattle.multiplex_tree.specs.declared.mark.Link.{Link};
ghost use Rattle.multiplex_tree.specs.declared.mark.Parent.{Parent};
ghost use Rattle.multiplex_tree.specs.Chain.{most_parents, signals_above, ancestor, IsShallow};
ghost use Rattle.multiplex_tree.specs.Fault.{IsTree, IsFault};
ghost use Rattle.multiplex_tree.specs.Trees.{IsTreeOver};
ghost use Rattle.multiplex_tree.specs.Activity.{parent_at, selects, is_active_within, is_active, IsActive};

/// Marks and links have a tree or a fault, only one of both, and only one.
pub fn resolution_is_unique()
    ensures some { (marks : List Mark) (links : List Link) →
        ((t : List (Option Parent)) × IsTree marks links t)
        ⊎ ((s : ℕ) × (why : MuxWhy) × IsFault marks links (At s why)) }
    ensures tree { (marks : List Mark) (links : List Link) (a b : List (Option Parent)) →
        IsTree marks links a → IsTree marks links b → a ≡ b }
    ensures fault { (marks : List Mark) (links : List Link) (s t : ℕ) (why because : MuxWhy) →
        IsFault marks links (At s why) → IsFault marks links (At t because) → (s ≡ t) × (why ≡ because) }
    ensures never_both { (marks : List Mark) (links : List Link) (a : List (Option Parent)) (s : ℕ)
        (why : MuxWhy) → IsTree marks links a → ¬ IsFault marks links (At s why) }
{}

/// The trees over `n` signals are those that marks of `n` signals and links among them make.
pub fn trees_of_marks()
    ensures over { (marks : List Mark) (links : List Link) (parents : List (Option Parent)) →
        IsTree marks links parents → IsTreeOver (length marks) parents }
    ensures made { (n : ℕ) (parents : List (Option Parent)) → IsTreeOver n parents →
        (marks : List Mark) × (links : List Link) × (length marks ≡ n) × All (λ l. l.child < n) links
        × IsTree marks links parents }
{}

/// Signals without parents are a tree, in which all are active.
pub fn signals_without_parents()
    ensures tree { (n : ℕ) → IsTreeOver n (replicate n None) }
    ensures active { (n : ℕ) (raws : List (Option ℤ)) (i : ℕ) → is_active (replicate n None) raws i ≡ true }
{}

/// Which signals are active, from a signal to its parent.
pub fn activity_by_parents()
    ensures top { (parents : List (Option Parent)) (raws : List (Option ℤ)) (i : ℕ) →
        parent_at parents i ≡ None → is_active parents raws i ≡ true }
    ensures below { (parents : List (Option Parent)) (raws : List (Option ℤ)) (i : ℕ) (p : Parent) →
        IsShallow (signals_above parents) → parent_at parents i ≡ Some p →
        is_active parents raws i ≡ (is_active parents raws p.signal && selects raws p) }
    ensures relation { (parents : List (Option Parent)) (raws : List (Option ℤ)) (i : ℕ) →
        IsShallow (signals_above parents) → (is_active parents raws i ≡ true) ↔ IsActive parents raws i }
{}

/// The steps of a walk from a signal up to the top, for readers that go from parent to parent: what is known
/// of the signal `place` that is reached after `k` steps, and of the `n` levels that are left above it.
pub fn activity_by_steps()
    // Where the walk begins, where it goes on, and where it ends at the latest.
    ensures begins { (parents : List (Option Parent)) (i : ℕ) →
        ancestor (signals_above parents) 0 i ≡ Some i }
    ensures goes_on { (parents : List (Option Parent)) (k i place : ℕ) (p : Parent) →
        ancestor (signals_above parents) k i ≡ Some place → parent_at parents place ≡ Some p →
        ancestor (signals_above parents) (k + 1) i ≡ Some p.signal }
    ensures ends { (parents : List (Option Parent)) (i place : ℕ) → IsShallow (signals_above parents) →
        ancestor (signals_above parents) most_parents i ≡ Some place → parent_at parents place ≡ None }

    // What each step says of whether the signal is active.
    ensures top { (parents : List (Option Parent)) (raws : List (Option ℤ)) (n i : ℕ) →
        parent_at parents i ≡ None → is_active_within n parents raws i ≡ true }
    ensures selected { (parents : List (Option Parent)) (raws : List (Option ℤ)) (n m i : ℕ) (p : Parent) →
        m ≡ n + 1 → parent_at parents i ≡ Some p → selects raws p ≡ true →
        is_active_within m parents raws i ≡ is_active_within n parents raws p.signal }
    ensures passed_over { (parents : List (Option Parent)) (raws : List (Option ℤ)) (n m i : ℕ) (p : Parent) →
        m ≡ n + 1 → parent_at parents i ≡ Some p → selects raws p ≡ false →
        is_active_within m parents raws i ≡ false }
{}
