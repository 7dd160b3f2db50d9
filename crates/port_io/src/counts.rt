//! Counts that stay as they are at their end.
ghost use Rattle.std.specs.Prelude.{◌≡◌};
ghost use Rattle.port_io.specs.Causes.{raised};

/// Raises a count by one.
pub(crate) fn raise(count: &mut u64)
    ensures { count.new ≡ raised count.old }
{
    *count = count.saturating_add(1);
}
