//! Laws of the generated log. They have no code.

ghost use Rattle.std.specs.Prelude.{◌≡◌, ◌++◌, ◌+◌, ℕ};
ghost use Rattle.byte_forms.specs.Lines.{all_lines};
ghost use Rattle.mill_log.specs.GeneratedLog.{log_from};

/// A log is the frames up to any of them and then the others, and so are its lines.
pub fn pieces_are_the_log()
    ensures bytes { (seed first n m : ℕ) →
        log_from seed first (n + m) ≡ log_from seed first n ++ log_from seed (first + n) m }
    ensures lines { (seed first n m : ℕ) →
        all_lines (log_from seed first (n + m))
        ≡ all_lines (log_from seed first n) ++ all_lines (log_from seed (first + n) m) }
{}
