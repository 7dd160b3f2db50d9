//! Laws of the lines of the generated log. They have no code of their own, but rest on laws of the crates below.

ghost use Rattle.std.specs.Prelude.{◌≡◌, ◌≤◌, ◌*◌, ℕ, map};
ghost use Rattle.byte_forms.specs.Lines.{all_lines};
ghost use Rattle.candump_log.specs.LineOf.{line_of};
ghost use Rattle.mill_log.specs.GeneratedLog.{generated_log};
ghost use Rattle.bench_mill.specs.GeneratedFrames.{most_frames, generated_frames};
ghost use Rattle.bench_mill.specs.Totals.{mill_totals};

use candump_log::one_line;
use mill_log::pieces_are_the_log;

/// The lines of the generated log say, one by one, the frames that the generator makes, up to far more frames than `mill` can
/// be asked for. A message of the generated database matches each frame, and has four signals in it.
pub fn the_log_is_the_frames_of_the_generator()
    ensures lines { (frames : ℕ) → frames ≤ most_frames
        → map line_of (all_lines (generated_log frames)) ≡ generated_frames frames }
    ensures matched { (frames : ℕ) → frames ≤ most_frames → (mill_totals frames).frames ≡ frames }
    ensures signals { (frames : ℕ) → frames ≤ most_frames → (mill_totals frames).signals ≡ 4 * frames }
{
    pieces_are_the_log();
    one_line();
}
