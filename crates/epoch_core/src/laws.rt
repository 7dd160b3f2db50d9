//! What holds after every list of allowed steps, in whatever order the lanes and the loader make them. Each
//! function is a law: it does nothing, and its clauses are proved of the machine that `State` keeps to.

ghost use Rattle.std.specs.Prelude.{◌≡◌, ◌≢◌, ℕ, ◌+◌, ◌≤◌, List, length, All, None};
ghost use Rattle.epoch_core.specs.declared.step.Step.{Step};
ghost use Rattle.epoch_core.specs.declared.step.Step.TheVariants.{W1};
ghost use Rattle.epoch_core.specs.Machine.{Machine, first, words_of, image_of, retirement};
ghost use Rattle.epoch_core.specs.Steps.{May, Holds, HoldsNothing, after};
ghost use Rattle.epoch_core.specs.Rule.{RegionRule, BeginsWith};
ghost use Rattle.epoch_core.specs.Runs.{run, AreAllowed, AreWithinLimits, IsReached, Publishes};

/// The rule of the machine holds in the first state, and after every list of steps each of which was allowed.
pub fn the_rule_holds_in_every_schedule()
    ensures first { (regions lanes : ℕ) (image : List ℕ) → AreWithinLimits regions lanes → RegionRule (first regions lanes image) }
    ensures every { (regions lanes : ℕ) (image : List ℕ) (steps : List Step) → AreWithinLimits regions lanes
        → AreAllowed (first regions lanes image) steps → RegionRule (run (first regions lanes image) steps) }
{}

/// A lane that holds a version reads its image whole: as long as it holds it, the region begins with the image
/// that the version had when the lane held it first, however many versions are published in the meantime.
pub fn a_held_image_stays_whole()
    ensures { (machine : Machine) (steps : List Step) (lane epoch version region : ℕ)
        → IsReached machine → AreAllowed machine steps → Holds machine lane epoch version region
        → Holds (run machine steps) lane epoch version region
        → BeginsWith (words_of (run machine steps) region) (image_of machine version) }
{}

/// No word of a region is stored while a lane holds it, and no step that is allowed changes the region's words.
pub fn a_held_region_is_not_stored()
    ensures words { (machine : Machine) (step : Step) (lane epoch version region : ℕ)
        → IsReached machine → Holds machine lane epoch version region → May machine step
        → words_of (after machine step) region ≡ words_of machine region }
    ensures not_stored { (machine : Machine) (lane epoch version region place word : ℕ)
        → IsReached machine → Holds machine lane epoch version region → ¬ May machine (W1 region place word) }
{}

/// The published region always begins with the last image, which is that of the published version.
pub fn the_published_region_holds_the_last_image()
    ensures count { (machine : Machine) → IsReached machine → length machine.images ≡ machine.version + 1 }
    ensures words { (machine : Machine) → IsReached machine
        → BeginsWith (words_of machine machine.region) (image_of machine machine.version) }
{}

/// A version never goes down, and its image stays the same from then on.
pub fn a_version_never_goes_down()
    ensures version { (machine : Machine) (steps : List Step) → machine.version ≤ (run machine steps).version }
    ensures image { (machine : Machine) (steps : List Step) (version : ℕ)
        → IsReached machine → AreAllowed machine steps → version ≤ machine.version
        → image_of (run machine steps) version ≡ image_of machine version }
{}

/// What a lane holds later is no older version than what it held before, nor than what was published when it
/// held nothing.
pub fn a_lane_never_goes_back()
    ensures held { (machine : Machine) (steps : List Step) (lane epoch version region later next place : ℕ)
        → IsReached machine → AreAllowed machine steps → Holds machine lane epoch version region
        → Holds (run machine steps) lane later next place → version ≤ next }
    ensures published { (machine : Machine) (steps : List Step) (lane epoch version region : ℕ)
        → AreAllowed machine steps → HoldsNothing machine lane
        → Holds (run machine steps) lane epoch version region → machine.version ≤ version }
{}

/// A region that is not the published one and was not retired was never published: no image was ever held in
/// it, so its lanes need no clearing.
pub fn a_region_not_retired_was_never_published()
    ensures { (regions lanes : ℕ) (image : List ℕ) (steps : List Step) (region : ℕ)
        → AreWithinLimits regions lanes → AreAllowed (first regions lanes image) steps
        → region ≢ (run (first regions lanes image) steps).region
        → retirement (run (first regions lanes image) steps) region ≡ None
        → (region ≢ 0) × All (λ step. ¬ Publishes region step) steps }
{}
