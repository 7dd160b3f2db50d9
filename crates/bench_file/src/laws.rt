//! Laws of bench files. Each function is a law: it does nothing, and its clauses are proved of the definitions.

ghost use Rattle.std.specs.Prelude.{◌≡◌, ◌⊎◌, ◌*◌, ◌≤◌, ℕ, List, All, AllPairs, ◌≢◌, length, true};
ghost use Rattle.decisions.specs.Decisions.{Decides};
ghost use Rattle.bench_model.specs.ValidBench.{most_buses};
ghost use Rattle.bench_file.specs.declared.plan.Plan.{Plan};
ghost use Rattle.bench_file.specs.declared.plan.PlannedBus.{PlannedBus};
ghost use Rattle.bench_file.specs.declared.setting.Setting.{Setting};
ghost use Rattle.bench_file.specs.Settings.{least, greatest};
ghost use Rattle.bench_file.specs.LineMeaning.{is_bus_name, is_file_name, is_file_name_or_none};
ghost use Rattle.bench_file.specs.PlanOf.{most_items, planned, IsPlan, IsFault, IsPlannedBus};

/// Each file has one plan or one faulty line, and never both.
pub fn one_plan_or_one_fault()
    ensures { Decides IsPlan IsFault }
{}

/// A plan has 1 to 16 buses of different names, each with names of its forms, and each number is in its range.
pub fn limits_of_a_plan()
    ensures some_bus { (bytes : List ℕ) (plan : Plan) → IsPlan bytes plan → 1 ≤ length plan.buses }
    ensures buses { (bytes : List ℕ) (plan : Plan) → IsPlan bytes plan → length plan.buses ≤ most_buses }
    ensures names { (bytes : List ℕ) (plan : Plan) → IsPlan bytes plan
        → AllPairs (λ (a b : PlannedBus). a.name ≢ b.name) plan.buses }
    ensures forms { (bytes : List ℕ) (plan : Plan) → IsPlan bytes plan → All IsPlannedBus plan.buses }
    ensures least { (bytes : List ℕ) (plan : Plan) (setting : Setting) → IsPlan bytes plan
        → least setting ≤ planned setting plan }
    ensures greatest { (bytes : List ℕ) (plan : Plan) (setting : Setting) → IsPlan bytes plan
        → planned setting plan ≤ greatest setting }
    ensures items { (bytes : List ℕ) (plan : Plan) → IsPlan bytes plan
        → plan.ring * length plan.buses ≤ most_items }
{}
