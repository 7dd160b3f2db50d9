//! Laws of valid databases. They have no code.

ghost use Rattle.std.specs.Prelude.{◌≡◌, ◌⊎◌, ◌↔◌, All};
ghost use Rattle.bench_model.specs.declared.fault.CheckFault.{CheckFault};
ghost use Rattle.bench_model.specs.declared.database.Database.{Database};
ghost use Rattle.bench_model.specs.Limits.{IsMadeDatabase};
ghost use Rattle.bench_model.specs.Decodable.{IsDecodable};
ghost use Rattle.bench_model.specs.Check.{IsFirstFault, IsValid};
ghost use Rattle.bench_model.specs.Rules.{KeepsRules};

/// A database that readers made is valid or has a first fault, only one of both, and only one fault.
pub fn verdict_is_unique()
    ensures some { (d : Database) → IsMadeDatabase d →
        IsValid d ⊎ ((fault : CheckFault) × IsFirstFault d fault) }
    ensures one { (d : Database) (f g : CheckFault) → IsFirstFault d f → IsFirstFault d g → f ≡ g }
    ensures never_both { (d : Database) (fault : CheckFault) → IsValid d → ¬ IsFirstFault d fault }
{}

/// The messages of a valid database can be decoded.
pub fn valid_is_decodable()
    ensures { (d : Database) → IsValid d → All IsDecodable d.messages }
{}

/// A database that readers made is valid exactly where it keeps the rules, each stated over whole lists.
pub fn valid_keeps_rules()
    ensures keeps { (d : Database) → IsValid d → KeepsRules d }
    ensures valid { (d : Database) → IsMadeDatabase d → KeepsRules d → IsValid d }
{}
