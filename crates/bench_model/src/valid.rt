//! Databases that passed `check`.

ghost use Rattle.std.specs.Prelude.{◌≡◌};
ghost use Rattle.bench_model.specs.Check.{IsValid};
ghost use Rattle.bench_model.specs.Props.{IsValid-prop};

use crate::Database;

/// A database that passed `check`: it is valid, and stays so.
#[derive(Debug, Drop)]
pub struct Valid {
    database: Database,
    ghost valid: { IsValid database } by { IsValid-prop database },
}

impl Valid {
    /// A database that keeps every rule.
    pub(crate) fn of(database: Database) -> Valid
        requires { IsValid database }
        ensures { result.database ≡ database }
    {
        Valid { database }
    }

    /// The database, which is valid.
    pub fn database(&self) -> &Database
        ensures same { result.now ≡ self.now.database }
        ensures valid { IsValid result.now }
    {
        &self.database
    }

    /// The database itself.
    pub fn into_database(self) -> Database
        ensures same { result ≡ self.database }
        ensures valid { IsValid result }
    {
        let Valid { database } = self;
        database
    }
}
