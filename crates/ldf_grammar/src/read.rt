//! The database that a text describes.

ghost use Rattle.std.specs.Prelude.{◌≡◌, ◌⊎◌, true, IfOk, IfErr, IsOkAnd, IsErrOf};
ghost use Rattle.std.specs.Str.{is_utf8};
ghost use Rattle.sig_text.specs.Tokens.{IsTokens};
ghost use Rattle.bench_model.specs.declared.database.Database.{Database as AnyDatabase};
ghost use Rattle.bench_model.specs.Limits.{IsMadeDatabase};
ghost use Rattle.bench_model.specs.Check.{IsValid};
ghost use Rattle.ldf_grammar.specs.Described.{IsDatabaseOf, HasFault};
ghost use Rattle.ldf_grammar.specs.Answer.{Gathers, FailsToGather, IsLexOrMemory, IsCheckOrMemory};
ghost use Rattle.ldf_grammar.specs.declared.fault.LdfFault.{LdfFault as AnyFault};
ghost use Rattle.ldf_grammar.specs.declared.fault.LdfFault.TheVariants as faults;

use crate::LdfFault;
use crate::encodings::encodings_of;
use crate::laws::description_is_unique;
use crate::lookups::Lookups;
use crate::messages::messages_of;
use crate::run::statements_of;
use crate::statement::Statement;
use crate::unknown::check_names;
use bench_model::{CheckFault, Database, Valid, check};
use multiplex_tree::{List, signals_without_parents};
use sig_text::{LexFault, Token, tokens};
use std::alloc::Global;

/// The tokens of the text.
fn tokens_of(alloc: Global, bytes: &[u8]) -> Result<Vec<Token>, LdfFault>
    ensures ok { IfOk result (λ list. IsTokens bytes.now true list.items) }
    ensures fault { IfErr result (IsLexOrMemory bytes.now) }
{
    match tokens(alloc, bytes, true) {
        Ok(list) => Ok(list),
        Err(LexFault::Memory) => Err(LdfFault::Memory),
        Err(fault) => Err(LdfFault::Lex { fault }),
    }
}

/// Whether the whole text is UTF-8.
fn is_utf8(bytes: &[u8]) -> bool
    ensures { result ≡ is_utf8 bytes.now }
{
    match std::str::from_utf8(bytes) {
        Ok(_) => true,
        Err(_) => false,
    }
}

/// The database of the statements.
fn database_of(alloc: Global, bytes: &[u8], statements: &[Statement]) -> Result<Database, LdfFault>
    ensures ok { IfOk result (Gathers bytes.now statements.now) }
    ensures made { IfOk result IsMadeDatabase }
    ensures fault { IfErr result (FailsToGather bytes.now statements.now) }
{
    let utf8 = is_utf8(bytes);
    let encodings = encodings_of(alloc, bytes, utf8, statements)?;
    let lookups = Lookups::of(alloc, bytes, statements, &encodings)?;
    check_names(bytes, &lookups, statements)?;
    let messages = messages_of(alloc, bytes, &lookups, statements)?;
    signals_without_parents();
    Ok(Database {
        messages: List::of(messages),
    })
}

/// The database, where it keeps every rule.
fn check_database(alloc: Global, database: Database) -> Result<Valid, LdfFault>
    requires { IsMadeDatabase database }
    ensures ok { IfOk result (λ valid. (valid.database ≡ database) × IsValid database) }
    ensures fault { IfErr result (IsCheckOrMemory database) }
{
    match check(alloc, database) {
        Ok(valid) => Ok(valid),
        Err(CheckFault::Memory) => Err(LdfFault::Memory),
        Err(fault) => Err(LdfFault::Check { fault }),
    }
}

/// The database that the text describes, or its fault.
fn read(alloc: Global, bytes: &[u8]) -> Result<Valid, LdfFault>
    ensures ok { IfOk result (λ valid. IsDatabaseOf bytes.now valid.database) }
    ensures fault { IfErr result (λ fault. (fault ≡ faults.Memory) ⊎ HasFault bytes.now fault) }
{
    let list = tokens_of(alloc, bytes)?;
    let statements = statements_of(alloc, bytes, &list)?;
    let database = database_of(alloc, bytes, &statements)?;
    check_database(alloc, database)
}

/// The database that the text describes, or the text's one fault: the least of `LdfFault`'s numbers that applies.
pub fn read_ldf(alloc: Global, bytes: &[u8]) -> Result<Valid, LdfFault>
    // What is answered is true of the text.
    ensures ok { IfOk result (λ valid. IsDatabaseOf bytes.now valid.database) }
    ensures fault { IfErr result (λ fault. (fault ≡ faults.Memory) ⊎ HasFault bytes.now fault) }

    // What is true of the text is answered, unless memory runs out.
    ensures every_database { (database : AnyDatabase) → IsDatabaseOf bytes.now database →
        IsOkAnd result (λ valid. valid.database ≡ database) ⊎ IsErrOf result faults.Memory }
    ensures every_fault { (fault : AnyFault) → HasFault bytes.now fault →
        IsErrOf result fault ⊎ IsErrOf result faults.Memory }
{
    description_is_unique();
    read(alloc, bytes)
}
