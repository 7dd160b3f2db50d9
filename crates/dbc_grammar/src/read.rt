//! The database of a text.

ghost use Rattle.std.specs.Prelude.{◌≡◌, ◌⊎◌, ◌↔◌, ℕ, Bool, List, IfOk, IfErr, IsOkAnd, IsErrOf, IsTrue, IsUtf8, false};
ghost use Rattle.multiplex_tree.specs.declared.mark.Mark.{Mark};
ghost use Rattle.multiplex_tree.specs.declared.mark.Link.{Link};
ghost use Rattle.multiplex_tree.specs.Fault.{IsTree, IsFault};
ghost use Rattle.bench_model.specs.declared.database.Database.{Database};
ghost use Rattle.dbc_grammar.specs.declared.fault.DbcFault.TheVariants.{Memory};
ghost use Rattle.bench_model.specs.Limits.{IsMadeDatabase};
ghost use Rattle.bench_model.specs.Check.{IsValid};
ghost use Rattle.sig_text.specs.Tokens.{IsTokens};
ghost use Rattle.dbc_grammar.specs.declared.fault.DbcFault.{DbcFault as AnyFault};
ghost use Rattle.dbc_grammar.specs.Contract.{IsDatabaseOf, HasFault, IsFaultOrMemory};
ghost use Rattle.sig_text.specs.declared.token.Token.{Token};
ghost use Rattle.dbc_grammar.specs.Kept.{IsKeptOf};
ghost use Rattle.dbc_grammar.specs.Naming.{Noted};
ghost use Rattle.dbc_grammar.specs.Rows.{AreRowsOf};
ghost use Rattle.dbc_grammar.specs.Reads.{IsLexOrMemory, IsTreeFault, IsMessageOf, IsTreelessFault, AreMessagesOf, IsCheckOrMemory};

use crate::DbcFault;
use crate::keys::{fault_id, key_of};
use crate::laws::database_is_unique;
use crate::row::Row;
use crate::rows::rows_of;
use crate::statement::MessageForm;
use crate::statements::{Kept, read_statements};
use bench_model::{CheckFault, Database, Message, Text, Valid, check};
use multiplex_tree::{List, MuxFault, Tree, resolve, trees_of_marks};
use sig_text::{LexFault, Token, tokens};
use std::alloc::Global;
use std::collections::VecDeque;
use std::str;
use token_forms::token_text;

/// The tokens of the text.
fn tokens_of(alloc: Global, bytes: &[u8]) -> Result<Vec<Token>, DbcFault>
    ensures ok { IfOk result (λ list. IsTokens bytes.now false list.items) }
    ensures fault { IfErr result (IsLexOrMemory bytes.now) }
{
    match tokens(alloc, bytes, false) {
        Ok(list) => Ok(list),
        Err(LexFault::Memory) => Err(DbcFault::Memory),
        Err(fault) => Err(DbcFault::Lex { fault }),
    }
}

/// The fault of a message whose signals make no tree.
fn mux_fault(alloc: Global, bytes: &[u8], message: &MessageForm, fault: MuxFault) -> DbcFault
    ensures { (marks : List Mark) (links : List Link) → IsFault marks links fault →
        IsTreeFault bytes.now message.now marks links result }
{
    let MuxFault::At { signal, why } = fault else {
        return DbcFault::Memory;
    };
    let Some(form) = message.signals.items().get(signal) else {
        return DbcFault::Memory;
    };
    match Text::of(alloc, token_text(bytes, form.name)) {
        Ok(signal) => DbcFault::Mux {
            id: fault_id(message.heading.id),
            signal,
            why,
        },
        Err(_failed) => DbcFault::Memory,
    }
}

/// The tree of a message's row.
fn tree_of(alloc: Global, bytes: &[u8], message: &MessageForm, row: &Row) -> Result<Tree, DbcFault>
    ensures tree { IfOk result (λ tree. IsTree row.now.marks.items row.now.links.items tree.parents) }
    ensures fault { IfErr result (IsTreeFault bytes.now message.now row.now.marks.items row.now.links.items) }
{
    match resolve(alloc, &row.marks, &row.links) {
        Ok(tree) => Ok(tree),
        Err(fault) => Err(mux_fault(alloc, bytes, message, fault)),
    }
}

/// The message of a statement and its row.
fn message_of(
    alloc: Global,
    bytes: &[u8],
    form: &MessageForm,
    row: Row,
) -> Result<Message, DbcFault>
    ensures ok { IfOk result (IsMessageOf bytes.now form.now row) }
    ensures fault { IfErr result (IsTreeFault bytes.now form.now row.marks.items row.links.items) }
{
    let tree = tree_of(alloc, bytes, form, &row)?;
    let Ok(name) = Text::of(alloc, token_text(bytes, form.heading.name)) else {
        return Err(DbcFault::Memory);
    };
    let Row { signals, .. } = row;
    Ok(Message {
        name,
        key: key_of(form.heading.id),
        length: form.heading.byte_count,
        signals: List::of(signals),
        tree,
    })
}

/// The messages of the statements and their rows, of which there is one for each.
fn messages_of(
    alloc: Global,
    bytes: &[u8],
    forms: &[MessageForm],
    rows: VecDeque<Row>,
) -> Result<Vec<Message>, DbcFault>
    ensures ok { (utf8 : Bool) (noted : Noted) → AreRowsOf bytes.now utf8 noted forms.now rows.items →
        IfOk result (λ messages. AreMessagesOf bytes.now utf8 noted forms.now messages.items) }
    ensures fault { (utf8 : Bool) (noted : Noted) → AreRowsOf bytes.now utf8 noted forms.now rows.items →
        IfErr result (IsTreelessFault bytes.now noted forms.now) }
{
    let mut left = rows;
    let mut messages = Vec::new(alloc);
    for form in forms {
        let Some(row) = left.pop_front() else {
            return Err(DbcFault::Memory);
        };
        messages.push(message_of(alloc, bytes, form, row)?)?;
    }
    Ok(messages)
}

/// The valid database of the messages.
fn check_database(alloc: Global, database: Database) -> Result<Valid, DbcFault>
    requires { IsMadeDatabase database }
    ensures ok { IfOk result (λ valid. valid.database ≡ database) }
    ensures valid { IfOk result (λ valid. IsValid valid.database) }
    ensures fault { IfErr result (IsCheckOrMemory database) }
{
    match check(alloc, database) {
        Ok(valid) => {
            let _checked = valid.database();
            Ok(valid)
        }
        Err(CheckFault::Memory) => Err(DbcFault::Memory),
        Err(fault) => Err(DbcFault::Check { fault }),
    }
}

/// Whether the whole text is UTF-8.
fn is_utf8(bytes: &[u8]) -> bool
    ensures { IsTrue result ↔ IsUtf8 bytes.now }
{
    str::from_utf8(bytes).is_ok()
}

/// The database that statements make.
fn build_database(alloc: Global, bytes: &[u8], kept: Kept) -> Result<Valid, DbcFault>
    ensures ok { (tokens : List Token) → IsKeptOf bytes.now tokens kept → IsTokens bytes.now false tokens →
        IfOk result (λ valid. IsDatabaseOf bytes.now valid.database) }
    ensures fault { (tokens : List Token) → IsKeptOf bytes.now tokens kept → IsTokens bytes.now false tokens →
        IfErr result (IsFaultOrMemory bytes.now) }
{
    trees_of_marks();
    let utf8 = is_utf8(bytes);
    let rows = rows_of(alloc, bytes, utf8, &kept.messages, &kept.notes)?;
    let messages = messages_of(alloc, bytes, &kept.messages, rows)?;
    check_database(
        alloc,
        Database {
            messages: List::of(messages),
        },
    )
}

/// The database of a DBC file, where it is a list of whole statements that make a valid one; else its first fault.
pub fn read_dbc(alloc: Global, bytes: &[u8]) -> Result<Valid, DbcFault>
    // What is answered is true of the bytes.
    ensures ok { IfOk result (λ valid. IsDatabaseOf bytes.now valid.database) }
    ensures fault { IfErr result (IsFaultOrMemory bytes.now) }

    // What is true of the bytes is answered, unless memory runs out.
    ensures every_database { (d : Database) → IsDatabaseOf bytes.now d →
        IsOkAnd result (λ valid. valid.database ≡ d) ⊎ IsErrOf result Memory }
    ensures every_fault { (fault : AnyFault) → HasFault bytes.now fault →
        IsErrOf result fault ⊎ IsErrOf result Memory }
{
    let read = read_text(alloc, bytes);
    database_is_unique();
    read
}

/// The database of the bytes, or their fault.
fn read_text(alloc: Global, bytes: &[u8]) -> Result<Valid, DbcFault>
    ensures ok { IfOk result (λ valid. IsDatabaseOf bytes.now valid.database) }
    ensures fault { IfErr result (IsFaultOrMemory bytes.now) }
{
    let tokens = tokens_of(alloc, bytes)?;
    let kept = read_statements(alloc, bytes, &tokens)?;
    build_database(alloc, bytes, kept)
}
