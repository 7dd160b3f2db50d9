//! What `check` answers at the edge of each limit, and which of several faults it names.

ghost use Rattle.std.specs.Prelude.{All, IfOk};
ghost use Rattle.bench_model.specs.Limits.{IsCoding, IsMade};

use super::building;
use super::signals::SIGNAL;
use bench_model::{CheckFault, CheckWhy, Database, Key, Message, Signal, Text, check};
use multiplex_tree::List;
use std::alloc::{AllocError, Global};
use std::process::Abort;
use std::test::Fail;

mod edges;

use edges::{Edge, digits_of, made, messages_at, plain_tree, scaled_coding, signal_of};

/// An edge, and the answer in words.
const EDGES: &[(Edge, &'static str)] = &[
    (Edge::Length(1_785), "valid"),
    (Edge::Length(1_786), "1 of 0"),
    (Edge::Size(0), "1 of 0, 0"),
    (Edge::Size(1), "valid"),
    (Edge::Size(64), "valid"),
    (Edge::Size(65), "1 of 0, 0"),
    (Edge::Start(14_279), "valid"),
    (Edge::Start(14_280), "1 of 0, 0"),
    (Edge::Float(true), "4 of 0, 0"),
    (Edge::Float(false), "valid"),
    (Edge::MessageName(0), "5 of 0"),
    (Edge::MessageName(1), "valid"),
    (Edge::MessageName(128), "valid"),
    (Edge::MessageName(129), "5 of 0"),
    (Edge::SignalName(0), "5 of 0, "),
    (Edge::SignalName(1), "valid"),
    (Edge::SignalName(128), "valid"),
    (
        Edge::SignalName(129),
        "5 of 0, nnnnnnnnnnnnnnnnnnnnnnnnnnnnnnnnnnnnnnnnnnnnnnnnnnnnnnnnnnnnnnnnn\
         nnnnnnnnnnnnnnnnnnnnnnnnnnnnnnnnnnnnnnnnnnnnnnnnnnnnnnnnnnnnnnnn",
    ),
    (Edge::Unit(1_024), "valid"),
    (Edge::Unit(1_025), "5 of 0, 0"),
    (Edge::LabelText(1_024), "valid"),
    (Edge::LabelText(1_025), "5 of 0, 0"),
    (Edge::EntryText(1_024), "valid"),
    (Edge::EntryText(1_025), "5 of 0, 0"),
    (Edge::EntryUnit(1_024), "valid"),
    (Edge::EntryUnit(1_025), "5 of 0, 0"),
    (Edge::Signals(1_024), "valid"),
    (Edge::Signals(1_025), "5 of 0"),
];

/// The edges of what a signal may have 65,536 of.
const CHOICE_EDGES: &[(Edge, &'static str)] = &[
    (Edge::Labels(65_536), "valid"),
    (Edge::Labels(65_537), "5 of 0, 0"),
    (Edge::Entries(65_536), "valid"),
    (Edge::Entries(65_537), "5 of 0, 0"),
    (Edge::Ranges(65_536), "valid"),
    (Edge::Ranges(65_537), "5 of 0, 1"),
];

/// The edges of the number of messages.
const MESSAGE_EDGES: &[(Edge, &'static str)] = &[
    (Edge::Messages(65_536), "valid"),
    (Edge::Nameless(65_537), "5"),
];

/// A signal's name, its size and whether it is a floating point number.
type SignalRow = (&'static str, u32, bool);

/// A message's identifier, whether it is extended, its length, its name and its signals.
type MessageRow = (u32, bool, u32, &'static str, &'static [SignalRow]);

/// Messages, and the answer in words.
const ORDERS: &[(&[MessageRow], &'static str)] = &[
    // The second of two keys is named, the first that is one: the second 2 is before the second 1.
    (
        &[
            (1, false, 8, "A", &[]),
            (2, false, 8, "B", &[]),
            (2, false, 8, "C", &[]),
            (1, false, 8, "D", &[]),
        ],
        "2 of 2",
    ),
    // So it is with names.
    (
        &[(
            1,
            false,
            8,
            "A",
            &[
                ("S", 8, false),
                ("T", 8, false),
                ("T", 8, false),
                ("S", 8, false),
            ],
        )],
        "3 of 1, T",
    ),
    // Keys that differ in `extended` alone are different, and names of two messages may be the same.
    (
        &[
            (1, false, 8, "A", &[("S", 8, false)]),
            (1, true, 8, "A", &[("S", 8, false)]),
        ],
        "valid",
    ),
    (&[(1, true, 8, "A", &[]), (1, true, 8, "B", &[])], "2 of x1"),
    // The rules follow one another, also where the later rule is broken by an earlier message.
    (
        &[
            (1, false, 8, "A", &[("S", 8, true)]),
            (1, false, 1_786, "B", &[]),
        ],
        "1 of 1",
    ),
    (
        &[
            (1, false, 8, "A", &[("S", 8, false), ("S", 8, false)]),
            (1, false, 8, "B", &[]),
        ],
        "2 of 1",
    ),
    (
        &[
            (1, false, 8, "A", &[("R", 8, true)]),
            (2, false, 8, "B", &[("S", 8, false), ("S", 8, false)]),
        ],
        "3 of 2, S",
    ),
    (
        &[
            (1, false, 8, "", &[]),
            (2, false, 8, "B", &[("S", 8, true)]),
        ],
        "4 of 2, S",
    ),
    // Within one rule the messages follow one another, each before its signals.
    (
        &[
            (1, false, 8, "A", &[("S", 65, false)]),
            (2, false, 1_786, "B", &[]),
        ],
        "1 of 1, S",
    ),
    (&[(1, false, 1_786, "A", &[("S", 0, false)])], "1 of 1"),
    (&[(1, false, 8, "", &[("", 8, false)])], "5 of 1"),
];

fn signal_of_row(alloc: Global, row: &SignalRow) -> Result<Signal, AllocError>
    ensures { IfOk result (λ signal. IsCoding signal.coding) }
{
    let name = Text::of(alloc, row.0.as_bytes())?;
    let coding = scaled_coding(alloc, 0, 0, 0)?;
    Ok(signal_of(name, 0, row.1, row.2, coding))
}

fn signals_of(alloc: Global, rows: &[SignalRow]) -> Result<Vec<Signal>, AllocError>
    ensures { IfOk result (λ signals. All (λ s. IsCoding s.coding) signals.items) }
{
    let mut signals = Vec::new(alloc);
    for row in rows {
        signals.push(signal_of_row(alloc, row)?)?;
    }
    Ok(signals)
}

fn message_of(alloc: Global, row: &MessageRow) -> Result<Message, Fail>
    ensures { IfOk result IsMade }
{
    let (id, extended, length, name, rows) = *row;
    let name = Text::of(alloc, name.as_bytes())?;
    let signals = signals_of(alloc, rows)?;
    let tree = plain_tree(alloc, signals.len())?;
    Ok(made(name, Key { extended, id }, length, signals, tree))
}

fn messages_of(alloc: Global, rows: &[MessageRow]) -> Result<Vec<Message>, Fail>
    ensures { IfOk result (λ messages. All IsMade messages.items) }
{
    let mut messages = Vec::new(alloc);
    for row in rows {
        messages.push(message_of(alloc, row)?)?;
    }
    Ok(messages)
}

fn word_before(key: &Key) -> &'static [u8] {
    if key.extended { b" of x" } else { b" of " }
}

/// Appends ` of ` and the identifier, with `x` where it is extended.
fn push_key(alloc: Global, key: &Key, out: &mut Vec<u8>) -> Result<(), AllocError> {
    let digits = digits_of(alloc, key.id)?;
    out.extend_from_slice(word_before(key))?;
    out.extend_from_slice(&digits)
}

/// Appends `, ` and the signal's name.
fn push_name(name: &Text, out: &mut Vec<u8>) -> Result<(), AllocError> {
    out.extend_from_slice(b", ")?;
    out.extend_from_slice(name.bytes())
}

/// Appends the number of the rule, and what of the message and the signal is known.
fn push_rule(
    alloc: Global,
    why: CheckWhy,
    message: &Option<Key>,
    signal: &Option<Text>,
    out: &mut Vec<u8>,
) -> Result<(), AllocError> {
    out.push(b'0' + why as u8)?;
    if let Some(key) = message {
        push_key(alloc, key, out)?;
    }
    if let Some(name) = signal {
        push_name(name, out)?;
    }
    Ok(())
}

/// The fault in words, or `valid`: the number of the rule, ` of ` and the identifier (with `x` where it is extended), and
/// `, ` and the signal's name.
fn words_of(alloc: Global, fault: Option<CheckFault>) -> Result<Vec<u8>, AllocError> {
    let mut out = Vec::new(alloc);
    match fault {
        None => out.extend_from_slice(b"valid")?,
        Some(CheckFault::Memory) => out.extend_from_slice(b"memory")?,
        Some(
            CheckFault::At {
                why,
                message,
                signal,
            },
        ) => push_rule(alloc, why, &message, &signal, &mut out)?,
    }
    Ok(out)
}

/// The fault that `check` names, if any: callers see none of its clauses.
fn fault_of(alloc: Global, messages: Vec<Message>) -> Option<CheckFault>
    requires { All IsMade messages.items }
{
    let messages = List::of(messages);
    check(alloc, Database { messages }).err()
}

fn is_answered(
    rt: &impl Abort,
    alloc: Global,
    messages: Vec<Message>,
    words: &str,
) -> Result<(), AllocError>
    requires { All IsMade messages.items }
{
    let answer = words_of(alloc, fault_of(alloc, messages))?;
    assert_eq!(rt; answer.as_slice(), words.as_bytes());
    Ok(())
}

fn edges_are_answered(
    rt: &impl Abort,
    alloc: Global,
    rows: &[(Edge, &'static str)],
) -> Result<(), Fail> {
    for (edge, words) in rows {
        is_answered(rt, alloc, messages_at(alloc, *edge)?, words)?;
    }
    Ok(())
}

#[test]
fn the_first_fault_is_named_at_each_edge(rt: HostRuntime) -> Result<(), Fail> {
    edges_are_answered(&rt, rt.alloc(), EDGES)
}

#[test]
fn choices_have_their_edge_at_65_536(rt: HostRuntime) -> Result<(), Fail> {
    edges_are_answered(&rt, rt.alloc(), CHOICE_EDGES)
}

#[test]
fn messages_have_their_edge_at_65_536(rt: HostRuntime) -> Result<(), Fail> {
    edges_are_answered(&rt, rt.alloc(), MESSAGE_EDGES)
}

fn orders_are_answered(
    rt: &impl Abort,
    alloc: Global,
    rows: &[(&[MessageRow], &'static str)],
) -> Result<(), Fail> {
    for (messages, words) in rows {
        is_answered(rt, alloc, messages_of(alloc, messages)?, words)?;
    }
    Ok(())
}

#[test]
fn the_first_of_several_faults_is_named(rt: HostRuntime) -> Result<(), Fail> {
    orders_are_answered(&rt, rt.alloc(), ORDERS)
}

/// A message of two signals of one name.
const NAMED_ALIKE: building::MessageRow = building::MessageRow {
    name: "M",
    key: Key {
        extended: false,
        id: 1,
    },
    signals: &[SIGNAL, SIGNAL],
    links: &[],
};

#[test]
fn two_signals_of_one_name_are_refused(rt: HostRuntime) -> Result<(), Fail> {
    let messages = building::messages_of(rt.alloc(), &[NAMED_ALIKE])?;
    is_answered(&rt, rt.alloc(), messages, "3 of 1, S")?;
    Ok(())
}

#[test]
fn a_database_without_messages_is_valid(rt: HostRuntime) -> Result<(), AllocError> {
    is_answered(&rt, rt.alloc(), Vec::new(rt.alloc()), "valid")
}
