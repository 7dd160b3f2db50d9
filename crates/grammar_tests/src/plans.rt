//! What the tables of the format say, row by row: plans, and the first faulty line of files that have none.

use bench_file::{Plan, PlanFault, PlannedBus, read_plan};
use bench_model::Kind;
use std::alloc::Global;
use std::process::Abort;
use std::test::Fail;

/// A text, and the line at which it is faulty.
type FaultRow = (&'static [u8], u64);

/// A text, and the numbers of its plan: regions, words, ring, sessions, desk, versions.
type NumbersRow = (&'static [u8], [u32; 6]);

fn is_faulty(rt: &impl Abort, alloc: Global, text: &[u8], line: u64) {
    match read_plan(alloc, text) {
        Ok(_) => assert!(rt; false, "a faulty file has a plan"),
        Err(fault) => assert_eq!(rt; fault, PlanFault::Line { line }),
    }
}

fn are_faulty(rt: &impl Abort, alloc: Global, rows: &[FaultRow]) {
    for (text, line) in rows {
        is_faulty(rt, alloc, text, *line);
    }
}

fn numbers_of(plan: &Plan) -> [u32; 6] {
    [
        plan.regions,
        plan.words,
        plan.ring,
        plan.sessions,
        plan.desk,
        plan.versions,
    ]
}

fn have_numbers(rt: &impl Abort, alloc: Global, rows: &[NumbersRow]) -> Result<(), Fail> {
    for (text, numbers) in rows {
        assert_eq!(rt; numbers_of(&read_plan(alloc, text)?), *numbers);
    }
    Ok(())
}

/// A text of a line, a byte given so many times, and further lines.
fn filled(
    alloc: Global,
    prefix: &[u8],
    byte: u8,
    count: usize,
    end: &[u8],
) -> Result<Vec<u8>, Fail> {
    let mut text = Vec::from_slice(alloc, prefix)?;
    for _ in 0..count {
        text.push(byte)?;
    }
    text.extend_from_slice(end)?;
    Ok(text)
}

const FORMS: [FaultRow; 24] = [
    (b"", 0),
    (b"\n \t\n# no bus\n", 0),
    (b"bus A can a.log\nring 1\n", 2),
    (b"BUS A can a.log", 1),
    (b"bus A CAN a.log", 1),
    (b"bus A flexray a.log", 1),
    (b"bus A can", 1),
    (b"bus A can a.log a.dbc b.dbc", 1),
    (b"bus A-B can a.log", 1),
    (b"bus ABCDEFGHIJKLMNOPQRSTUVWXYZ0123456 can a.log", 1),
    (b"bus A can \xFF.log", 1),
    (b"bus A can a.log \xC3", 1),
    (b" # x\nbus A can a.log", 1),
    (b"bus A can a.log\nbus B lin b.log\nbus A lin b.log\n", 3),
    (b"bus A can a.log\n\n\nmore 3", 4),
    (b"bus A can a.log\nring", 2),
    (b"bus A can a.log\nring 4 4", 2),
    (b"bus A can a.log\nring +4", 2),
    (b"bus A can a.log\nring 0x4", 2),
    (b"bus A can a.log\nring 04", 2),
    (b"bus A can a.log\ndesk 00", 2),
    (b"bus A can a.log\nring 4\r", 2),
    (b"ring 4\r\nring 4\nbus A can a.log", 2),
    (b"bus A can a.log\nring 99999999999999999999999999", 2),
];

/// Repeated numbers, two faulty lines, and bytes that are neither blanks nor line ends.
const REPEATED: [FaultRow; 12] = [
    (b"bus A can a.log\nring 1\nwords 0", 2),
    (b"bus A can a.log\nregions 4\nregions 4", 3),
    (b"words 5\nbus A can a.log\nwords 6", 3),
    (b"bus A can a.log\nsessions 1\nsessions 2", 3),
    (b"desk 1\ndesk 1\nbus A can a.log", 2),
    (b"versions 7\n\nversions 7\nbus A can a.log", 3),
    (b"bus A can a.log\n\r", 2),
    (b"\xEF\xBB\xBFbus A can a.log", 1),
    (b"bus A can\x0Ba.log", 1),
    (b"\x0Cbus A can a.log", 1),
    (b"bus A can a.log\rbus B can b.log", 1),
    (b"bus A can a.log\n\rring 4\n", 2),
];

const RANGES: [FaultRow; 12] = [
    (b"bus A can a\nregions 1", 2),
    (b"bus A can a\nregions 9", 2),
    (b"bus A can a\nwords 0", 2),
    (b"bus A can a\nwords 1048577", 2),
    (b"bus A can a\nring 16385", 2),
    (b"bus A can a\nsessions 0", 2),
    (b"bus A can a\nsessions 1025", 2),
    (b"bus A can a\ndesk 1025", 2),
    (b"bus A can a\nversions 4294967296", 2),
    (b"bus A can a\nbus B can b\nring 8193", 0),
    (b"bus A can a\nbus B can b\nring 16384\nwords 0", 4),
    (b"bus A can a\nfeed all.log", 2),
];

const NUMBERS: [NumbersRow; 8] = [
    (b"bus A can a", [4, 262_144, 1_024, 1, 1, 4_294_967_295]),
    (
        b"desk 0\nversions 0\nbus A can a",
        [4, 262_144, 1_024, 1, 0, 0],
    ),
    (
        b"regions 2\nwords 1\nring 2\nsessions 1\ndesk 1\nversions 1\nbus A can a",
        [2, 1, 2, 1, 1, 1],
    ),
    (
        b"bus A can a\r\nregions 8\r\nwords 1048576\r\n",
        [8, 1_048_576, 1_024, 1, 1, 4_294_967_295],
    ),
    (
        b"bus A can a\nring 16384\nsessions 1024\ndesk 1024",
        [4, 262_144, 16_384, 1_024, 1_024, 4_294_967_295],
    ),
    (
        b"bus A can a\nbus B can b\n\tring\t8192 ",
        [4, 262_144, 8_192, 1, 1, 4_294_967_295],
    ),
    (
        b"#ring 3\n\r\nbus A can a\nversions 4294967295",
        [4, 262_144, 1_024, 1, 1, 4_294_967_295],
    ),
    (
        b"words 30\nbus A can a",
        [4, 30, 1_024, 1, 1, 4_294_967_295],
    ),
];

#[test]
fn the_first_line_of_another_form_is_named(rt: HostRuntime) {
    are_faulty(&rt, rt.alloc(), &FORMS);
}

#[test]
fn a_number_set_twice_and_odd_bytes_are_faults(rt: HostRuntime) {
    are_faulty(&rt, rt.alloc(), &REPEATED);
}

#[test]
fn a_carriage_return_without_a_line_feed_is_of_the_name(rt: HostRuntime) -> Result<(), Fail> {
    let plan = read_plan(rt.alloc(), b"bus A can a.log\r")?;
    is_bus(
        &rt,
        plan.buses.items().first(),
        b"A",
        Kind::Can,
        "a.log\r",
        None,
    )
}

#[test]
fn numbers_out_of_range_are_faults(rt: HostRuntime) {
    are_faulty(&rt, rt.alloc(), &RANGES);
}

#[test]
fn numbers_are_set_or_have_their_defaults(rt: HostRuntime) -> Result<(), Fail> {
    have_numbers(&rt, rt.alloc(), &NUMBERS)
}

/// A bus as a row has it.
fn is_bus(
    rt: &impl Abort,
    bus: Option<&PlannedBus>,
    name: &[u8],
    kind: Kind,
    log: &str,
    database: Option<&str>,
) -> Result<(), Fail> {
    let bus = bus.ok_or("a bus is missing")?;
    assert_eq!(rt; bus.name.bytes(), name);
    assert_eq!(rt; bus.kind, kind);
    assert_eq!(rt; bus.log.as_str(), log);
    match &bus.database {
        Some(file) => assert_eq!(rt; Some(file.as_str()), database),
        None => assert!(rt; database.is_none()),
    }
    Ok(())
}

#[test]
fn buses_come_in_order_with_their_files(rt: HostRuntime) -> Result<(), Fail> {
    let text =
        b"bus A can a.log a.dbc\n# J1939\n bus  Truck_2 j1939\tt.log\r\nbus L lin l\xC3\xA9.log l.ldf";
    let plan = read_plan(rt.alloc(), text)?;
    let buses = plan.buses.items();
    assert_eq!(rt; buses.len(), 3);
    is_bus(&rt, buses.first(), b"A", Kind::Can, "a.log", Some("a.dbc"))?;
    is_bus(&rt, buses.get(1), b"Truck_2", Kind::J1939, "t.log", None)?;
    is_bus(&rt, buses.get(2), b"L", Kind::Lin, "lé.log", Some("l.ldf"))
}

#[test]
fn sixteen_buses_are_the_most(rt: HostRuntime) -> Result<(), Fail> {
    let mut text = Vec::new(rt.alloc());
    for name in b'a'..=b'p' {
        text.extend_from_slice(b"bus ")?;
        text.push(name)?;
        text.extend_from_slice(b" can x.log\n")?;
    }
    assert_eq!(rt; read_plan(rt.alloc(), &text)?.buses.items().len(), 16);
    text.extend_from_slice(b"bus q can x.log\n")?;
    is_faulty(&rt, rt.alloc(), &text, 17);
    Ok(())
}

#[test]
fn names_have_their_lengths(rt: HostRuntime) -> Result<(), Fail> {
    let alloc = rt.alloc();
    let longest_bus = filled(alloc, b"bus ", b'B', 32, b" can a.log")?;
    assert!(rt; read_plan(alloc, &longest_bus).is_ok());
    let longest_database = filled(alloc, b"bus A can a.log ", b'x', 255, b"")?;
    assert!(rt; read_plan(alloc, &longest_database).is_ok());
    let longer_database = filled(alloc, b"bus A can a.log ", b'x', 256, b"")?;
    is_faulty(&rt, alloc, &longer_database, 1);
    // the carriage return counts where no line feed follows
    let longer_line = filled(alloc, b"bus A can a.log\n#", b'x', 1_023, b"\r")?;
    is_faulty(&rt, alloc, &longer_line, 2);
    Ok(())
}

#[test]
fn lines_names_and_files_have_their_lengths(rt: HostRuntime) -> Result<(), Fail> {
    let alloc = rt.alloc();
    let bus = b"\nbus A can a.log";
    let longest_line = filled(alloc, b"#", b'x', 1_023, b"\r\nbus A can a.log")?;
    assert!(rt; read_plan(alloc, &longest_line).is_ok());
    is_faulty(&rt, alloc, &filled(alloc, b"#", b'x', 1_024, bus)?, 1);
    is_faulty(&rt, alloc, &filled(alloc, b"", b' ', 1_025, bus)?, 1);
    let longest_name = filled(alloc, b"bus A can ", b'x', 255, b"")?;
    assert!(rt; read_plan(alloc, &longest_name).is_ok());
    is_faulty(
        &rt,
        alloc,
        &filled(alloc, b"bus A can ", b'x', 256, b"")?,
        1,
    );
    let longest_file = filled(alloc, b"bus A can a.log", b'\n', 65_521, b"")?;
    assert_eq!(rt; longest_file.len(), 65_536);
    assert!(rt; read_plan(alloc, &longest_file).is_ok());
    is_faulty(
        &rt,
        alloc,
        &filled(alloc, b"other\n", b'\n', 65_531, b"")?,
        0,
    );
    Ok(())
}
