//! Commands and their replies, over stores and files in memory.

ghost use Rattle.std.specs.Prelude.{◌≡◌, ◌≤◌, codes, IfOk, [], ◌∷◌};
ghost use Rattle.bench_model.specs.ValidBench.{IsValidBench};
ghost use Rattle.region_store.specs.Layout.{most_regions, most_lanes, most_room};
ghost use Rattle.region_store.specs.Ends.{IsLaneOf};
ghost use Rattle.region_store.specs.LoaderEnd.{AreLanesOf};
ghost use Rattle.bench_loader.specs.LoaderView.{IsLoaderOn};
ghost use Rattle.tool_tests.specs.EmptyBus.{IsEmptyBus};

use super::*;
use bench_loader::{Loader, Reply};
use bench_model::{Bench, Bus, Kind, Text};
use image_compiler::compile;
use image_words::one_encoded;
use multiplex_tree::List;
use port_io::{Library, MemLibrary};
use region_store::{LaneSeat, Store};
use std::process::Abort;
use std::test::Fail;

/// A database whose image takes 65 words beside those of a bus "A".
const OIL: &[u8] = b"VERSION \"\"\n\
    NS_ :\n\tNS_DESC_\n\tCM_\n\tBA_DEF_\n\tVAL_\n\
    BS_:\n\
    BU_: ECU Tester\n\
    BO_ 256 Engine: 8 ECU\n \
    SG_ Speed : 0|16@1+ (0.25,0) [0|16383.75] \"rpm\" Tester\n \
    SG_ Oil : 16|8@1- (1,40) [-88|167] \"\xB0C\" Tester\n \
    SG_ Gear : 24|4@1+ (1,0) [0|15] \"\" Tester\n\
    CM_ SG_ 256 Gear \"Gear; as shown\";\n\
    BA_DEF_ BO_ \"GenMsgCycleTime\" INT 0 1000;\n\
    BA_ \"GenMsgCycleTime\" BO_ 256 100;\n\
    VAL_ 256 Gear 0 \"Neutral\" 1 \"First\" ;\n";

fn empty_bus(alloc: Global, name: &[u8], kind: Kind) -> Result<Bus, AllocError>
    ensures { IfOk result (IsEmptyBus name.now) }
{
    Ok(Bus {
        name: Text::of(alloc, name)?,
        kind,
        database: Database {
            messages: List::of(Vec::new(alloc)),
        },
    })
}

/// A bench of a CAN bus "A" without messages.
fn one_bus(alloc: Global) -> Result<Bench, AllocError>
    ensures { IfOk result IsValidBench }
{
    let mut buses = Vec::new(alloc);
    buses.push(empty_bus(alloc, b"A", Kind::Can)?)?;
    Ok(Bench {
        buses: List::of(buses),
    })
}

/// The same with a LIN bus "L" behind it.
fn two_buses(alloc: Global) -> Result<Bench, AllocError>
    ensures { IfOk result IsValidBench }
{
    let mut buses = Vec::new(alloc);
    buses.push(empty_bus(alloc, b"A", Kind::Can)?)?;
    buses.push(empty_bus(alloc, b"L", Kind::Lin)?)?;
    Ok(Bench {
        buses: List::of(buses),
    })
}

/// A store of so many regions of so many words with this bench, its loader, and the seats of two lanes.
fn store_of(
    alloc: Global,
    bench: Bench,
    regions: u32,
    words: usize,
    last: u32,
) -> Result<(Store, Loader, Vec<LaneSeat>), Fail>
    requires valid { IsValidBench bench }
    requires regions { (2 ≤ regions) × (regions ≤ most_regions) }
    requires words { (1 ≤ words) × (words ≤ most_room) }
    ensures loader { IfOk result (λ r. IsLoaderOn r.0 r.1) }
    ensures lanes { IfOk result (λ r. AreLanesOf r.0 2 r.2.items) }
{
    one_encoded();
    let image = compile(alloc, &bench, words)?;
    let (store, seat, lanes) = Store::new(alloc, regions, words, 2, &image, last)?;
    Ok((store, Loader::new(bench, words, seat), lanes))
}

/// The names of the buses.
fn names(alloc: Global) -> Result<Vec<Text>, AllocError> {
    let mut names = Vec::new(alloc);
    names.push(Text::of(alloc, b"A")?)?;
    names.push(Text::of(alloc, b"L")?)?;
    Ok(names)
}

/// The line of a reply.
fn line_of(alloc: Global, reply: &Reply) -> Result<Vec<u8>, AllocError> {
    let mut out = Vec::new(alloc);
    reply.text(&names(alloc)?, &mut out)?;
    Ok(out)
}

/// The line that answers a command.
fn answer<B: Library>(
    alloc: Global,
    store: &Store,
    loader: &mut Loader,
    library: &mut B,
    line: &[u8],
) -> Result<Vec<u8>, AllocError>
    requires loader { IsLoaderOn store.now loader.old }
    ensures loader { IsLoaderOn store.now loader.new }
{
    let reply = loader.command(alloc, line, library, store);
    line_of(alloc, &reply)
}

/// The line that answers a command over a store of its own, of a bench with a bus "A", in regions of 66 words.
fn answer_of_one<B: Library>(alloc: Global, library: &mut B, line: &[u8]) -> Result<Vec<u8>, Fail> {
    let (store, mut loader, _) = store_of(alloc, one_bus(alloc)?, 2, 66, u32::MAX)?;
    Ok(answer(alloc, &store, &mut loader, library, line)?)
}

/// The same of a bench with a bus "L" behind it, in regions of 1,024 words.
fn answer_of_two<B: Library>(alloc: Global, library: &mut B, line: &[u8]) -> Result<Vec<u8>, Fail> {
    let (store, mut loader, _) = store_of(alloc, two_buses(alloc)?, 2, 1_024, u32::MAX)?;
    Ok(answer(alloc, &store, &mut loader, library, line)?)
}

fn files(alloc: Global) -> Result<Vec<MemFile>, AllocError> {
    let mut files = Vec::new(alloc);
    files.push(file_named(alloc, "a.dbc", OIL)?)?;
    files.push(file_named(alloc, "bad.dbc", SENDERLESS)?)?;
    files.push(file_named(alloc, "l.ldf", STATUS)?)?;
    Ok(files)
}

/// Lines and their replies, one after another.
fn are_answered(
    rt: &impl Abort,
    alloc: Global,
    store: &Store,
    loader: &mut Loader,
    rows: &[(&[u8], &[u8])],
) -> Result<(), Fail>
    requires loader { IsLoaderOn store.now loader.old }
    ensures loader { IfOk result (λ _. IsLoaderOn store.now loader.new) }
{
    let files = files(alloc)?;
    let mut library = MemLibrary::new(&files, Vec::new(alloc));
    for (line, wanted) in rows {
        let reply = answer(alloc, store, loader, &mut library, line)?;
        assert_eq!(rt; reply.as_slice(), *wanted);
    }
    Ok(())
}

const FORMS: [(&[u8], &[u8]); 14] = [
    (b"LOAD", b"words\n"),
    (b"", b"words\n"),
    (b" \t", b"words\n"),
    (b"QUIT", b"words\n"),
    (b"load A a.dbc", b"words\n"),
    (b"LOAD A", b"words\n"),
    (b"LOAD A a.dbc L", b"words\n"),
    (b"LOAD A a.dbc A b.dbc", b"words\n"),
    (b"LOAD A \xFF", b"words\n"),
    (b"LOAD A none.dbc", b"open A\n"),
    (b"LOAD Z a.dbc", b"unknown Z\n"),
    (b"LOAD A a.dbc l l.ldf", b"unknown l\n"),
    (b"LOAD A a.dbc\r", b"open A\n"),
    (b" LOAD\tA  a.dbc ", b"ok 1\n"),
];

#[test]
fn lines_of_every_form(rt: HostRuntime) -> Result<(), Fail> {
    let alloc = rt.alloc();
    let (store, mut loader, _) = store_of(alloc, two_buses(alloc)?, 2, 1_024, u32::MAX)?;
    are_answered(&rt, alloc, &store, &mut loader, &FORMS)
}

const FILES: [(&[u8], &[u8]); 6] = [
    (b"LOAD A bad.dbc", b"refused A statement 11\n"),
    (b"LOAD L a.dbc", b"refused L statement 0\n"),
    (b"LOAD A a.dbc L bad.dbc", b"refused L statement 0\n"),
    (b"LOAD L bad.dbc A none.dbc", b"open A\n"),
    (b"LOAD L l.ldf A a.dbc", b"ok 1\n"),
    (b"LOAD A bad.dbc", b"refused A statement 11\n"),
];

#[test]
fn files_are_read_before_any_is_judged(rt: HostRuntime) -> Result<(), Fail> {
    let alloc = rt.alloc();
    let (store, mut loader, _) = store_of(alloc, two_buses(alloc)?, 2, 1_024, u32::MAX)?;
    are_answered(&rt, alloc, &store, &mut loader, &FILES)
}

#[test]
fn versions_up_to_the_last_and_rooms(rt: HostRuntime) -> Result<(), Fail> {
    let alloc = rt.alloc();
    let (store, mut loader, _) = store_of(alloc, one_bus(alloc)?, 2, 66, 2)?;
    are_answered(&rt, alloc, &store, &mut loader, &SPENT)?;
    let (store, mut loader, _) = store_of(alloc, one_bus(alloc)?, 2, 65, 2)?;
    are_answered(
        &rt,
        alloc,
        &store,
        &mut loader,
        &[(b"LOAD A a.dbc", b"large 66 65\n")],
    )
}

const SPENT: [(&[u8], &[u8]); 5] = [
    (b"LOAD A a.dbc", b"ok 1\n"),
    (b"LOAD A a.dbc", b"ok 2\n"),
    (b"LOAD A a.dbc", b"spent\n"),
    (b"LOAD A bad.dbc", b"refused A statement 11\n"),
    (b"LOAD B a.dbc", b"unknown B\n"),
];

#[test]
fn nothing_is_published_where_the_last_version_is_0(rt: HostRuntime) -> Result<(), Fail> {
    let alloc = rt.alloc();
    let (store, mut loader, _) = store_of(alloc, one_bus(alloc)?, 2, 66, 0)?;
    let rows: [(&[u8], &[u8]); 1] = [(b"LOAD A a.dbc", b"spent\n")];
    are_answered(&rt, alloc, &store, &mut loader, &rows)
}

const AGAIN: [(&[u8], &[u8]); 3] = [
    (b"LOAD A a.dbc", b"ok 1\n"),
    (b"LOAD A a.dbc", b"ok 2\n"),
    (b"LOAD A a.dbc", b"ok 3\n"),
];

#[test]
fn regions_are_used_again_under_idle_lanes(rt: HostRuntime) -> Result<(), Fail> {
    let alloc = rt.alloc();
    let (store, mut loader, lanes) = store_of(alloc, one_bus(alloc)?, 2, 66, u32::MAX)?;
    are_answered(&rt, alloc, &store, &mut loader, &AGAIN)?;
    let shelf = store.gather(loader.into_seat(), lanes);
    assert!(rt; shelf.version == 3);
    Ok(())
}

/// The two lanes of a store.
fn two_lanes(store: &Store, lanes: Vec<LaneSeat>) -> Result<(LaneSeat, LaneSeat), Fail>
    requires { AreLanesOf store.now 2 lanes.items }
    ensures { IfOk result (λ r. IsLaneOf store.now r.0 × IsLaneOf store.now r.1) }
{
    let _ = store;
    let mut lanes = lanes;
    let second = lanes.pop().ok_or("two lanes")?;
    let first = lanes.pop().ok_or("two lanes")?;
    Ok((first, second))
}

/// While a lane holds the first region of two, which it took under epoch 0, no second version is published.
fn is_busy_until_let_go(
    rt: &impl Abort,
    alloc: Global,
    store: &Store,
    loader: &mut Loader,
    lane: LaneSeat,
    busy: &[u8],
) -> Result<(), Fail>
    requires loader { IsLoaderOn store.now loader.old }
    requires lane { IsLaneOf store.now lane }
{
    let pin = store.pin(lane, 1);
    let held: [(&[u8], &[u8]); 2] = [(b"LOAD A a.dbc", b"ok 1\n"), (b"LOAD A a.dbc", busy)];
    are_answered(rt, alloc, store, loader, &held)?;
    pin.unpin();
    let free: [(&[u8], &[u8]); 1] = [(b"LOAD A a.dbc", b"ok 2\n")];
    are_answered(rt, alloc, store, loader, &free)
}

#[test]
fn a_load_is_busy_while_a_lane_holds_the_other_region(rt: HostRuntime) -> Result<(), Fail> {
    let alloc = rt.alloc();
    let (store, mut loader, lanes) = store_of(alloc, one_bus(alloc)?, 2, 66, u32::MAX)?;
    let (first, _) = two_lanes(&store, lanes)?;
    is_busy_until_let_go(&rt, alloc, &store, &mut loader, first, b"busy 0 0 1\n")?;
    let (store, mut loader, lanes) = store_of(alloc, one_bus(alloc)?, 2, 66, u32::MAX)?;
    let (_, second) = two_lanes(&store, lanes)?;
    is_busy_until_let_go(&rt, alloc, &store, &mut loader, second, b"busy 0 1 1\n")
}

/// Version 0 is held by lane 1, whose pin is 1, and version 1 in region 1 by lane 0, whose pin is 2.
#[test]
fn a_load_is_busy_with_the_lane_of_each_region(rt: HostRuntime) -> Result<(), Fail> {
    let alloc = rt.alloc();
    let (store, mut loader, lanes) = store_of(alloc, one_bus(alloc)?, 3, 66, u32::MAX)?;
    let (first, second) = two_lanes(&store, lanes)?;
    let old = store.pin(second, 1);
    are_answered(
        &rt,
        alloc,
        &store,
        &mut loader,
        &[(b"LOAD A a.dbc", b"ok 1\n")],
    )?;
    let new = store.pin(first, 1);
    let held: [(&[u8], &[u8]); 2] = [
        (b"LOAD A a.dbc", b"ok 2\n"),
        (b"LOAD A a.dbc", b"busy 0 1 1 1 0 2\n"),
    ];
    are_answered(&rt, alloc, &store, &mut loader, &held)?;
    old.unpin();
    are_answered(
        &rt,
        alloc,
        &store,
        &mut loader,
        &[(b"LOAD A a.dbc", b"ok 3\n")],
    )?;
    new.unpin();
    Ok(())
}

/// A database of one byte more than it may have.
fn long_files(alloc: Global) -> Result<Vec<MemFile>, AllocError> {
    let mut file = file_named(alloc, "a.dbc", b"")?;
    file.content = vec![in alloc; b'\n'; 16_777_217]?;
    Ok(vec![in alloc; file]?)
}

#[test]
fn a_database_above_the_limit_is_refused(rt: HostRuntime) -> Result<(), Fail> {
    let alloc = rt.alloc();
    let files = long_files(alloc)?;
    let mut library = MemLibrary::new(&files, Vec::new(alloc));
    let reply = answer_of_one(alloc, &mut library, b"LOAD A a.dbc")?;
    assert_eq!(rt; reply.as_slice(), b"refused A long\n".as_slice());
    Ok(())
}

/// The calls of the library for a command of two files: to begin one, and two reads of it.
const CALLS: [(u64, &[u8]); 7] = [
    (0, b"open A\n"),
    (1, b"read A\n"),
    (2, b"read A\n"),
    (3, b"open L\n"),
    (4, b"read L\n"),
    (5, b"read L\n"),
    (6, b"ok 1\n"),
];

fn fail_in_turn(rt: &impl Abort, alloc: Global, rows: &[(u64, &[u8])]) -> Result<(), Fail> {
    let files = files(alloc)?;
    for (call, wanted) in rows {
        let mut library = MemLibrary::new(&files, Vec::from_slice(alloc, &[*call])?);
        let reply = answer_of_two(alloc, &mut library, b"LOAD A a.dbc L l.ldf")?;
        assert_eq!(rt; reply.as_slice(), *wanted);
    }
    Ok(())
}

#[test]
fn each_call_of_the_library_fails_in_turn(rt: HostRuntime) -> Result<(), Fail> {
    fail_in_turn(&rt, rt.alloc(), &CALLS)
}

/// A line of so many bytes, with blanks at its end.
fn padded(alloc: Global, line: &[u8], len: usize) -> Result<Vec<u8>, AllocError> {
    let mut out = Vec::from_slice(alloc, line)?;
    for _ in line.len()..len {
        out.push(b' ')?;
    }
    Ok(out)
}

/// A command of so many pairs, each of a bus of its own that the bench does not have, with a file name of so many bytes.
fn pairs(alloc: Global, count: u8, bytes: usize) -> Result<Vec<u8>, AllocError> {
    let mut out = Vec::from_slice(alloc, b"LOAD")?;
    for bus in 0..count {
        out.extend_from_slice(b" Z")?;
        out.push(b'a'.saturating_add(bus))?;
        out.push(b' ')?;
        for _ in 0..bytes {
            out.push(b'f')?;
        }
    }
    Ok(out)
}

/// This line is answered so, over a store of its own.
fn is_answered(rt: &impl Abort, alloc: Global, line: &[u8], wanted: &[u8]) -> Result<(), Fail> {
    let files = files(alloc)?;
    let mut library = MemLibrary::new(&files, Vec::new(alloc));
    let reply = answer_of_one(alloc, &mut library, line)?;
    assert_eq!(rt; reply.as_slice(), wanted);
    Ok(())
}

/// How many pairs, how many bytes a file name has, and the reply.
const PAIRS: [(u8, usize, &[u8]); 4] = [
    (16, 1, b"unknown Za\n"),
    (17, 1, b"words\n"),
    (1, 255, b"unknown Za\n"),
    (1, 256, b"words\n"),
];

fn pairs_are_answered(
    rt: &impl Abort,
    alloc: Global,
    rows: &[(u8, usize, &[u8])],
) -> Result<(), Fail> {
    for (count, bytes, wanted) in rows {
        let line = pairs(alloc, *count, *bytes)?;
        is_answered(rt, alloc, &line, wanted)?;
    }
    Ok(())
}

#[test]
fn limits_of_a_line(rt: HostRuntime) -> Result<(), Fail> {
    let alloc = rt.alloc();
    pairs_are_answered(&rt, alloc, &PAIRS)?;
    let line = padded(alloc, b"LOAD A a.dbc", 8_193)?;
    is_answered(&rt, alloc, &line, b"words\n")?;
    let line = padded(alloc, b"LOAD A a.dbc", 8_192)?;
    is_answered(&rt, alloc, &line, b"ok 1\n")
}

/// The replies whose lines no command above has.
#[test]
fn lines_of_other_replies(rt: HostRuntime) -> Result<(), Fail> {
    let alloc = rt.alloc();
    let mut out = Vec::new(alloc);
    Reply::Memory.text(&names(alloc)?, &mut out)?;
    Reply::ReadFault { bus: 2 }.text(&names(alloc)?, &mut out)?;
    assert_eq!(rt; out.as_slice(), b"memory\nread 2\n".as_slice());
    let (store, loader, lanes) = store_of(alloc, one_bus(alloc)?, 2, 66, 0)?;
    let shelf = store.gather(loader.into_seat(), lanes);
    assert!(rt; shelf.version == 0);
    Ok(())
}

fn sends_and_drops<T: Send + Drop>() {}

#[test]
fn a_loader_may_go_to_another_thread_and_be_dropped() {
    sends_and_drops::<Loader>();
    sends_and_drops::<Reply>();
}
