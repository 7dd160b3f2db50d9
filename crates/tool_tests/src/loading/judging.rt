//! Files of each kind of bus, and benches of them.

use super::*;
use bench_file::{Plan, PlanFault, PlannedBus, read_plan};
use bench_inputs::DatabaseFile;
use bench_loader::{BenchRefused, JudgeRefused, judge_bench, judge_database};
use bench_model::{Bench, Kind, Valid};
use multiplex_tree::List;
use std::process::Abort;
use std::test::*;

/// Files on a bus of a kind, and the messages or the fault.
const FILES: [(Kind, &[u8], &[u8]); 20] = [
    (Kind::Can, ENGINE, b"ok Engine"),
    (Kind::J1939, CRUISE, b"ok CCVS"),
    (Kind::Lin, STATUS, b"ok Status"),
    (Kind::Can, b"", b"ok"),
    (Kind::Lin, b"", b"statement 0"),
    (Kind::Can, STATUS, b"statement 0"),
    (Kind::J1939, STATUS, b"statement 0"),
    (Kind::Lin, ENGINE, b"statement 0"),
    (Kind::Can, b"VERSION \"", b"string 8"),
    (Kind::J1939, b"// a comment\nBO_", b"byte 0"),
    (Kind::Lin, b"LIN_description_file;/*", b"comment 21"),
    (Kind::Can, SENDERLESS, b"statement 11"),
    (
        Kind::Can,
        b"VERSION \"\"\nBO_ 256 Engine: 8 ECU\n   SG_ Speed : 0|16@1+ (4611686018427387904,0) [0|0] \"\" X\n",
        b"scale 36",
    ),
    (
        Kind::Lin,
        b"LIN_description_file;\nFrames { F: 1, N, 1 { Tmp, 0; } }",
        b"name 44",
    ),
    (
        Kind::Can,
        b"BO_ 512 Mux: 8 ECU\n\
          SG_ Top M : 0|8@1+ (1,0) [0|0] \"\" Vector__XXX\n\
          SG_ Mid m1M : 0|8@1+ (1,0) [0|0] \"\" Vector__XXX\n\
          SG_ Low m2M : 0|8@1+ (1,0) [0|0] \"\" Vector__XXX\n\
          SG_MUL_VAL_ 512 Mid Low 1-1;\n\
          SG_MUL_VAL_ 512 Low Mid 2-3;\n",
        b"mux 512 Mid cycle",
    ),
    (
        Kind::Can,
        b"BO_ 512 Mux: 8 ECU\n\
          SG_ P M : 0|8@1+ (1,0) [0|0] \"\" Vector__XXX\n\
          SG_ Q M : 0|8@1+ (1,0) [0|0] \"\" Vector__XXX\n\
          SG_ C m1 : 0|8@1+ (1,0) [0|0] \"\" Vector__XXX\n",
        b"mux 512 C ambiguous",
    ),
    (Kind::J1939, b"BO_ 2147483649 M: 1786 E", b"size 2147483649"),
    (
        Kind::Can,
        b"VERSION \"\"\nBO_ 256 Engine: 8 ECU\nBO_ 256 Again: 8 ECU\n",
        b"message 256",
    ),
    (
        Kind::Can,
        b"VERSION \"\"\nBO_ 256 Engine: 8 ECU\n\
          SG_ Speed : 0|16@1+ (1,0) [0|0] \"\" Vector__XXX\n\
          SIG_VALTYPE_ 256 Speed : 1;\n",
        b"float 256 Speed",
    ),
    (
        Kind::Lin,
        b"LIN_description_file;Signals{T:8,0,S;}Frames{F:1,N,1{T,0;T,8;}}",
        b"signal 1 T",
    ),
];

fn file_of(alloc: Global, bytes: &[u8]) -> Result<DatabaseFile, AllocError> {
    Ok(DatabaseFile::Bytes {
        bytes: List::of(bytes.to_vec(alloc)?),
    })
}

/// The judgement alone: its callers see none of its clauses.
fn judged(alloc: Global, kind: Kind, file: &DatabaseFile) -> Result<Valid, JudgeRefused> {
    judge_database(alloc, kind, file)
}

/// The messages of a file's database, or the words of its fault.
fn outcome(alloc: Global, kind: Kind, file: &DatabaseFile) -> Result<Vec<u8>, AllocError> {
    let mut out = Vec::new(alloc);
    match judged(alloc, kind, file) {
        Ok(valid) => {
            out.extend_from_slice(b"ok")?;
            append_names(&mut out, &valid.into_database())?;
        }
        Err(JudgeRefused::Fault { fault }) => fault.text(&mut out)?,
        Err(JudgeRefused::Memory) => out.extend_from_slice(b"out of memory")?,
    }
    Ok(out)
}

fn are_judged(rt: &impl Abort, alloc: Global, rows: &[(Kind, &[u8], &[u8])]) -> Result<(), Fail> {
    for (kind, bytes, wanted) in rows {
        let file = file_of(alloc, bytes)?;
        assert_eq!(rt; outcome(alloc, *kind, &file)?.as_slice(), *wanted);
    }
    Ok(())
}

#[test]
fn a_file_is_judged_by_the_grammar_of_its_bus(rt: HostRuntime) -> Result<(), Fail> {
    are_judged(&rt, rt.alloc(), &FILES)
}

/// Without a file a bus of this kind has no messages, and a file that is too long is refused.
fn is_judged_unread(rt: &impl Abort, alloc: Global, kind: Kind) -> Result<(), Fail> {
    let absent = outcome(alloc, kind, &DatabaseFile::Absent)?;
    assert_eq!(rt; absent.as_slice(), b"ok".as_slice());
    let long = outcome(alloc, kind, &DatabaseFile::TooLong)?;
    assert_eq!(rt; long.as_slice(), b"long".as_slice());
    Ok(())
}

#[test]
fn no_file_is_no_message_and_a_long_one_is_refused(rt: HostRuntime) -> Result<(), Fail> {
    is_judged_unread(&rt, rt.alloc(), Kind::Can)?;
    is_judged_unread(&rt, rt.alloc(), Kind::J1939)?;
    is_judged_unread(&rt, rt.alloc(), Kind::Lin)
}

/// The plan of a bench with a bus of each kind, and one that names no database.
fn plan(alloc: Global) -> Result<Plan, PlanFault> {
    read_plan(
        alloc,
        b"bus A can a.log a.dbc\nbus J j1939 j.log j.dbc\nbus L lin l.log l.ldf\nbus E can e.log\n",
    )
}

/// The judgement alone, where there are as many files as buses.
fn judged_bench(
    alloc: Global,
    buses: &[PlannedBus],
    files: &[DatabaseFile],
) -> Option<Result<Bench, BenchRefused>> {
    if buses.len() != files.len() || buses.len() > 16 {
        return None;
    }
    Some(judge_bench(alloc, buses, files))
}

/// Appends each bus with its messages.
fn append_buses(out: &mut Vec<u8>, bench: &Bench) -> Result<(), AllocError> {
    for bus in bench.buses.items() {
        out.extend_from_slice(bus.name.bytes())?;
        append_names(out, &bus.database)?;
        out.push(b';')?;
    }
    Ok(())
}

/// Appends which bus is refused, and its fault.
fn append_refusal(
    alloc: Global,
    out: &mut Vec<u8>,
    refused: BenchRefused,
) -> Result<(), AllocError> {
    match refused {
        BenchRefused::Refused { bus, fault } => {
            let place = format!(in alloc; "refused {bus} ")?;
            out.extend_from_slice(place.as_bytes())?;
            fault.text(out)
        }
        BenchRefused::Memory => out.extend_from_slice(b"out of memory"),
    }
}

/// The buses with their messages, or the first that is refused with its fault.
fn bench_outcome(alloc: Global, files: &[DatabaseFile]) -> Result<Vec<u8>, Fail> {
    let plan = plan(alloc)?;
    let judged = judged_bench(alloc, plan.buses.items(), files);
    let mut out = Vec::new(alloc);
    match judged.ok_or("as many files as buses")? {
        Ok(bench) => append_buses(&mut out, &bench)?,
        Err(refused) => append_refusal(alloc, &mut out, refused)?,
    }
    Ok(out)
}

#[test]
fn a_bench_has_the_databases_of_its_files(rt: HostRuntime) -> Result<(), Fail> {
    let alloc = rt.alloc();
    let mut files = Vec::new(alloc);
    files.push(file_of(alloc, ENGINE)?)?;
    files.push(file_of(alloc, CRUISE)?)?;
    files.push(file_of(alloc, STATUS)?)?;
    files.push(DatabaseFile::Absent)?;
    assert_eq!(rt;
        bench_outcome(alloc, &files)?.as_slice(),
        b"A Engine;J CCVS;L Status;E;".as_slice()
    );
    Ok(())
}

#[test]
fn the_first_refused_bus_is_named(rt: HostRuntime) -> Result<(), Fail> {
    let alloc = rt.alloc();
    let mut files = Vec::new(alloc);
    files.push(file_of(alloc, ENGINE)?)?;
    files.push(file_of(alloc, SENDERLESS)?)?;
    files.push(DatabaseFile::TooLong)?;
    files.push(DatabaseFile::Absent)?;
    assert_eq!(rt;
        bench_outcome(alloc, &files)?.as_slice(),
        b"refused 1 statement 11".as_slice()
    );
    Ok(())
}
