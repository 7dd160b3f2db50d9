//! Each phase over files in memory, and each call of the library failing in turn.

use bench_file::{Plan, PlannedBus};
use bench_inputs::{
    BenchRefused, DatabaseFile, FileRefused, LogRefused, open_logs, read_bench, read_databases,
};
use port_io::{MemFile, MemLibrary, MemLog, Source};
use std::alloc::{AllocError, Global};
use std::process::Abort;
use std::test::Fail;

/// A file by its name.
type FileRow = (&'static str, &'static [u8]);

const BENCH: FileRow = (
    "bench.txt",
    b"bus A can a.log a.dbc\nbus B can b.log\nbus L lin l.log l.ldf\n",
);

const DATABASE: FileRow = ("a.dbc", b"VERSION \"\"");

const FIRST_LOG: FileRow = ("a.log", b"1");

const SECOND_LOG: FileRow = ("b.log", b"22");

/// All files of a bench, and those without the third bus.
const FILES: &[FileRow] = &[
    BENCH,
    DATABASE,
    FIRST_LOG,
    SECOND_LOG,
    ("l.ldf", b"LIN_description_file;"),
    ("l.log", b"333"),
];

const FIRST_FILES: &[FileRow] = &[BENCH, DATABASE, FIRST_LOG, SECOND_LOG];

/// Files whose bench file is faulty at its second line.
const FAULTY_FILES: &[FileRow] = &[
    ("bench.txt", b"bus A can a.log\nring 1\n"),
    DATABASE,
    FIRST_LOG,
];

fn file_of(alloc: Global, row: &FileRow) -> Result<MemFile, AllocError> {
    let name = String::from_str(alloc, row.0)?;
    let content = Vec::from_slice(alloc, row.1)?;
    Ok(MemFile {
        name,
        content,
        step: 16,
        fails: Vec::new(alloc),
    })
}

fn files_of(alloc: Global, rows: &[FileRow]) -> Result<Vec<MemFile>, AllocError> {
    let mut files = Vec::new(alloc);
    for row in rows {
        files.push(file_of(alloc, row)?)?;
    }
    Ok(files)
}

/// Each phase alone: callers see none of its clauses.
fn plan_of(alloc: Global, library: &mut MemLibrary<'_>, name: &str) -> Result<Plan, BenchRefused> {
    read_bench(alloc, library, name)
}

fn databases_of(
    alloc: Global,
    library: &mut MemLibrary<'_>,
    buses: &[PlannedBus],
) -> Result<Vec<DatabaseFile>, FileRefused> {
    read_databases(alloc, library, buses)
}

/// The logs that were opened, and what the phase answered.
fn logs_of<'a>(
    alloc: Global,
    library: &mut MemLibrary<'a>,
    buses: &[PlannedBus],
) -> Result<(Vec<MemLog<'a>>, Result<(), LogRefused>), AllocError> {
    let mut logs = Vec::with_capacity(alloc, buses.len())?;
    let opened = open_logs(library, buses, &mut logs);
    Ok((logs, opened))
}

/// The bytes of a database, or what it is in place of them.
fn bytes_of(file: &DatabaseFile) -> &[u8] {
    match file {
        DatabaseFile::Bytes { bytes } => bytes.items(),
        DatabaseFile::Absent => b"absent",
        DatabaseFile::TooLong => b"too long",
    }
}

/// The databases, each with a line end.
fn lines_of(alloc: Global, databases: &[DatabaseFile]) -> Result<Vec<u8>, AllocError> {
    let mut out = Vec::new(alloc);
    for file in databases {
        out.extend_from_slice(bytes_of(file))?;
        out.push(b'\n')?;
    }
    Ok(out)
}

/// The databases of a bench, each with a line end, and how many logs were opened behind them, and the answer of that.
fn phases_of(
    alloc: Global,
    rows: &[FileRow],
) -> Result<(Vec<u8>, usize, Result<(), LogRefused>), Fail> {
    let files = files_of(alloc, rows)?;
    let mut library = MemLibrary::new(&files, Vec::new(alloc));
    let plan = plan_of(alloc, &mut library, "bench.txt")?;
    let databases = databases_of(alloc, &mut library, plan.buses.items())?;
    let lines = lines_of(alloc, &databases)?;
    let (logs, opened) = logs_of(alloc, &mut library, plan.buses.items())?;
    Ok((lines, logs.len(), opened))
}

#[test]
fn a_bench_is_read_in_its_phases(rt: HostRuntime) -> Result<(), Fail> {
    let (databases, logs, opened) = phases_of(rt.alloc(), FILES)?;
    assert_eq!(rt;
        databases.as_slice(),
        b"VERSION \"\"\nabsent\nLIN_description_file;\n".as_slice()
    );
    assert_eq!(rt; logs, 3);
    assert_eq!(rt; opened, Ok(()));
    Ok(())
}

/// Why these files give no plan by a bench file of this name.
fn refusal_of(alloc: Global, files: &[MemFile], name: &str) -> Option<BenchRefused> {
    let mut library = MemLibrary::new(files, Vec::new(alloc));
    plan_of(alloc, &mut library, name).err()
}

#[test]
fn a_faulty_bench_file_is_named_by_its_line(rt: HostRuntime) -> Result<(), Fail> {
    let files = files_of(rt.alloc(), FAULTY_FILES)?;
    assert_eq!(rt;
        refusal_of(rt.alloc(), &files, "bench.txt"),
        Some(BenchRefused::Line { line: 2 })
    );
    assert_eq!(rt;
        refusal_of(rt.alloc(), &files, "none"),
        Some(BenchRefused::Open)
    );
    Ok(())
}

/// A bench file of one byte more than it may have.
fn long_file(alloc: Global) -> Result<MemFile, AllocError> {
    let name = String::from_str(alloc, "bench.txt")?;
    let content = vec![in alloc; b'\n'; 65_537]?;
    Ok(MemFile {
        name,
        content,
        step: 65_536,
        fails: Vec::new(alloc),
    })
}

#[test]
fn files_of_their_longest_sizes(rt: HostRuntime) -> Result<(), Fail> {
    let files = vec![in rt.alloc(); long_file(rt.alloc())?]?;
    assert_eq!(rt;
        refusal_of(rt.alloc(), &files, "bench.txt"),
        Some(BenchRefused::Line { line: 0 })
    );
    Ok(())
}

/// The first two phases where this call of the library fails.
fn refused_at(
    alloc: Global,
    call: u64,
) -> Result<(Option<BenchRefused>, Option<FileRefused>), AllocError> {
    let files = files_of(alloc, FILES)?;
    let mut library = MemLibrary::new(&files, [call].to_vec(alloc)?);
    match plan_of(alloc, &mut library, "bench.txt") {
        Ok(plan) => {
            let refused = databases_of(alloc, &mut library, plan.buses.items()).err();
            Ok((None, refused))
        }
        Err(refused) => Ok((Some(refused), None)),
    }
}

/// The calls of the library are: the bench file's begin and five reads, a.dbc's begin and two reads, l.ldf's begin
/// and three reads.
const CAUSES: [(u64, Option<BenchRefused>, Option<FileRefused>); 8] = [
    (0, Some(BenchRefused::Open), None),
    (1, Some(BenchRefused::Read), None),
    (5, Some(BenchRefused::Read), None),
    (6, None, Some(FileRefused::Open)),
    (7, None, Some(FileRefused::Read)),
    (9, None, Some(FileRefused::Open)),
    (12, None, Some(FileRefused::Read)),
    (13, None, None),
];

fn have_causes(
    rt: &impl Abort,
    alloc: Global,
    rows: &[(u64, Option<BenchRefused>, Option<FileRefused>)],
) -> Result<(), AllocError> {
    for (call, bench, databases) in rows {
        assert!(rt; refused_at(alloc, *call)? == (*bench, *databases));
    }
    Ok(())
}

#[test]
fn each_call_that_fails_is_the_cause(rt: HostRuntime) -> Result<(), AllocError> {
    have_causes(&rt, rt.alloc(), &CAUSES)
}

/// How many bytes a log gives at its first read.
fn bytes_at_once(log: &mut MemLog<'_>) -> Option<usize> {
    let mut buf = [0u8; 8];
    log.read(&mut buf).ok()
}

/// The files of a bench without its third bus: why its databases are refused, how many logs are opened, the answer, and
/// what the second of them gives.
fn opened_without_the_third(
    alloc: Global,
    files: &[MemFile],
) -> Result<
    (
        Option<FileRefused>,
        usize,
        Result<(), LogRefused>,
        Option<usize>,
    ),
    Fail,
> {
    let mut library = MemLibrary::new(files, Vec::new(alloc));
    let plan = plan_of(alloc, &mut library, "bench.txt")?;
    let refused = databases_of(alloc, &mut library, plan.buses.items()).err();
    let (mut logs, opened) = logs_of(alloc, &mut library, plan.buses.items())?;
    let second = bytes_at_once(logs.get_mut(1).ok_or("two logs")?);
    Ok((refused, logs.len(), opened, second))
}

#[test]
fn a_missing_log_keeps_those_before_it(rt: HostRuntime) -> Result<(), Fail> {
    let files = files_of(rt.alloc(), FIRST_FILES)?;
    let (refused, logs, opened, second) = opened_without_the_third(rt.alloc(), &files)?;
    assert_eq!(rt; refused, Some(FileRefused::Open));
    assert_eq!(rt; opened, Err(LogRefused));
    assert_eq!(rt; logs, 2);
    assert_eq!(rt; second, Some(2));
    Ok(())
}
