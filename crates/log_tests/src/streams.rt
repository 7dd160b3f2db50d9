//! The objects in memory at work, the files and streams of the system once each, and that all may
//! go to another thread.
ghost use Rattle.std.specs.Prelude.{◌≤◌};

use port_io::{
    ErrSink, Failed, FileLibrary, FileSource, Library, MemFile, MemLibrary, MemLog, MemSink,
    MemSource, OutSink, Source, WholeRefused, read_whole, write_piece,
};
use std::alloc::{AllocError, Global};
use std::fs;
use std::test::Fail;

// A file whose calls give `step` bytes at most, and whose logs fail at the reads in `fails`.
fn file(
    alloc: Global,
    name: &str,
    content: &[u8],
    step: usize,
    fails: &[u64],
) -> Result<MemFile, AllocError>
    requires { 1 ≤ step }
{
    Ok(MemFile {
        name: String::from_str(alloc, name)?,
        content: content.to_vec(alloc)?,
        step,
        fails: fails.to_vec(alloc)?,
    })
}

#[test]
fn a_source_gives_a_byte_a_read_and_fails_where_stated(rt: HostRuntime) -> Result<(), Fail> {
    let alloc = rt.alloc();
    let mut source = MemSource::new(b"ab".to_vec(alloc)?, 1, [1].to_vec(alloc)?);
    let mut buf = [0u8; 8];
    let wanted = [
        (Ok(1), b'a'),
        (Err(Failed), b'a'),
        (Ok(1), b'b'),
        (Ok(0), b'b'),
        (Ok(0), b'b'),
    ];
    for (answer, first) in wanted {
        assert_eq!(rt; source.read(&mut buf), answer);
        assert_eq!(rt; buf[0], first);
    }
    Ok(())
}

#[test]
fn a_piece_is_written_up_to_the_fault(rt: HostRuntime) -> Result<(), Fail> {
    let alloc = rt.alloc();
    // The room, the step, the failing write; the answer and what was written.
    let none = u64::MAX;
    let cases: [(usize, usize, u64, Result<(), Failed>, &[u8]); 4] = [
        (8, 1, none, Ok(()), b"abc"),
        (8, 2, 1, Err(Failed), b"ab"),
        (2, 8, none, Err(Failed), b"ab"),
        (3, 8, none, Ok(()), b"abc"),
    ];
    for (room, step, failing, answer, written) in cases {
        if step > 0 {
            let mut sink = MemSink::new(vec![in alloc; 0u8; room]?, step, [failing].to_vec(alloc)?);
            assert_eq!(rt; write_piece(&mut sink, b"abc"), answer);
            assert_eq!(rt; sink.bytes(), written);
        }
    }
    Ok(())
}

#[test]
fn a_file_is_read_whole_within_its_limit(rt: HostRuntime) -> Result<(), Fail> {
    let alloc = rt.alloc();
    let files = [
        file(alloc, "none", b"", 1, &[])?,
        file(alloc, "three", b"abc", 2, &[])?,
    ];
    // The name, the limit, the failing call; the answer.
    let none = u64::MAX;
    let cases: [(&str, usize, u64, Result<&[u8], WholeRefused>); 8] = [
        ("none", 0, none, Ok(b"")),
        ("three", 3, none, Ok(b"abc")),
        ("three", usize::MAX, none, Ok(b"abc")),
        ("three", 2, none, Err(WholeRefused::Long)),
        ("three", 0, none, Err(WholeRefused::Long)),
        ("two", 3, none, Err(WholeRefused::Open)),
        ("three", 3, 0, Err(WholeRefused::Open)),
        ("three", 3, 2, Err(WholeRefused::Read)),
    ];
    for (name, limit, failing, answer) in cases {
        let mut library = MemLibrary::new(&files, [failing].to_vec(alloc)?);
        let whole = read_whole(alloc, &mut library, name, limit);
        match (&whole, answer) {
            (Ok(bytes), Ok(wanted)) => assert_eq!(rt; bytes.as_slice(), wanted),
            (Err(why), Err(wanted)) => assert_eq!(rt; *why, wanted),
            _ => panic!(rt; "{name} within {limit}: {whole:?}"),
        }
    }
    Ok(())
}

/// All that a source has left, by reads of two bytes, and whether one failed.
fn read_all<S: Source>(source: &mut S, bytes: &mut Vec<u8>) -> Result<bool, AllocError> {
    let mut buf = [0u8; 2];
    for _ in 0..100 {
        match source.read(&mut buf) {
            Ok(0) => return Ok(false),
            Ok(count) => bytes.extend_from_slice(&buf[..count])?,
            Err(Failed) => return Ok(true),
        }
    }
    Ok(false)
}

#[test]
fn a_log_gives_its_bytes_up_to_a_failing_read(rt: HostRuntime) -> Result<(), Fail> {
    let alloc = rt.alloc();
    let files = [
        file(alloc, "a", b"log", 1, &[])?,
        file(alloc, "b", b"broken", 4, &[1])?,
    ];
    let mut library = MemLibrary::new(&files, Vec::new(alloc));
    let cases: [(&str, &[u8], bool); 2] = [("a", b"log", false), ("b", b"br", true)];
    for (name, wanted, fails) in cases {
        let mut bytes = Vec::new(alloc);
        let mut log = library.log(name).expect(&rt, "it is there");
        assert_eq!(rt; read_all(&mut log, &mut bytes)?, fails);
        assert_eq!(rt; bytes.as_slice(), wanted);
    }
    Ok(())
}

#[test]
fn a_log_leaves_the_begun_file(rt: HostRuntime) -> Result<(), Fail> {
    let alloc = rt.alloc();
    let files = [file(alloc, "a", b"ab", 1, &[])?];
    let mut library = MemLibrary::new(&files, Vec::new(alloc));
    let mut buf = [0u8; 8];
    library.begin("a").expect(&rt, "it is there");
    let before = library.more(&mut buf);
    let opened = library.log("a").is_ok();
    let after = library.more(&mut buf);
    assert_eq!(rt; (before, opened, after, buf[0]), (Ok(1), true, Ok(1), b'b'));
    Ok(())
}

#[test]
fn a_file_of_the_system_is_read_whole(rt: HostRuntime) -> Result<(), Fail> {
    let path = "port_io_whole.tmp";
    fs::write(&rt, path, b"on disk".as_slice())?;
    let mut library = FileLibrary::new(rt);
    let whole = read_whole(rt.alloc(), &mut library, path, 7);
    fs::remove_file(&rt, path)?;
    assert_eq!(rt;
        whole.expect(&rt, "whole").as_slice(),
        b"on disk".as_slice()
    );
    assert_eq!(rt;
        read_whole(rt.alloc(), &mut library, path, 7).err(),
        Some(WholeRefused::Open)
    );
    assert_eq!(rt;
        read_whole(rt.alloc(), &mut library, ".", 7).err(),
        Some(WholeRefused::Read)
    );
    Ok(())
}

#[test]
fn a_log_of_the_system_is_read_to_its_end(rt: HostRuntime) -> Result<(), Fail> {
    let path = "port_io_log.tmp";
    fs::write(&rt, path, b"on disk".as_slice())?;
    let log = FileLibrary::new(rt).log(path);
    fs::remove_file(&rt, path)?;
    let mut bytes = Vec::new(rt.alloc());
    let failed = read_all(&mut log.expect(&rt, "there"), &mut bytes)?;
    assert!(rt; !failed);
    assert_eq!(rt; bytes.as_slice(), b"on disk".as_slice());
    Ok(())
}

#[test]
fn the_standard_output_takes_a_piece(rt: HostRuntime) {
    assert_eq!(rt;
        write_piece(&mut OutSink::new(rt), b"to the output\n"),
        Ok(())
    );
}

#[test]
fn the_standard_error_takes_a_piece(rt: HostRuntime) {
    assert_eq!(rt;
        write_piece(&mut ErrSink::new(rt), b"to the error\n"),
        Ok(())
    );
}

fn sends<T: Send + Drop>() {}

#[test]
fn all_may_go_to_another_thread() {
    sends::<MemSource>();
    sends::<MemSink>();
    sends::<MemFile>();
    sends::<MemLibrary<'static>>();
    sends::<MemLog<'static>>();
    sends::<FileSource>();
    sends::<FileLibrary>();
    sends::<OutSink>();
    sends::<ErrSink>();
}
