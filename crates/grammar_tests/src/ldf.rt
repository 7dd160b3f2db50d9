//! Texts and what they describe, worked out by hand from the format.

use bench_model::{CheckFault, CheckWhy, Coding, Entry, Message, Signal, Valid};
use ldf_grammar::{LdfFault, read_ldf};
use sig_text::{LexFault, tokens};
use std::alloc::{AllocError, Global};
use std::process::Abort;
use std::test::Fail;
use token_forms::token_text;

/// A number in decimal digits behind the words.
fn add_number(alloc: Global, words: &mut Vec<u8>, number: i128) -> Result<(), AllocError> {
    let text = format!(in alloc; "{number}")?;
    words.extend_from_slice(text.as_bytes())?;
    Ok(())
}

fn add_entry(alloc: Global, words: &mut Vec<u8>, entry: &Entry) -> Result<(), AllocError> {
    match entry {
        Entry::Logical { raw, text } => {
            add_number(alloc, words, i128::from(*raw))?;
            if let Some(text) = text {
                words.push(b' ')?;
                words.extend_from_slice(text.bytes())?;
            }
        }
        Entry::Physical {
            low,
            high,
            scale,
            unit,
        } => {
            add_number(alloc, words, i128::from(*low))?;
            words.extend_from_slice(b"..")?;
            add_number(alloc, words, i128::from(*high))?;
            for number in [scale.factor, scale.offset, i128::from(scale.k)] {
                words.push(b' ')?;
                add_number(alloc, words, number)?;
            }
            words.push(b' ')?;
            words.extend_from_slice(unit.bytes())?;
        }
        Entry::Plain => words.extend_from_slice(b"plain")?,
    }
    Ok(())
}

fn add_entries(alloc: Global, words: &mut Vec<u8>, entries: &[Entry]) -> Result<(), AllocError> {
    words.extend_from_slice(b" [")?;
    for (place, entry) in entries.iter().enumerate() {
        if place > 0 {
            words.extend_from_slice(b", ")?;
        }
        add_entry(alloc, words, entry)?;
    }
    words.push(b']')?;
    Ok(())
}

fn add_signal(alloc: Global, words: &mut Vec<u8>, signal: &Signal) -> Result<(), AllocError> {
    words.extend_from_slice(signal.name.bytes())?;
    words.push(b' ')?;
    add_number(alloc, words, i128::from(signal.start))?;
    words.push(b' ')?;
    add_number(alloc, words, i128::from(signal.size))?;
    match &signal.coding {
        Coding::Listed { entries } => add_entries(alloc, words, entries.items())?,
        Coding::Scaled { .. } => words.extend_from_slice(b" scaled")?,
    }
    Ok(())
}

fn add_message(alloc: Global, words: &mut Vec<u8>, message: &Message) -> Result<(), AllocError> {
    words.extend_from_slice(message.name.bytes())?;
    words.push(b' ')?;
    add_number(alloc, words, i128::from(message.key.id))?;
    words.push(b' ')?;
    add_number(alloc, words, i128::from(message.length))?;
    words.push(b':')?;
    for (place, signal) in message.signals.items().iter().enumerate() {
        words.extend_from_slice(if place == 0 {
            b" ".as_slice()
        } else {
            b", ".as_slice()
        })?;
        add_signal(alloc, words, signal)?;
    }
    Ok(())
}

fn add_database(alloc: Global, words: &mut Vec<u8>, valid: &Valid) -> Result<(), AllocError> {
    for (place, message) in valid.database().messages.items().iter().enumerate() {
        if place > 0 {
            words.extend_from_slice(b"; ")?;
        }
        add_message(alloc, words, message)?;
    }
    Ok(())
}

fn add_place(alloc: Global, words: &mut Vec<u8>, word: &[u8], at: usize) -> Result<(), AllocError> {
    words.extend_from_slice(word)?;
    words.push(b' ')?;
    add_number(alloc, words, at as i128)
}

fn add_check(alloc: Global, words: &mut Vec<u8>, fault: &CheckFault) -> Result<(), AllocError> {
    let CheckFault::At {
        why,
        message,
        signal,
    } = fault
    else {
        return words.extend_from_slice(b"memory").map_err(|_| AllocError);
    };
    words.extend_from_slice(match why {
        CheckWhy::Size => b"size".as_slice(),
        CheckWhy::DuplicateMessage => b"message".as_slice(),
        CheckWhy::DuplicateSignal => b"signal".as_slice(),
        CheckWhy::Float => b"float".as_slice(),
        CheckWhy::Limit => b"limit".as_slice(),
    })?;
    if let Some(key) = message {
        words.push(b' ')?;
        add_number(alloc, words, i128::from(key.id))?;
    }
    if let Some(name) = signal {
        words.push(b' ')?;
        words.extend_from_slice(name.bytes())?;
    }
    Ok(())
}

fn add_fault(alloc: Global, words: &mut Vec<u8>, fault: &LdfFault) -> Result<(), AllocError> {
    match fault {
        LdfFault::Lex { fault } => match fault {
            LexFault::OpenString { at } => add_place(alloc, words, b"string", *at),
            LexFault::OpenComment { at } => add_place(alloc, words, b"comment", *at),
            LexFault::Byte { at } => add_place(alloc, words, b"byte", *at),
            LexFault::Memory => words.extend_from_slice(b"memory").map_err(|_| AllocError),
        },
        LdfFault::Statement { at } => add_place(alloc, words, b"statement", *at),
        LdfFault::Scale { at } => add_place(alloc, words, b"scale", *at),
        LdfFault::UnknownName { at } => add_place(alloc, words, b"name", *at),
        LdfFault::Check { fault } => add_check(alloc, words, fault),
        LdfFault::Memory => words.extend_from_slice(b"memory").map_err(|_| AllocError),
    }
}

/// What the text describes, or its fault, in words.
fn shown(alloc: Global, text: &[u8]) -> Result<Vec<u8>, AllocError> {
    let mut words = Vec::new(alloc);
    match read_ldf(alloc, text) {
        Ok(valid) => add_database(alloc, &mut words, &valid)?,
        Err(fault) => add_fault(alloc, &mut words, &fault)?,
    }
    Ok(words)
}

fn are_shown(rt: &impl Abort, alloc: Global, rows: &[(&[u8], &[u8])]) -> Result<(), Fail> {
    for row in rows {
        let words = shown(alloc, row.0)?;
        assert_eq!(rt; words.as_slice(), row.1);
    }
    Ok(())
}

/// Texts that describe a database: each message, its signals, and their entries.
const DATABASES: [(&[u8], &[u8]); 19] = [
    (
        b"LIN_description_file;\nLIN_protocol_version = \"2.1\";\nLIN_language_version = \"2.1\";\nL\
            IN_speed = 19.2 kbps;\nNodes { Master: M, 5 ms, 0.1 ms; Slaves: S; }\nSignals { Temp: \
            8, 0, S, M; }\nFrames { Status: 16, S, 2 { Temp, 0; } }\nSignal_encoding_types { TempEn\
            c { logical_value, 255, \"invalid\";\n  physical_value, 0, 255, 0.5, -40, \"degC\"; } } \
            // one encoding\nSignal_representation { TempEnc: Temp; }\n",
        b"Status 16 2: Temp 0 8 [255 invalid, 0..255 5 -400 1 degC]",
    ),
    (b"LIN_description_file;", b""),
    (
        b"\xef\xbb\xbf// first\n/* a */ LIN_description_file /* b */ ; // end",
        b"",
    ),
    (
        b"LIN_description_file;x = ;Signals = x ;Nodes{}Node_attributes{S{LIN_protocol=\"2.1\";confi\
            gurable_frames{F;}P2_min=50 ms;}}Schedule_tables{T{F delay 10 ms;AssignNAD{S}delay 10 ms\
            ;}}Signals{T:8,0,S;}Frames{F:1,N,1{T,0;}}",
        b"F 1 1: T 0 8 []",
    ),
    (
        b"LIN_description_file;Diagnostic_signals{MasterReqB0:8,0;SlaveRespB0:8,0;}Diagnostic_frames\
            {MasterReq:0x3c{MasterReqB0,0;}}Signals{T:8,0,S;}Frames{F:1,N,1{T,0;}}",
        b"F 1 1: T 0 8 []",
    ),
    (
        b"LIN_description_file;Signals{T:0x8,0xFF,S,A,B;}Frames{F:0x3F,N,0x8{T,0X10;}}",
        b"F 63 8: T 16 8 []",
    ),
    (
        b"LIN_description_file;Signals{T:16,9223372036854775807,S;}Frames{F:0,N,0{T,14279;}}",
        b"F 0 0: T 14279 16 []",
    ),
    (
        b"LIN_description_file;Frames{F:1,N,1{T,0;}}Signals{T:1,0,S;}",
        b"F 1 1: T 0 1 []",
    ),
    (
        b"LIN_description_file;Signals{A:1,0,S;}Frames{F:1,N,1{A,0;}}Signals{B:2,0,S;}Frames{G:2,N,1\
            {B,3;A,0;}}",
        b"F 1 1: A 0 1 []; G 2 1: B 3 2 [], A 0 1 []",
    ),
    (
        b"LIN_description_file;Signals{A:16,{1,2},S;}Frames{F:1,N,2{A,0;}}Signal_encoding_types{E{bc\
            d_value;}}Signal_representation{E:A;}",
        b"F 1 2: A 0 16 []",
    ),
    (
        b"LIN_description_file;Signals{A:64,{0x0},S;}Frames{F:1,N,8{A,0;}}",
        b"F 1 8: A 0 64 []",
    ),
    (
        b"LIN_description_file;Signals{T:8,0,S;T:4,0,S;}Frames{F:1,N,1{T,0;}}",
        b"F 1 1: T 0 8 []",
    ),
    (
        b"LIN_description_file;Signals{T:8,0,S;}Frames{F:1,N,1{T,0;}}Signal_encoding_types{E{bcd_val\
            ue;}E{logical_value,1;}}Signal_representation{E:T;}",
        b"F 1 1: T 0 8 [plain]",
    ),
    (
        b"LIN_description_file;Signals{T:8,0,S;}Frames{F:1,N,1{T,0;}}Signal_encoding_types{E{ascii_v\
            alue;}D{logical_value,1,\"a\";}}Signal_representation{D:T;E:T;}",
        b"F 1 1: T 0 8 [1 a]",
    ),
    (
        b"LIN_description_file;Signals{T:8,0,S;}Frames{F:1,N,1{T,0;}}Signal_representation{E:X,T;D:T\
            ;}Signal_encoding_types{D{}E{logical_value,0x10;physical_value,1,2,1,0;}}",
        b"F 1 1: T 0 8 [16, 1..2 1 0 0 ]",
    ),
    (
        b"LIN_description_file;Signals{T:8,0,S;}Frames{F:1,N,1{T,0;}}Signal_encoding_types{E{logical\
            _value,1,\"// no comment\";logical_value,2,\"say \\\"x\\\"\";physical_value,0,9,+1.50,-.\
            5,\"\xc2\xb0C\";}}Signal_representation{E:T;}",
        b"F 1 1: T 0 8 [1 // no comment, 2 say \"x\", 0..9 15 -5 1 \xc2\xb0C]",
    ),
    (
        b"LIN_description_file;Signals{T:8,0,S;}Frames{F:1,N,1{T,0;}}Signal_encoding_types{E{physica\
            l_value,0,9,1E-30,0;physical_value,0,9,4611686018427387903,0;}}Signal_representation{E:T;}",
        b"F 1 1: T 0 8 [0..9 1 0 30 , 0..9 4611686018427387903 0 0 ]",
    ),
    (
        b"LIN_description_file;Signals{T:8,0,S;}Frames{F:1,N,1{T,0;}G:2,N,1{T,0;}}",
        b"F 1 1: T 0 8 []; G 2 1: T 0 8 []",
    ),
    (
        b"LIN_description_file;Signals{aaaaaaaaaaaaaaaaaaaaaaaaaaaaaaaaaaaaaaaaaaaaaaaaaaaaaaaaaaaaa\
            aaaaaaaaaaaaaaaaaaaaaaaaaaaaaaaaaaaaaaaaaaaaaaaaaaaaaaaaaaaaaaaaaaaa:8,0,S;T:8,0,S;}Fram\
            es{F:1,N,1{T,0;}}",
        b"F 1 1: T 0 8 []",
    ),
];

/// Texts that are not UTF-8, be it for a byte of a string or of a comment: each byte of a string is a character.
const LATIN_1: [(&[u8], &[u8]); 2] = [
    (
        b"LIN_description_file;Signals{T:8,0,S;}Frames{F:1,N,1{T,0;}}Signal_encoding_types{E{physica\
            l_value,0,9,1,0,\"\xb0C\";logical_value,1,\"\xe4\xf6\";}}Signal_representation{E:T;}",
        b"F 1 1: T 0 8 [0..9 1 0 0 \xc2\xb0C, 1 \xc3\xa4\xc3\xb6]",
    ),
    (
        b"LIN_description_file;// \xb0C\nSignals{T:8,0,S;}Frames{F:1,N,1{T,0;}}Signal_encoding_types{E{\
            physical_value,0,9,1,0,\"\xc2\xb0C\";}}Signal_representation{E:T;}",
        b"F 1 1: T 0 8 [0..9 1 0 0 \xc3\x82\xc2\xb0C]",
    ),
];

/// Texts without statements, with a faulty one, or with one that breaks off.
const STATEMENT_FAULTS: [(&[u8], &[u8]); 31] = [
    (b"", b"statement 0"),
    (b" // a\n", b"statement 6"),
    (b"LIN_description_file", b"statement 0"),
    (b" Nodes{}", b"statement 1"),
    (
        b"LIN_description_file;LIN_description_file;",
        b"statement 21",
    ),
    (b"LIN_description_file;Nodes{{}", b"statement 21"),
    (b"LIN_description_file;x = { ;", b"statement 21"),
    (b"LIN_description_file;x = 1", b"statement 21"),
    (b"LIN_description_file;Nodes{}}", b"statement 28"),
    (
        b"LIN_description_file;Nodes{}Signals{T:8,0,S}",
        b"statement 28",
    ),
    (
        b"LIN_description_file;Nodes{}Signals{T:17,0,S;}",
        b"statement 28",
    ),
    (
        b"LIN_description_file;Nodes{}Signals{T:0,0,S;}",
        b"statement 28",
    ),
    (
        b"LIN_description_file;Nodes{}Signals{T:12,{0},S;}",
        b"statement 28",
    ),
    (
        b"LIN_description_file;Nodes{}Signals{T:72,{0},S;}",
        b"statement 28",
    ),
    (
        b"LIN_description_file;Nodes{}Signals{T:8,{},S;}",
        b"statement 28",
    ),
    (
        b"LIN_description_file;Nodes{}Signals{T:8,{0,},S;}",
        b"statement 28",
    ),
    (
        b"LIN_description_file;Nodes{}Signals{T:8,0;}",
        b"statement 28",
    ),
    (
        b"LIN_description_file;Nodes{}Signals{T:8,9223372036854775808,S;}",
        b"statement 28",
    ),
    (
        b"LIN_description_file;Nodes{}Signals{T:8.0,0,S;}",
        b"statement 28",
    ),
    (
        b"LIN_description_file;Nodes{}Frames{F:64,N,1{}}",
        b"statement 28",
    ),
    (
        b"LIN_description_file;Nodes{}Frames{F:1,N,9{}}",
        b"statement 28",
    ),
    (
        b"LIN_description_file;Nodes{}Frames{F:1,N,1{T,14280;}}",
        b"statement 28",
    ),
    (
        b"LIN_description_file;Nodes{}Frames{F:1,N,1{T;}}",
        b"statement 28",
    ),
    (
        b"LIN_description_file;Nodes{}Frames{F:1,1{}}",
        b"statement 28",
    ),
    (
        b"LIN_description_file;Nodes{}Signal_encoding_types{E{logical_value;}}",
        b"statement 28",
    ),
    (
        b"LIN_description_file;Nodes{}Signal_encoding_types{E{logical_value,1,2;}}",
        b"statement 28",
    ),
    (
        b"LIN_description_file;Nodes{}Signal_encoding_types{E{physical_value,0,9,0x1,0;}}",
        b"statement 28",
    ),
    (
        b"LIN_description_file;Nodes{}Signal_encoding_types{E{physical_value,0,9,1;}}",
        b"statement 28",
    ),
    (
        b"LIN_description_file;Nodes{}Signal_encoding_types{E{hex_value;}}",
        b"statement 28",
    ),
    (
        b"LIN_description_file;Nodes{}Signal_representation{E:;}",
        b"statement 28",
    ),
    (
        b"LIN_description_file;Nodes{}Signal_representation{E T;}",
        b"statement 28",
    ),
];

/// Texts with other faults.
const OTHER_FAULTS: [(&[u8], &[u8]); 13] = [
    (b"LIN_description_file;\"", b"string 21"),
    (b"LIN_description_file;/*", b"comment 21"),
    (b"LIN_description_file;x=#;", b"byte 23"),
    (
        b"LIN_description_file;\nFrames { F: 1, N, 1 { Tmp, 0; } }",
        b"name 44",
    ),
    (
        b"LIN_description_file;Signal_representation{E:T;}Frames{F:1,N,1{T,0;}}",
        b"name 43",
    ),
    (
        b"LIN_description_file;Frames{F:1,N,1{T,0;}}Signal_representation{E:T;}",
        b"name 36",
    ),
    (
        b"LIN_description_file;Signals{T:8,0,S;}Frames{F:1,N,1{T,0;}}Signal_representation{E:X;}",
        b"name 81",
    ),
    (
        b"LIN_description_file;Frames{F:1,N,1{T,0;}}Signal_encoding_types{D{physical_value,0,1,46116\
            86018427387904,0;}}",
        b"scale 66",
    ),
    (
        b"LIN_description_file;Signal_encoding_types{D{physical_value,0,1,1,0;physical_value,0,1,1e-30,5;}}",
        b"scale 68",
    ),
    (
        b"LIN_description_file;Signal_encoding_types{D{physical_value,0,1,1e-31,0;}}",
        b"scale 45",
    ),
    (
        b"LIN_description_file;Signals{T:8,0,S;}Frames{F:1,N,1{T,0;T,8;}}",
        b"signal 1 T",
    ),
    (
        b"LIN_description_file;Signals{T:8,0,S;}Frames{F:1,N,1{}G:1,N,1{}}",
        b"message 1",
    ),
    (
        b"LIN_description_file;Signals{aaaaaaaaaaaaaaaaaaaaaaaaaaaaaaaaaaaaaaaaaaaaaaaaaaaaaaaaaaaaa\
            aaaaaaaaaaaaaaaaaaaaaaaaaaaaaaaaaaaaaaaaaaaaaaaaaaaaaaaaaaaaaaaaaaaa:8,0,S;}Frames{F:\
            1,N,1{aaaaaaaaaaaaaaaaaaaaaaaaaaaaaaaaaaaaaaaaaaaaaaaaaaaaaaaaaaaaaaaaaaaaaaaaaaaaaaaaaa\
            aaaaaaaaaaaaaaaaaaaaaaaaaaaaaaaaaaaaaaaaaaaaaaa,0;}}",
        b"limit 1 aaaaaaaaaaaaaaaaaaaaaaaaaaaaaaaaaaaaaaaaaaaaaaaaaaaaaaaaaaaaaaaaaaaaaaaaaaaaaaaaaa\
            aaaaaaaaaaaaaaaaaaaaaaaaaaaaaaaaaaaaaaaaaaaaaaa",
    ),
];

#[test]
fn texts_describe_their_databases(rt: HostRuntime) -> Result<(), Fail> {
    are_shown(&rt, rt.alloc(), &DATABASES)
}

#[test]
fn texts_that_are_not_utf8_are_latin_1(rt: HostRuntime) -> Result<(), Fail> {
    are_shown(&rt, rt.alloc(), &LATIN_1)
}

#[test]
fn statements_break_off_at_their_first_word(rt: HostRuntime) -> Result<(), Fail> {
    are_shown(&rt, rt.alloc(), &STATEMENT_FAULTS)
}

#[test]
fn other_faults_have_their_places(rt: HostRuntime) -> Result<(), Fail> {
    are_shown(&rt, rt.alloc(), &OTHER_FAULTS)
}

/// The text with a comment behind each token, of both kinds in turn.
fn with_comments(alloc: Global, text: &[u8]) -> Result<Vec<u8>, AllocError> {
    let list = match tokens(alloc, text, true) {
        Ok(list) => list,
        Err(_) => return Err(AllocError),
    };
    let mut commented = Vec::new(alloc);
    for (place, token) in list.iter().enumerate() {
        commented.extend_from_slice(token_text(text, *token))?;
        commented.extend_from_slice(if place % 2 == 0 {
            b"/* \" { ; */".as_slice()
        } else {
            b"// \" } ;\n".as_slice()
        })?;
    }
    Ok(commented)
}

#[test]
fn comments_may_come_between_any_two_tokens(rt: HostRuntime) -> Result<(), Fail> {
    for row in &DATABASES {
        let text = with_comments(rt.alloc(), row.0)?;
        let words = shown(rt.alloc(), &text)?;
        assert_eq!(rt; words.as_slice(), row.1);
    }
    Ok(())
}

#[test]
fn a_million_open_braces_are_one_fault(rt: HostRuntime) -> Result<(), Fail> {
    let mut text = b"LIN_description_file;Nodes".to_vec(rt.alloc())?;
    for _ in 0..1_000_000 {
        text.push(b'{')?;
    }
    let words = shown(rt.alloc(), text.as_slice())?;
    assert_eq!(rt; words.as_slice(), b"statement 21".as_slice());
    Ok(())
}
