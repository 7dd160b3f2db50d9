//! Files that are refused, and their faults.

use super::showing::checked_text;
use super::*;
use std::alloc::{AllocError, Global};
use std::process::Abort;
use std::test::*;

/// Each fault, and files beside it that have none.
const FAULTS: [(&[u8], &str); 20] = [
    (b"", "ok 0 0"),
    (b"VERSION \"\"\nBO_ 256 Engine: 8", "statement 11"),
    (b"VERSION \"", "string 8"),
    (b"VERSION", "statement 0"),
    (
        b"VERSION \"\"\nNS_ :\n\tNS_DESC_\n\tCM_\n\tBA_DEF_\n\tVAL_\nBS_:\nBU_: ECU Tester\n\
          BO_ 256 Engine: 8 ECU\n SG_ Speed : 0|16@1+ (0.25,0) [0|16383.75] \"rpm\" Tester\n \
          SG_ Oil : 16|8@1- (1,40) [-88|167] \"\xB0C\" Tester\n \
          SG_ Gear : 24|4@1+ (1,0) [0|15] \"\" Tester\nCM_ SG_ 256 Gear \"Gear; as shown\";\n\
          BA_DEF_ BO_ \"GenMsgCycleTime\" INT 0 1000;\nBA_ \"GenMsgCycleTime\" BO_ 256 100;\n\
          VAL_ 256 Gear 0 \"Neutral\" 1 \"First\" ;\n",
        "ok 1 3",
    ),
    (
        b"VERSION \"\"\nBO_ 256 Engine: 8 ECU\n   SG_ Speed : 0|16@1+ (4611686018427387904,0) [0|0] \"\" X\n",
        "scale 36",
    ),
    (
        b"VERSION \"\"\nBO_ 256 Engine: 8 ECU\n SG_ Speed : 0|16@1+ (1,0) [0|0] \"\" Vector__XXX\n\
          SIG_VALTYPE_ 256 Speed : 1;\n",
        "float 256 Speed",
    ),
    (
        b"VERSION \"\"\nBO_ 256 Engine: 8 ECU\n SG_ Speed : 0|16@1+ (1,0) [0|0] \"\" Vector__XXX\n\
          SIG_VALTYPE_ 256 Speed : 1;\nSIG_VALTYPE_ 256 Speed 0;\n",
        "ok 1 1",
    ),
    (
        b"VERSION \"\"\nBO_ 256 Engine: 8 ECU\n SG_ Speed : 0|16@1+ (1,0) [0|0] \"\" Vector__XXX\n\
          SIG_VALTYPE_ 256 Speed : 0;\nSIG_VALTYPE_ 256 Speed 02;\n",
        "float 256 Speed",
    ),
    (
        b"BO_ 512 Mux: 8 ECU\n SG_ Top M : 0|8@1+ (1,0) [0|0] \"\" Vector__XXX\n \
          SG_ Mid m1M : 0|8@1+ (1,0) [0|0] \"\" Vector__XXX\n \
          SG_ Low m2M : 0|8@1+ (1,0) [0|0] \"\" Vector__XXX\nSG_MUL_VAL_ 512 Mid Low 1-1;\n\
          SG_MUL_VAL_ 512 Low Mid 2-3;\n",
        "mux 512 Mid cycle",
    ),
    (
        b"BO_ 512 Mux: 8 ECU\n SG_ Top M : 0|8@1+ (1,0) [0|0] \"\" Vector__XXX\n \
          SG_ Mid m1M : 0|8@1+ (1,0) [0|0] \"\" Vector__XXX\n \
          SG_ Low m2 : 0|8@1+ (1,0) [0|0] \"\" Vector__XXX\nSG_MUL_VAL_ 512 Mid Nope 1-1;\n",
        "mux 512 Mid noparent",
    ),
    (
        b"BO_ 512 Mux: 8 ECU\n SG_ P M : 0|8@1+ (1,0) [0|0] \"\" Vector__XXX\n \
          SG_ Q M : 0|8@1+ (1,0) [0|0] \"\" Vector__XXX\n SG_ C m1 : 0|8@1+ (1,0) [0|0] \"\" Vector__XXX\n\
          ",
        "mux 512 C ambiguous",
    ),
    (
        b"BO_ 512 Mux: 8 ECU\n SG_ S0 M : 0|8@1+ (1,0) [0|0] \"\" Vector__XXX\n \
          SG_ S1 m1M : 0|8@1+ (1,0) [0|0] \"\" Vector__XXX\n \
          SG_ S2 m1M : 0|8@1+ (1,0) [0|0] \"\" Vector__XXX\n \
          SG_ S3 m1M : 0|8@1+ (1,0) [0|0] \"\" Vector__XXX\n \
          SG_ S4 m1M : 0|8@1+ (1,0) [0|0] \"\" Vector__XXX\n \
          SG_ S5 m1M : 0|8@1+ (1,0) [0|0] \"\" Vector__XXX\n \
          SG_ S6 m1M : 0|8@1+ (1,0) [0|0] \"\" Vector__XXX\n \
          SG_ S7 m1M : 0|8@1+ (1,0) [0|0] \"\" Vector__XXX\n \
          SG_ S8 m1M : 0|8@1+ (1,0) [0|0] \"\" Vector__XXX\n \
          SG_ S9 m1M : 0|8@1+ (1,0) [0|0] \"\" Vector__XXX\nSG_MUL_VAL_ 512 S1 S0 1-1;\n\
          SG_MUL_VAL_ 512 S2 S1 1-1;\nSG_MUL_VAL_ 512 S3 S2 1-1;\nSG_MUL_VAL_ 512 S4 S3 1-1;\n\
          SG_MUL_VAL_ 512 S5 S4 1-1;\nSG_MUL_VAL_ 512 S6 S5 1-1;\nSG_MUL_VAL_ 512 S7 S6 1-1;\n\
          SG_MUL_VAL_ 512 S8 S7 1-1;\nSG_MUL_VAL_ 512 S9 S8 1-1;\n",
        "mux 512 S9 deep",
    ),
    (
        b"BO_ 512 Mux: 8 ECU\nSG_MUL_VAL_ 512 A B 0-18446744073709551616;\n",
        "statement 19",
    ),
    (
        b"BO_ 512 Mux: 8 ECU\nSG_MUL_VAL_ 512 A B 0-18446744073709551615;\n",
        "ok 1 0",
    ),
    (
        b"VERSION \"\"\nBO_ 256 Engine: 8 ECU\n SG_ Speed : 0|16@1+ (1,0) [0|0] \"\" Vector__XXX\n\
          BO_ 256 Again: 8 ECU\n",
        "message 256",
    ),
    (
        b"VERSION \"\"\nBO_ 256 Engine: 8 ECU\n SG_ Speed : 0|16@1+ (1,0) [0|0] \"\" Vector__XXX\n \
          SG_ Speed : 0|16@1+ (1,0) [0|0] \"\" Vector__XXX\n",
        "signal 256 Speed",
    ),
    (
        b"VERSION \"\"\nBO_ 256 Engine: 8 ECU\n SG_ Speed : 0|65@1+ (1,0) [0|0] \"\" Vector__XXX\n",
        "size 256 Speed",
    ),
    (b"BO_ 2147483649 M: 1786 E", "size 2147483649"),
    (b"BO_ 3221225473 M: 1786 E", "size 2147483649"),
];

/// Forms that are almost those of statements, scalings and names.
const FORMS: [(&[u8], &str); 22] = [
    (b"BO_ 2048 M: 8 E", "statement 0"),
    (
        b"BO_ 256 Engine: 8\n SG_ Speed : 0|16@1+ (1,0) [0|0] \"\" X",
        "statement 23",
    ),
    (b"NS_ :\nBO_ 256 M: 8 E", "statement 10"),
    (
        b"VERSION \"\"\nBO_ 256 Engine: 8 ECU\n SG_ Speed : 0|16@1+ (1,0) [0|0] \"\" Vector__XXX\n\
          CM_ \"x\";\n SG_ S : 0|1@1+ (1,0) [0|0] \"\" X",
        "statement 91",
    ),
    (b"SG_ S : 0|1@1+ (1,0) [0|0] \"\" X", "statement 0"),
    (b"BS_: 500 : 1", "statement 5"),
    (
        b"VERSION \"\"\nBO_ 256 Engine: 8 ECU\n SG_ S : 0|8@01+ (1,0) [0|0] \"\" Vector__XXX\n",
        "statement 34",
    ),
    (
        b"VERSION \"\"\nBO_ 256 Engine: 8 ECU\n SG_ Speed : 0|16@1+ (1,0) [0|0] \"\" Vector__XXX,",
        "statement 80",
    ),
    (
        b"VERSION \"\"\nBO_ 256 Engine: 8 ECU\n SG_ Speed : 0|16@1+ (1,0) [0|0] \"\" Vector__XXX\n\
          VAL_ 256 Speed 1 \"a\" BO_ ;",
        "statement 81",
    ),
    (
        b"VERSION \"\"\nBO_ 256 Engine: 8 ECU\n SG_ Speed : 0|16@1+ (1,0) [0|0] \"\" Vector__XXX\n\
          VAL_ 256 Speed 1 \"a\"",
        "statement 81",
    ),
    (b"// a comment\nBO_", "byte 0"),
    (b"BO_ \"", "string 4"),
    (
        b"VERSION \"\"\nBO_ 256 Engine: 8 ECU\n SG_ Speed : 0|16@1+ (1,0) [0|0] \"\" Vector__XXX\n\
          SIG_VALTYPE_ 256 Speed : 3;",
        "statement 81",
    ),
    (
        b"VERSION \"\"\nBO_ 256 Engine: 8 ECU\n SG_ S : 0|8@1+ (1e-30,5) [0|0] \"\" Vector__XXX\n",
        "scale 34",
    ),
    (
        b"VERSION \"\"\nBO_ 256 Engine: 8 ECU\n \
          SG_ S : 0|8@1+ (0e99999999999,123456789012345678e-18) [0|0] \"\" Vector__XXX\n",
        "ok 1 1",
    ),
    (
        b"BO_ 3221225472 VECTOR__INDEPENDENT_SIG_MSG: 0 X\n SG_ S m1 : 0|80@1+ (1e99,0) [0|0] \"\" X\n\
          BO_ 256 M: 8 E",
        "ok 1 0",
    ),
    (
        b"BO_ 3221225472 V: 0 X\n SG_ S mm : 0|80@1+ (1e99,0) [0|0] \"\" X\n",
        "statement 23",
    ),
    (
        b"BO_ 0000000000000000000000000000000000000000256 M: 8 N",
        "ok 1 0",
    ),
    (
        b"BO_ 256 NNNNNNNNNNNNNNNNNNNNNNNNNNNNNNNNNNNNNNNNNNNNNNNNNNNNNNNNNNNN\
          NNNNNNNNNNNNNNNNNNNNNNNNNNNNNNNNNNNNNNNNNNNNNNNNNNNNNNNNNNNNNNNNNNNN: 8 E",
        "ok 1 0",
    ),
    (
        b"BO_ 256 NNNNNNNNNNNNNNNNNNNNNNNNNNNNNNNNNNNNNNNNNNNNNNNNNNNNNNNNNNNN\
          NNNNNNNNNNNNNNNNNNNNNNNNNNNNNNNNNNNNNNNNNNNNNNNNNNNNNNNNNNNNNNNNNNNNN: 8 E",
        "limit 256",
    ),
    (
        b"BO_ 256 M: 8 E\n \
          SG_ SSSSSSSSSSSSSSSSSSSSSSSSSSSSSSSSSSSSSSSSSSSSSSSSSSSSSSSSSSSS\
          SSSSSSSSSSSSSSSSSSSSSSSSSSSSSSSSSSSSSSSSSSSSSSSSSSSSSSSSSSSSSSSSSSSS : 0|8@1+ (1,0) [0|0] \"\" X",
        "ok 1 1",
    ),
    (
        b"BO_ 256 M: 8 E\n \
          SG_ SSSSSSSSSSSSSSSSSSSSSSSSSSSSSSSSSSSSSSSSSSSSSSSSSSSSSSSSSSSS\
          SSSSSSSSSSSSSSSSSSSSSSSSSSSSSSSSSSSSSSSSSSSSSSSSSSSSSSSSSSSSSSSSSSSSS : 0|8@1+ (1,0) [0|0] \"\" X",
        "limit 256 SSSSSSSSSSSSSSSSSSSSSSSSSSSSSSSSSSSSSSSSSSSSSSSSSSSSSSSSSSSS\
          SSSSSSSSSSSSSSSSSSSSSSSSSSSSSSSSSSSSSSSSSSSSSSSSSSSSSSSSSSSSSSSSSSSSS",
    ),
];

/// Each file is what its row says.
fn hold(rt: &impl Abort, alloc: Global, rows: &[(&[u8], &str)]) -> Result<(), Fail> {
    for (file, expected) in rows {
        let text = checked_text(alloc, *file)?;
        assert_eq!(rt; text.as_str(), *expected);
    }
    Ok(())
}

/// A message with so many signals of different names.
fn message_of(alloc: Global, count: u32) -> Result<Vec<u8>, AllocError> {
    let mut file = b"BO_ 256 M: 8 E\n".to_vec(alloc)?;
    for number in 0..count {
        let line = format!(in alloc; " SG_ S{number} : 0|1@1+ (1,0) [0|0] \"\" X\n")?;
        file.extend_from_slice(line.as_bytes())?;
    }
    Ok(file)
}

#[test]
fn a_message_has_1024_signals_at_most(rt: HostRuntime) -> Result<(), Fail> {
    let alloc = rt.alloc();
    let within = message_of(alloc, 1024)?;
    let text = checked_text(alloc, &within)?;
    assert_eq!(rt; text.as_str(), "ok 1 1024");
    let past = message_of(alloc, 1025)?;
    let text = checked_text(alloc, &past)?;
    assert_eq!(rt; text.as_str(), "limit 256");
    Ok(())
}

#[test]
fn files_have_their_first_fault(rt: HostRuntime) -> Result<(), Fail> {
    hold(&rt, rt.alloc(), &FAULTS)
}

#[test]
fn statements_keep_their_forms(rt: HostRuntime) -> Result<(), Fail> {
    hold(&rt, rt.alloc(), &FORMS)
}
