//! What the files of real tools hold.

use super::showing::checked_text;
use super::*;
use std::alloc::Global;
use std::process::Abort;
use std::test::*;

/// Statements as other tools write them; a message behind them shows that the reader went on.
const REAL: [(&[u8], &str); 13] = [
    (
        b"VERSION \"\"\nNS_ : \n\tNS_DESC_\n\tCM_\n\tBA_DEF_\n\tBO_\n\nBS_:\n\nBU_: A B\n C\nBO_ 1 M: 8 A\n",
        "ok 1 0",
    ),
    (b"BS_: 500 : 1,2\nBU_:\nBO_ 1 M: 8 A\n", "ok 1 0"),
    (
        b"VERSION \"\"\r\n\r\nBU_:\tA\tB\r\nBO_\t256\tM:\t8\tA\r\n\tSG_\tS : 0|8@1+ (1,0) [0|0] \"\" B\r\n",
        "ok 1 1",
    ),
    (b"\xEF\xBB\xBFVERSION \"\"\nBO_ 1 M: 8 A\n", "ok 1 0"),
    (
        b"CM_ BO_ 256 \"a \\\"quoted\\\" word;\nand a line\";\nBO_ 1 M: 8 A\n",
        "ok 1 0",
    ),
    (
        b"VAL_TABLE_ Gears 1 \"First\" 0 \"Neutral\" ;\nBO_ 1 M: 8 A\n",
        "ok 1 0",
    ),
    (
        b"BA_DEF_ BO_ \"Cycle\" INT 0 1000;\nBA_DEF_DEF_ \"Cycle\" 100;\nBA_ \"Cycle\" BO_ 256 100;\n\
          BA_DEF_ \"F\" FLOAT -1.5E-3 1e3;\nBO_ 1 M: 8 A\n",
        "ok 1 0",
    ),
    (
        b"SIG_GROUP_ 256 G 1 : A B;\nBO_TX_BU_ 256 : A,B;\n\
          EV_ E: 0 [0|1] \"\" 0 1 DUMMY_NODE_VECTOR0 Vector__XXX;\nBO_ 1 M: 8 A\n",
        "ok 1 0",
    ),
    (
        b"VAL_ E 1 \"on\" 0 \"off\" ;\nVAL_ 256 S 0x1 \"a\" ;\nVAL_ ;\nCM_ ;\nBO_ 1 M: 8 A\n",
        "ok 1 0",
    ),
    (
        b"BO_ 2364540158 EEC1: 8 Vector__XXX\n \
          SG_ EngSpeed : 24|16@1+ (0.125,0) [0|8031.875] \"rpm\" Vector__XXX\n",
        "ok 1 1",
    ),
    (
        b"BO_ 1 M: 8 A\n SG_ S : 0|16@1+ (1.5E-05,-4.0e+01) [-1e3|1E3] \"\" A,B C , D\n \
          SG_ T : 16|8@1+ (.5,1.) [0|0] \"\"\n",
        "ok 1 2",
    ),
    (
        b"BO_ 1 M: 8 A\n SG_ BO_ : 0|16@1+ (1,0) [0|0] \"\" A\nVAL_ BO_ ;\n",
        "ok 1 1",
    ),
    (
        b"VAL_ 1 Unknown 1 \"x\";\nSIG_VALTYPE_ 1 Unknown 1;\nSG_MUL_VAL_ 1 Unknown Other 1-1;\n\
          BO_ 1 M: 8 A\n",
        "ok 1 0",
    ),
];

/// Each file is what its row says.
fn hold(rt: &impl Abort, alloc: Global, rows: &[(&[u8], &str)]) -> Result<(), Fail> {
    for (file, expected) in rows {
        let text = checked_text(alloc, *file)?;
        assert_eq!(rt; text.as_str(), *expected);
    }
    Ok(())
}

#[test]
fn real_files_are_read(rt: HostRuntime) -> Result<(), Fail> {
    hold(&rt, rt.alloc(), &REAL)
}
