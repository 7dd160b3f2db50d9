//! What frames mean under files.

use super::showing::frame_text;
use super::*;
use std::alloc::Global;
use std::process::Abort;
use std::test::*;

/// A file, a frame's identifier and bytes, and what the frame means under the file.
type Row = (&'static [u8], u32, &'static [u8], &'static [u8]);

/// Bit orders, signs, scalings and bytes that are missing.
const DECODED: [Row; 8] = [
    (
        b"VERSION \"\"\nBO_ 256 Engine: 8 ECU\n SG_ S : 7|16@0+ (1,0) [0|0] \"\" Vector__XXX\n",
        256,
        b"\x124",
        b"S 4660 4660 \"\";",
    ),
    (
        b"VERSION \"\"\nBO_ 256 Engine: 8 ECU\n SG_ S : 3|12@0- (1,0) [0|0] \"\" Vector__XXX\n",
        256,
        b"\x0F\xFE",
        b"S -2 -2 \"\";",
    ),
    (
        b"VERSION \"\"\nBO_ 256 Engine: 8 ECU\n SG_ S : 0|64@1- (1,0) [0|0] \"\" Vector__XXX\n",
        256,
        b"\xFF\xFF\xFF\xFF\xFF\xFF\xFF\xFF",
        b"S -1 -1 \"\";",
    ),
    (
        b"VERSION \"\"\nBO_ 256 Engine: 8 ECU\n \
          SG_ S : 0|64@1+ (4611686018427387903,0) [0|0] \"\" Vector__XXX\n",
        256,
        b"\xFF\xFF\xFF\xFF\xFF\xFF\xFF\xFF",
        b"S 18446744073709551615 85070591730234615842785221765805113345 \"\";",
    ),
    (
        b"VERSION \"\"\nBO_ 256 Engine: 8 ECU\n SG_ S : 0|16@1+ (1E-005,-40) [0|0] \"\" Vector__XXX\n",
        256,
        b"90",
        b"S 12345 -39.87655 \"\";",
    ),
    (
        b"VERSION \"\"\nBO_ 256 Engine: 8 ECU\n SG_ S : 0|16@1+ (0.25,0) [0|0] \"\" Vector__XXX\n",
        256,
        b"\xA0\x0F",
        b"S 4000 1000 \"\";",
    ),
    (
        b"VERSION \"\"\nBO_ 256 Engine: 8 ECU\n SG_ A : 0|8@1+ (1,0) [0|0] \"\" Vector__XXX\n \
          SG_ B : 16|16@1+ (1,0) [0|0] \"\" Vector__XXX\n",
        256,
        b"\x01\x02\x03",
        b"A 1 1 \"\";",
    ),
    (
        b"VERSION \"\"\nBO_ 256 Engine: 8 ECU\n SG_ A : 15|16@0+ (1,0) [0|0] \"\" Vector__XXX\n \
          SG_ B : 23|16@0+ (1,0) [0|0] \"\" Vector__XXX\n",
        256,
        b"\x01\x02\x03",
        b"A 515 515 \"\";",
    ),
];

/// Extended multiplexing, and a file that is not UTF-8.
const SELECTED: [Row; 3] = [
    (
        b"VERSION \"\"\nBO_ 512 Mux: 8 ECU\n SG_ Top M : 0|8@1+ (1,0) [0|0] \"\" Vector__XXX\n \
          SG_ Mid m1M : 8|8@1+ (1,0) [0|0] \"\" Vector__XXX\n \
          SG_ Low m2 : 16|8@1+ (1,0) [0|0] \"\" Vector__XXX\nSG_MUL_VAL_ 512 Mid Top 1-1;\n\
          SG_MUL_VAL_ 512 Low Mid 2-3;\n",
        512,
        b"\x00\x02\x05",
        b"Top 0 0 \"\";",
    ),
    (
        b"VERSION \"\"\nBO_ 512 Mux: 8 ECU\n SG_ Top M : 0|8@1+ (1,0) [0|0] \"\" Vector__XXX\n \
          SG_ Mid m1M : 8|8@1+ (1,0) [0|0] \"\" Vector__XXX\n \
          SG_ Low m2 : 16|8@1+ (1,0) [0|0] \"\" Vector__XXX\nSG_MUL_VAL_ 512 Mid Top 1-1;\n\
          SG_MUL_VAL_ 512 Low Mid 2-3;\n",
        512,
        b"\x01\x03\x05",
        b"Top 1 1 \"\";Mid 3 3 \"\";Low 5 5 \"\";",
    ),
    (
        b"VERSION \"\"\nNS_ :\n\tNS_DESC_\n\tCM_\n\tBA_DEF_\n\tVAL_\nBS_:\nBU_: ECU Tester\n\
          BO_ 256 Engine: 8 ECU\n SG_ Speed : 0|16@1+ (0.25,0) [0|16383.75] \"rpm\" Tester\n \
          SG_ Oil : 16|8@1- (1,40) [-88|167] \"\xB0C\" Tester\n \
          SG_ Gear : 24|4@1+ (1,0) [0|15] \"\" Tester\nCM_ SG_ 256 Gear \"Gear; as shown\";\n\
          BA_DEF_ BO_ \"GenMsgCycleTime\" INT 0 1000;\nBA_ \"GenMsgCycleTime\" BO_ 256 100;\n\
          VAL_ 256 Gear 0 \"Neutral\" 1 \"First\" ;\n",
        256,
        b"\xA0\x0F\xEC\x01",
        b"Speed 4000 1000 \"rpm\";Oil -20 20 \"\xC2\xB0C\";Gear 1 1 \"\" \"First\";",
    ),
];

/// Value texts of several statements, with signs, and a unit in UTF-8.
const LABELLED: [Row; 6] = [
    (
        b"VERSION \"\"\nBO_ 256 Engine: 8 ECU\n SG_ S : 0|8@1+ (1,0) [0|0] \"\" Vector__XXX\n\
          VAL_ 256 S 1 \"a\";\nVAL_ 256 S 2 \"b\" 1 \"c\";\n",
        256,
        b"\x01",
        b"S 1 1 \"\" \"a\";",
    ),
    (
        b"VERSION \"\"\nBO_ 256 Engine: 8 ECU\n SG_ S : 0|8@1+ (1,0) [0|0] \"\" Vector__XXX\n\
          VAL_ 256 S 1 \"a\";\nVAL_ 256 S 2 \"b\" 1 \"c\";\n",
        256,
        b"\x02",
        b"S 2 2 \"\" \"b\";",
    ),
    (
        b"VERSION \"\"\nBO_ 256 Engine: 8 ECU\n SG_ S : 0|8@1- (1,0) [0|0] \"\" Vector__XXX\n\
          VAL_ 256 S 1.0 \"a\" - 1 \"minus \\\" one\" +2 \"two\";\n",
        256,
        b"\xFF",
        b"S -1 -1 \"\" \"minus \" one\";",
    ),
    (
        b"VERSION \"\"\nBO_ 256 Engine: 8 ECU\n SG_ S : 0|8@1- (1,0) [0|0] \"\" Vector__XXX\n\
          VAL_ 256 S 1.0 \"a\" - 1 \"minus \\\" one\" +2 \"two\";\n",
        256,
        b"\x01",
        b"S 1 1 \"\";",
    ),
    (
        b"VERSION \"\"\nBO_ 256 Engine: 8 ECU\n SG_ S : 0|8@1- (1,0) [0|0] \"\" Vector__XXX\n\
          VAL_ 256 S 1.0 \"a\" - 1 \"minus \\\" one\" +002 \"two\";\n",
        256,
        b"\x02",
        b"S 2 2 \"\" \"two\";",
    ),
    (
        b"BO_ 256 Engine: 8 ECU\n SG_ S : 0|8@1+ (1,0) [0|0] \"\xC2\xB0C\" X\n",
        256,
        b"\x02",
        b"S 2 2 \"\xC2\xB0C\";",
    ),
];

/// Each frame means what its row says.
fn hold(rt: &impl Abort, alloc: Global, rows: &[Row]) -> Result<(), Fail> {
    for (file, id, bytes, meaning) in rows {
        let text = frame_text(alloc, *file, *id, *bytes)?;
        assert_eq!(rt; text.as_slice(), *meaning);
    }
    Ok(())
}

#[test]
fn frames_mean_their_signals(rt: HostRuntime) -> Result<(), Fail> {
    hold(&rt, rt.alloc(), &DECODED)
}

#[test]
fn multiplexed_signals_are_selected(rt: HostRuntime) -> Result<(), Fail> {
    hold(&rt, rt.alloc(), &SELECTED)
}

#[test]
fn value_texts_are_labels(rt: HostRuntime) -> Result<(), Fail> {
    hold(&rt, rt.alloc(), &LABELLED)
}
