//! J1939 and LIN buses, and several buses of one bench.

use super::*;

const J1939: File<'static> = ("bench.txt", b"bus J j1939 j.log\n");

const GROUPS: &[Decoded] = &[
    (
        &[
            ("bench.txt", b"bus J j1939 j.log j.dbc\n"),
            (
                "j.dbc",
                b"VERSION \"\"\n\
                  BO_ 2364540158 EEC1: 8 Vector__XXX\n\
                  \x20SG_ EngSpeed : 24|16@1+ (0.125,0) [0|8031.875] \"rpm\" Vector__XXX\n",
            ),
            (
                "j.log",
                b"(0000000001.000000) can0 0CF00400#FFFFFF6813FFFFFF\n",
            ),
        ],
        b"start J 0\nm J 0 0 1000000 EEC1\ns EngSpeed 4968 621 \"rpm\"\nend J 1\n",
    ),
    (
        &[
            J1939,
            (
                "j.log",
                b"(1.000000) can0 18ECFF00#200A0002FFCAFE00\n\
                  (1.050000) can0 18EBFF00#0111223344556677\n\
                  (1.100000) can0 18EBFF00#028899AAFFFFFFFF\n",
            ),
        ],
        b"start J 0\n\
          u J 0 0 1000000 18ECFF00#200A0002FFCAFE00\n\
          u J 1 0 1050000 18EBFF00#0111223344556677\n\
          u J 2 0 1100000 18EBFF00#028899AAFFFFFFFF\n\
          t J 3 0 1100000 65226 0 255 112233445566778899AA -\n\
          end J 4\n",
    ),
    (
        &[
            J1939,
            (
                "j.log",
                b"(1.000000) can0 18ECFF00#200A0002FFCAFE00\n\
                  (1.050000) can0 18EBFF00#0111223344556677\n\
                  (1.050000) can0 18EBFF00#0111223344556677\n\
                  (1.100000) can0 18EBFF00#028899AAFFFFFFFF\n",
            ),
        ],
        b"start J 0\n\
          u J 0 0 1000000 18ECFF00#200A0002FFCAFE00\n\
          u J 1 0 1050000 18EBFF00#0111223344556677\n\
          u J 2 0 1050000 18EBFF00#0111223344556677\n\
          u J 3 0 1100000 18EBFF00#028899AAFFFFFFFF\n\
          t J 4 0 1100000 65226 0 255 112233445566778899AA -\n\
          end J 5\n",
    ),
    (
        &[
            J1939,
            (
                "j.log",
                b"(1.000000) can0 18ECFF00#200A0002FFCAFE00\n(1.050000) can0 18EBFF00#028899AAFFFFFFFF\n",
            ),
        ],
        b"start J 0\n\
          u J 0 0 1000000 18ECFF00#200A0002FFCAFE00\n\
          u J 1 0 1050000 18EBFF00#028899AAFFFFFFFF\n\
          c J 2 0 1050000 65226 0 255 order\n\
          end J 3\n",
    ),
    (
        &[
            J1939,
            (
                "j.log",
                b"(1.000000) can0 18ECFF00#200A0002FFCAFE00\n\
                  (1.050000) can0 18EBFF00#0111223344556677\n\
                  (1.080000) can0 18EC00FF#FFFFFFFFFFCAFE00\n",
            ),
        ],
        b"start J 0\n\
          u J 0 0 1000000 18ECFF00#200A0002FFCAFE00\n\
          u J 1 0 1050000 18EBFF00#0111223344556677\n\
          u J 2 0 1080000 18EC00FF#FFFFFFFFFFCAFE00\n\
          c J 3 0 1080000 65226 0 255 abort\n\
          end J 4\n",
    ),
    (
        &[
            J1939,
            (
                "j.log",
                b"(1.000000) can0 18EC0102#100A0002FFCAFE00\n\
                  (1.100000) can0 18EB0102#0111223344556677\n\
                  (2.350000) can0 18EB0102#028899AAFFFFFFFF\n",
            ),
        ],
        b"start J 0\n\
          u J 0 0 1000000 18EC0102#100A0002FFCAFE00\n\
          u J 1 0 1100000 18EB0102#0111223344556677\n\
          u J 2 0 2350000 18EB0102#028899AAFFFFFFFF\n\
          t J 3 0 2350000 65226 2 1 112233445566778899AA -\n\
          end J 4\n",
    ),
    (
        &[
            J1939,
            (
                "j.log",
                b"(1.000000) can0 18EC0102#100A0002FFCAFE00\n\
                  (1.100000) can0 18EB0102#0111223344556677\n\
                  (2.350001) can0 18EB0102#028899AAFFFFFFFF\n",
            ),
        ],
        b"start J 0\n\
          u J 0 0 1000000 18EC0102#100A0002FFCAFE00\n\
          u J 1 0 1100000 18EB0102#0111223344556677\n\
          u J 2 0 2350001 18EB0102#028899AAFFFFFFFF\n\
          c J 3 0 2350001 65226 2 1 late\n\
          end J 4\n",
    ),
];

#[test]
fn messages_of_parameter_groups_come_whole_or_cut(rt: HostRuntime) -> Result<(), Fail> {
    each_decodes(&rt, rt.alloc(), GROUPS)?;
    Ok(())
}

/// An engine's database as tools write them, not in UTF-8.
pub(super) const ENGINE: File<'static> = (
    "a.dbc",
    b"VERSION \"\"\n\
      NS_ :\n\
      \tNS_DESC_\n\
      \tCM_\n\
      \tBA_DEF_\n\
      \tVAL_\n\
      BS_:\n\
      BU_: ECU Tester\n\
      BO_ 256 Engine: 8 ECU\n\
      \x20SG_ Speed : 0|16@1+ (0.25,0) [0|16383.75] \"rpm\" Tester\n\
      \x20SG_ Oil : 16|8@1- (1,40) [-88|167] \"\xB0C\" Tester\n\
      \x20SG_ Gear : 24|4@1+ (1,0) [0|15] \"\" Tester\n\
      CM_ SG_ 256 Gear \"Gear; as shown\";\n\
      BA_DEF_ BO_ \"GenMsgCycleTime\" INT 0 1000;\n\
      BA_ \"GenMsgCycleTime\" BO_ 256 100;\n\
      VAL_ 256 Gear 0 \"Neutral\" 1 \"First\" ;\n",
);

/// A LIN cluster of one signal.
pub(super) const DESCRIPTION: &[u8] = b"LIN_description_file;\n\
      LIN_protocol_version = \"2.1\";\n\
      LIN_language_version = \"2.1\";\n\
      LIN_speed = 19.2 kbps;\n\
      Nodes { Master: M, 5 ms, 0.1 ms; Slaves: S; }\n\
      Signals { Temp: 8, 0, S, M; }\n\
      Frames { Status: 16, S, 2 { Temp, 0; } }\n\
      Signal_encoding_types { TempEnc { logical_value, 255, \"invalid\";\n\
      \x20 physical_value, 0, 255, 0.5, -40, \"degC\"; } } // one encoding\n\
      Signal_representation { TempEnc: Temp; }\n";

pub(super) const CLUSTER: File<'static> = ("l.ldf", DESCRIPTION);

const ENGINE_LOG: File<'static> = ("a.log", b"(0000000001.000000) can0 100#A00FEC01\n");

pub(super) const CLUSTER_LOG: File<'static> = ("l.log", b"(0000000001.000000) lin0 010#6400\n");

const BENCHES: &[Decoded] = &[
    (
        &[
            (
                "bench.txt",
                b"bus A can a.log a.dbc\nbus L lin l.log l.ldf\n",
            ),
            ENGINE,
            CLUSTER,
            ENGINE_LOG,
            CLUSTER_LOG,
        ],
        b"start A 0\n\
          m A 0 0 1000000 Engine\n\
          s Speed 4000 1000 \"rpm\"\n\
          s Oil -20 20 \"\xC2\xB0C\"\n\
          s Gear 1 1 \"\" \"First\"\n\
          end A 1\n\
          start L 0\n\
          m L 0 0 1000000 Status\n\
          s Temp 100 10 \"degC\"\n\
          end L 1\n",
    ),
    (
        &[
            ("bench.txt", b"bus L lin l.log l.ldf\n"),
            CLUSTER,
            (
                "l.log",
                b"(0000000001.000000) lin0 010#FF00\n(0000000001.000000) lin0 010#6400\n",
            ),
        ],
        b"start L 0\n\
          m L 0 0 1000000 Status\n\
          s Temp 255 255 \"\" \"invalid\"\n\
          m L 1 0 1000000 Status\n\
          s Temp 100 10 \"degC\"\n\
          end L 2\n",
    ),
];

#[test]
fn buses_are_decoded_under_databases_of_their_own(rt: HostRuntime) -> Result<(), Fail> {
    each_decodes(&rt, rt.alloc(), BENCHES)?;
    Ok(())
}
