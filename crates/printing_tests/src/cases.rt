//! Worked logs of a bus and their texts, of which a bench may have several.

use crate::databases::{ENGINE_SPEED, LAMPS, LEVEL, MessageRow, SPEED, STATUS};
use bench_model::Kind;

/// A log of a bus, the message of the bus's database where it has one, and the log's text.
#[derive(Drop)]
pub(crate) struct Case {
    pub bus: &'static [u8],
    pub kind: Kind,
    pub message: Option<MessageRow>,
    pub log: &'static str,
    pub text: &'static str,
}

pub(crate) const FRAME: Case = Case {
    bus: b"A",
    kind: Kind::Can,
    message: Some(SPEED),
    log: "(0000000001.000000) can0 100#A00F000000000000\n",
    text: "start A 0\n\
           m A 0 0 1000000 Engine\n\
           s Speed 4000 8000 \"rpm\"\n\
           end A 1\n",
};

/// Three frames in lines of 46 bytes.
pub(crate) const FRAMES: Case = Case {
    bus: b"A",
    kind: Kind::Can,
    message: Some(SPEED),
    log: "(0000000001.000000) can0 100#A00F000000000000\n\
          (0000000001.000001) can0 100#0100000000000000\n\
          (0000000001.000002) can0 101#0200000000000000\n",
    text: "start A 0\n\
           m A 0 0 1000000 Engine\n\
           s Speed 4000 8000 \"rpm\"\n\
           m A 1 0 1000001 Engine\n\
           s Speed 1 2 \"rpm\"\n\
           u A 2 0 1000002 101#0200000000000000\n\
           end A 3\n",
};

pub(crate) const EMPTY: Case = Case {
    bus: b"A",
    kind: Kind::Can,
    message: Some(SPEED),
    log: "",
    text: "end A 0\n",
};

/// One line of each kind. The last has 600 letters and no line feed.
pub(crate) const KINDS: Case = Case {
    bus: b"A",
    kind: Kind::Can,
    message: None,
    log: "(1.000000) can0 123##1AABB\n\
          (1.000001) can0 123#R\n\
          (1.000002) can0 20000004#0000000000000000\n\
          aaaaaaaaaaaaaaaaaaaaaaaaaaaaaaaaaaaaaaaaaaaaaaaaaaaaaaaaaaaaaaaaaaaaaaaaaaa\
          aaaaaaaaaaaaaaaaaaaaaaaaaaaaaaaaaaaaaaaaaaaaaaaaaaaaaaaaaaaaaaaaaaaaaaaaaaa\
          aaaaaaaaaaaaaaaaaaaaaaaaaaaaaaaaaaaaaaaaaaaaaaaaaaaaaaaaaaaaaaaaaaaaaaaaaaa\
          aaaaaaaaaaaaaaaaaaaaaaaaaaaaaaaaaaaaaaaaaaaaaaaaaaaaaaaaaaaaaaaaaaaaaaaaaaa\
          aaaaaaaaaaaaaaaaaaaaaaaaaaaaaaaaaaaaaaaaaaaaaaaaaaaaaaaaaaaaaaaaaaaaaaaaaaa\
          aaaaaaaaaaaaaaaaaaaaaaaaaaaaaaaaaaaaaaaaaaaaaaaaaaaaaaaaaaaaaaaaaaaaaaaaaaa\
          aaaaaaaaaaaaaaaaaaaaaaaaaaaaaaaaaaaaaaaaaaaaaaaaaaaaaaaaaaaaaaaaaaaaaaaaaaa\
          aaaaaaaaaaaaaaaaaaaaaaaaaaaaaaaaaaaaaaaaaaaaaaaaaaaaaaaaaaaaaaaaaaaaaaaaaaa",
    text: "start A 0\n\
           u A 0 0 1000000 123#AABB\n\
           r A 1 0 1000001 123\n\
           e A 2 0 1000002 20000004\n\
           x A 3 0\n\
           end A 4\n",
};

/// A message of two packets to all.
pub(crate) const TO_ALL: Case = Case {
    bus: b"J",
    kind: Kind::J1939,
    message: None,
    log: "(1.000000) can0 18ECFF00#200A0002FFCAFE00\n\
          (1.050000) can0 18EBFF00#0111223344556677\n\
          (1.100000) can0 18EBFF00#028899AAFFFFFFFF\n",
    text: "start J 0\n\
           u J 0 0 1000000 18ECFF00#200A0002FFCAFE00\n\
           u J 1 0 1050000 18EBFF00#0111223344556677\n\
           u J 2 0 1100000 18EBFF00#028899AAFFFFFFFF\n\
           t J 3 0 1100000 65226 0 255 112233445566778899AA -\n\
           end J 4\n",
};

/// The same with its first packet twice.
pub(crate) const TWICE: Case = Case {
    bus: b"J",
    kind: Kind::J1939,
    message: None,
    log: "(1.000000) can0 18ECFF00#200A0002FFCAFE00\n\
          (1.050000) can0 18EBFF00#0111223344556677\n\
          (1.050000) can0 18EBFF00#0111223344556677\n\
          (1.100000) can0 18EBFF00#028899AAFFFFFFFF\n",
    text: "start J 0\n\
           u J 0 0 1000000 18ECFF00#200A0002FFCAFE00\n\
           u J 1 0 1050000 18EBFF00#0111223344556677\n\
           u J 2 0 1050000 18EBFF00#0111223344556677\n\
           u J 3 0 1100000 18EBFF00#028899AAFFFFFFFF\n\
           t J 4 0 1100000 65226 0 255 112233445566778899AA -\n\
           end J 5\n",
};

/// The same without its first packet.
pub(crate) const OUT_OF_ORDER: Case = Case {
    bus: b"J",
    kind: Kind::J1939,
    message: None,
    log: "(1.000000) can0 18ECFF00#200A0002FFCAFE00\n\
          (1.050000) can0 18EBFF00#028899AAFFFFFFFF\n",
    text: "start J 0\n\
           u J 0 0 1000000 18ECFF00#200A0002FFCAFE00\n\
           u J 1 0 1050000 18EBFF00#028899AAFFFFFFFF\n\
           c J 2 0 1050000 65226 0 255 order\n\
           end J 3\n",
};

/// A message to one receiver, whose last packet comes just in time.
pub(crate) const IN_TIME: Case = Case {
    bus: b"J",
    kind: Kind::J1939,
    message: None,
    log: "(1.000000) can0 18EC0102#100A0002FFCAFE00\n\
          (1.100000) can0 18EB0102#0111223344556677\n\
          (2.350000) can0 18EB0102#028899AAFFFFFFFF\n",
    text: "start J 0\n\
           u J 0 0 1000000 18EC0102#100A0002FFCAFE00\n\
           u J 1 0 1100000 18EB0102#0111223344556677\n\
           u J 2 0 2350000 18EB0102#028899AAFFFFFFFF\n\
           t J 3 0 2350000 65226 2 1 112233445566778899AA -\n\
           end J 4\n",
};

/// The same, a microsecond later.
pub(crate) const LATE: Case = Case {
    bus: b"J",
    kind: Kind::J1939,
    message: None,
    log: "(1.000000) can0 18EC0102#100A0002FFCAFE00\n\
          (1.100000) can0 18EB0102#0111223344556677\n\
          (2.350001) can0 18EB0102#028899AAFFFFFFFF\n",
    text: "start J 0\n\
           u J 0 0 1000000 18EC0102#100A0002FFCAFE00\n\
           u J 1 0 1100000 18EB0102#0111223344556677\n\
           u J 2 0 2350001 18EB0102#028899AAFFFFFFFF\n\
           c J 3 0 2350001 65226 2 1 late\n\
           end J 4\n",
};

/// The same frame as the first one, on a bus whose database has another message of its identifier.
pub(crate) const TANK: Case = Case {
    bus: b"B",
    kind: Kind::Can,
    message: Some(LEVEL),
    log: "(0000000001.000000) can0 100#A00F000000000000\n",
    text: "start B 0\n\
           m B 0 0 1000000 Tank\n\
           s Level 4000 1000 \"l\"\n\
           end B 1\n",
};

/// Two LIN frames of a signal whose encoding has a text for one raw value and a scaling for the others.
pub(crate) const LISTED: Case = Case {
    bus: b"L",
    kind: Kind::Lin,
    message: Some(STATUS),
    log: "(0000000001.000000) lin0 010#FF00\n\
          (0000000001.000000) lin0 010#6400\n",
    text: "start L 0\n\
           m L 0 0 1000000 Status\n\
           s Temp 255 255 \"\" \"invalid\"\n\
           m L 1 0 1000000 Status\n\
           s Temp 100 10 \"degC\"\n\
           end L 2\n",
};

/// A frame of the message's parameter group, sent by the address 0.
pub(crate) const GROUP: Case = Case {
    bus: b"J",
    kind: Kind::J1939,
    message: Some(ENGINE_SPEED),
    log: "(0000000001.000000) can0 0CF00400#FFFFFF6813FFFFFF\n",
    text: "start J 0\n\
           m J 0 0 1000000 EEC1\n\
           s EngSpeed 4968 621 \"rpm\"\n\
           end J 1\n",
};

/// A message of two packets to all, whose parameter group has a message.
pub(crate) const WHOLE_GROUP: Case = Case {
    bus: b"J",
    kind: Kind::J1939,
    message: Some(LAMPS),
    log: "(1.000000) can0 18ECFF00#200A0002FFCAFE00\n\
          (1.050000) can0 18EBFF00#0111223344556677\n\
          (1.100000) can0 18EBFF00#028899AAFFFFFFFF\n",
    text: "start J 0\n\
           u J 0 0 1000000 18ECFF00#200A0002FFCAFE00\n\
           u J 1 0 1050000 18EBFF00#0111223344556677\n\
           u J 2 0 1100000 18EBFF00#028899AAFFFFFFFF\n\
           t J 3 0 1100000 65226 0 255 112233445566778899AA Lamps\n\
           s Last 170 170 \"\"\n\
           end J 4\n",
};
