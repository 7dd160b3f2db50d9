//! The runs of the tests, each with what its frames bring.

use super::Case;

/// Connection management and data transfer, from source 0 to all.
const CM: u32 = 0x18EC_FF00;

const DT: u32 = 0x18EB_FF00;

/// The same from source 2 to 1, and from 1 to 2.
const CM_THERE: u32 = 0x18EC_0102;

const DT_THERE: u32 = 0x18EB_0102;

const CM_BACK: u32 = 0x18EC_0201;

const DT_BACK: u32 = 0x18EB_0201;

/// Ten bytes in two packets of group 65,226: to all, and to one receiver.
const BAM: u64 = 0x200A_0002_FFCA_FE00;

const RTS: u64 = 0x100A_0002_FFCA_FE00;

/// The same to one receiver in group 65,227.
const OTHER_RTS: u64 = 0x100A_0002_FFCB_FE00;

const ONE: u64 = 0x0111_2233_4455_6677;

const TWO: u64 = 0x0288_99AA_FFFF_FFFF;

const THREE: u64 = 0x0300_0000_0000_0000;

/// CTS, the end of message and the abort, of group 65,226 and of group 65,227.
const CTS: u64 = 0x1102_01FF_FFCA_FE00;

const OTHER_CTS: u64 = 0x1102_01FF_FFCB_FE00;

const END: u64 = 0x130A_0002_FFCA_FE00;

const OTHER_END: u64 = 0x130A_0002_FFCB_FE00;

const ABORT: u64 = 0xFFFF_FFFF_FFCA_FE00;

const OTHER_ABORT: u64 = 0xFFFF_FFFF_FFCB_FE00;

/// The same from source 2 to 3.
const CM_THIRD: u32 = 0x18EC_0302;

const DT_THIRD: u32 = 0x18EB_0302;

/// A packet of number 0, and a control of connection management that is none here.
const ZERO: u64 = 0x0000_0000_0000_0000;

const OTHER_CONTROL: u64 = 0x120A_0002_FFCA_FE00;

pub(super) const CASES: &[Case] = &[
    Case {
        name: "a broadcast of two packets",
        frames: &[
            (1_000_000, CM, BAM),
            (1_050_000, DT, ONE),
            (1_100_000, DT, TWO),
        ],
        answers: "-; -; 65226 0 255 112233445566778899AA",
    },
    Case {
        name: "a packet twice",
        frames: &[
            (1_000_000, CM, BAM),
            (1_050_000, DT, ONE),
            (1_050_000, DT, ONE),
            (1_100_000, DT, TWO),
        ],
        answers: "-; -; -; 65226 0 255 112233445566778899AA",
    },
    Case {
        name: "a packet again with other bytes: the first counts",
        frames: &[
            (0, CM, BAM),
            (0, DT, ONE),
            (0, DT, 0x0100_0000_0000_0000),
            (0, DT, TWO),
        ],
        answers: "-; -; -; 65226 0 255 112233445566778899AA",
    },
    Case {
        name: "a packet left out, and nothing after it",
        frames: &[
            (1_000_000, CM, BAM),
            (1_050_000, DT, TWO),
            (1_060_000, DT, ONE),
        ],
        answers: "-; 65226 0 255 order; -",
    },
    Case {
        name: "a packet past the last",
        frames: &[(0, CM, BAM), (0, DT, ONE), (0, DT, THREE), (0, DT, TWO)],
        answers: "-; -; 65226 0 255 order; -",
    },
    Case {
        name: "no packet after the last",
        frames: &[(0, CM, BAM), (0, DT, ONE), (0, DT, TWO), (0, DT, TWO)],
        answers: "-; -; 65226 0 255 112233445566778899AA; -",
    },
    Case {
        name: "packets of a pair that never opened",
        frames: &[(0, CM_THERE, RTS), (0, DT_BACK, ONE), (0, DT, ONE)],
        answers: "-; -; -",
    },
    Case {
        name: "a pause of 1,250,000 microseconds",
        frames: &[
            (1_000_000, CM_THERE, RTS),
            (1_100_000, DT_THERE, ONE),
            (2_350_000, DT_THERE, TWO),
        ],
        answers: "-; -; 65226 2 1 112233445566778899AA",
    },
    Case {
        name: "a pause of one more, and nothing after it",
        frames: &[
            (1_000_000, CM_THERE, RTS),
            (1_100_000, DT_THERE, ONE),
            (2_350_001, DT_THERE, TWO),
            (2_350_001, DT_THERE, TWO),
        ],
        answers: "-; -; 65226 2 1 late; -",
    },
    Case {
        name: "number 0 and a repeated packet renew the stamp",
        frames: &[
            (0, CM_THERE, RTS),
            (1_000_000, DT_THERE, ZERO),
            (2_000_000, DT_THERE, ONE),
            (3_000_000, DT_THERE, ONE),
            (4_000_000, DT_THERE, TWO),
        ],
        answers: "-; -; -; -; 65226 2 1 112233445566778899AA",
    },
    Case {
        name: "a stamp that goes back is no pause, and the next one counts from it",
        frames: &[
            (5_000_000, CM_THERE, RTS),
            (1_000_000, DT_THERE, ONE),
            (2_250_000, DT_THERE, TWO),
        ],
        answers: "-; -; 65226 2 1 112233445566778899AA",
    },
    Case {
        name: "too late from a stamp that went back",
        frames: &[
            (5_000_000, CM_THERE, RTS),
            (1_000_000, DT_THERE, ONE),
            (2_250_001, DT_THERE, TWO),
        ],
        answers: "-; -; 65226 2 1 late",
    },
    Case {
        name: "CTS renews the stamp",
        frames: &[
            (0, CM_THERE, RTS),
            (1_200_000, CM_BACK, CTS),
            (2_400_000, DT_THERE, ONE),
            (2_400_000, DT_THERE, TWO),
        ],
        answers: "-; -; -; 65226 2 1 112233445566778899AA",
    },
    Case {
        name: "CTS of another group, or of the sender, renews nothing",
        frames: &[
            (0, CM_THERE, RTS),
            (1_200_000, CM_BACK, OTHER_CTS),
            (1_200_000, CM_THERE, CTS),
            (1_250_001, DT_THERE, ONE),
        ],
        answers: "-; -; -; 65226 2 1 late",
    },
    Case {
        name: "CTS too late",
        frames: &[(0, CM_THERE, RTS), (1_250_001, CM_BACK, CTS)],
        answers: "-; 65226 2 1 late",
    },
    Case {
        name: "the receiver ends a session; neither its sender nor another group does",
        frames: &[
            (0, CM_THERE, RTS),
            (0, CM_BACK, OTHER_END),
            (0, CM_THERE, END),
            (0, CM_BACK, END),
            (0, CM_BACK, END),
        ],
        answers: "-; -; -; 65226 2 1 end; -",
    },
    Case {
        name: "an end too late",
        frames: &[(0, CM_THERE, RTS), (1_250_001, CM_BACK, END)],
        answers: "-; 65226 2 1 late",
    },
    Case {
        name: "a broadcast is aborted from the other side",
        frames: &[
            (1_000_000, CM, BAM),
            (1_050_000, DT, ONE),
            (1_080_000, 0x18EC_00FF, ABORT),
        ],
        answers: "-; -; 65226 0 255 abort",
    },
    Case {
        name: "an abort by the sender, and one of another group",
        frames: &[
            (0, CM_THERE, RTS),
            (0, CM_THERE, OTHER_ABORT),
            (0, CM_THERE, ABORT),
        ],
        answers: "-; -; 65226 2 1 abort",
    },
    Case {
        name: "an abort ends the session of its own direction first",
        frames: &[
            (0, CM_THERE, RTS),
            (0, CM_BACK, RTS),
            (0, CM_THERE, ABORT),
            (0, CM_THERE, ABORT),
            (0, CM_THERE, ABORT),
        ],
        answers: "-; -; 65226 2 1 abort; 65226 1 2 abort; -",
    },
    Case {
        name: "an abort passes over its own direction where that has another group",
        frames: &[
            (0, CM_THERE, OTHER_RTS),
            (0, CM_BACK, RTS),
            (0, CM_THERE, ABORT),
        ],
        answers: "-; -; 65226 1 2 abort",
    },
    Case {
        name: "an abort too late",
        frames: &[(0, CM_THERE, RTS), (1_250_001, CM_THERE, ABORT)],
        answers: "-; 65226 2 1 late",
    },
    Case {
        name: "a group that opens again",
        frames: &[
            (0, CM, BAM),
            (0, DT, ONE),
            (1_250_000, CM, BAM),
            (1_250_000, DT, ONE),
            (1_250_000, DT, TWO),
        ],
        answers: "-; -; 65226 0 255 again; -; 65226 0 255 112233445566778899AA",
    },
    Case {
        name: "another group opens too late",
        frames: &[
            (0, CM_THERE, RTS),
            (1_250_001, CM_THERE, OTHER_RTS),
            (1_250_001, DT_THERE, ONE),
            (1_250_001, DT_THERE, TWO),
        ],
        answers: "-; 65226 2 1 late; -; 65227 2 1 112233445566778899AA",
    },
    Case {
        name: "to the wrong receiver, sizes 8 and 1,786, a packet too few and one too many, control 18",
        frames: &[
            (0, CM, RTS),
            (0, CM_THERE, BAM),
            (0, CM_THERE, 0x1008_0002_FFCA_FE00),
            (0, CM_THERE, 0x10FA_06FF_FFCA_FE00),
            (0, CM_THERE, 0x100A_0001_FFCA_FE00),
            (0, CM_THERE, 0x100A_0003_FFCA_FE00),
            (0, CM_THERE, OTHER_CONTROL),
            (0, DT, TWO),
            (0, DT_THERE, TWO),
        ],
        answers: "-; -; -; -; -; -; -; -; -",
    },
    Case {
        name: "what opens nothing does not even renew the stamp",
        frames: &[
            (0, CM_THERE, RTS),
            (1_200_000, CM_THERE, 0x100A_0003_FFCA_FE00),
            (1_250_001, DT_THERE, ONE),
        ],
        answers: "-; -; 65226 2 1 late",
    },
    Case {
        name: "nine bytes, and fourteen in two full packets",
        frames: &[
            (0, CM_THERE, 0x1009_0002_FFCA_FE00),
            (0, DT_THERE, ONE),
            (0, DT_THERE, TWO),
            (0, CM_THERE, 0x100E_0002_FFCA_FE00),
            (0, DT_THERE, ONE),
            (0, DT_THERE, TWO),
        ],
        answers: "-; -; 65226 2 1 112233445566778899; -; -; 65226 2 1 112233445566778899AAFFFFFFFF",
    },
    Case {
        name: "two pairs, one after another's frames",
        frames: &[
            (0, CM, BAM),
            (0, CM_THERE, OTHER_RTS),
            (0, DT_THERE, ONE),
            (0, DT, ONE),
            (0, DT, TWO),
            (0, DT_THERE, TWO),
        ],
        answers: "-; -; -; -; 65226 0 255 112233445566778899AA; 65227 2 1 112233445566778899AA",
    },
    Case {
        name: "any priority, and of the group named the low 18 bits",
        frames: &[
            (0, 0x00EC_FF00, 0x200A_0002_FFCA_FEFC),
            (0, 0x1CEB_FF00, ONE),
            (0, 0x04EB_FF00, TWO),
        ],
        answers: "-; -; 65226 0 255 112233445566778899AA",
    },
    Case {
        name: "a group with a low byte that its format does not use",
        frames: &[(0, CM, 0x200A_0002_FF05_EE00), (0, DT, ONE), (0, DT, TWO)],
        answers: "-; -; 60933 0 255 112233445566778899AA",
    },
    Case {
        name: "the data page and the extended data page make other groups",
        frames: &[
            (0, 0x19EC_FF00, BAM),
            (0, DT, ONE),
            (0, 0x1AEC_FF00, BAM),
            (0, DT, ONE),
            (0, CM, BAM),
            (0, 0x19EB_FF00, TWO),
            (0, 0x1AEB_FF00, TWO),
        ],
        answers: "-; -; -; -; -; -; -",
    },
];

pub(super) const FURTHER_CASES: &[Case] = &[
    Case {
        name: "a pause too long comes before a packet left out",
        frames: &[(0, CM_THERE, RTS), (1_250_001, DT_THERE, TWO)],
        answers: "-; 65226 2 1 late",
    },
    Case {
        name: "a repeated packet too late",
        frames: &[
            (0, CM_THERE, RTS),
            (0, DT_THERE, ONE),
            (1_250_001, DT_THERE, ONE),
            (1_250_001, DT_THERE, TWO),
        ],
        answers: "-; -; 65226 2 1 late; -",
    },
    Case {
        name: "number 0 too late",
        frames: &[(0, CM_THERE, RTS), (1_250_001, DT_THERE, ZERO)],
        answers: "-; 65226 2 1 late",
    },
    Case {
        name: "an abort too late cuts its own direction and leaves the other to the next one",
        frames: &[
            (0, CM_THERE, RTS),
            (0, CM_BACK, RTS),
            (1_250_001, CM_THERE, ABORT),
            (1_250_001, CM_THERE, ABORT),
            (1_250_001, CM_THERE, ABORT),
        ],
        answers: "-; -; 65226 2 1 late; 65226 1 2 late; -",
    },
    Case {
        name: "another control neither renews nor ends a session, even too late",
        frames: &[
            (0, CM_THERE, RTS),
            (1_200_000, CM_THERE, OTHER_CONTROL),
            (1_200_000, CM_BACK, OTHER_CONTROL),
            (1_250_001, CM_BACK, OTHER_CONTROL),
            (1_250_001, DT_THERE, ONE),
        ],
        answers: "-; -; -; -; 65226 2 1 late",
    },
    Case {
        name: "broadcasts of 8 and of 1,786 bytes, with a packet too few, with one too many, and of nothing",
        frames: &[
            (0, CM, 0x2008_0002_FFCA_FE00),
            (0, CM, 0x20FA_06FF_FFCA_FE00),
            (0, CM, 0x200A_0001_FFCA_FE00),
            (0, CM, 0x200A_0003_FFCA_FE00),
            (0, CM, 0x2000_0000_FFCA_FE00),
            (0, DT, TWO),
        ],
        answers: "-; -; -; -; -; -",
    },
    Case {
        name: "a request of nothing",
        frames: &[(0, CM_THERE, 0x1000_0000_FFCA_FE00), (0, DT_THERE, ONE)],
        answers: "-; -",
    },
    Case {
        name: "one sender to two receivers, one after another's frames",
        frames: &[
            (0, CM_THERE, RTS),
            (0, CM_THIRD, OTHER_RTS),
            (0, DT_THIRD, ONE),
            (0, DT_THERE, ONE),
            (0, DT_THERE, TWO),
            (0, DT_THIRD, TWO),
        ],
        answers: "-; -; -; -; 65226 2 1 112233445566778899AA; 65227 2 3 112233445566778899AA",
    },
];
