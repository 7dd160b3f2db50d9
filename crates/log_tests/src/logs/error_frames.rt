//! Error frames and what is none.

use super::cases::{Case, Want};

/// An error frame has any form that is a frame's, and no other.
pub const ERROR_FRAMES: [Case; 26] = [
    Case {
        text: b"(1.000000) can0 20000004#",
        want: Want::Error(1000000, 0x20000004),
    },
    Case {
        text: b"(1.000000) can0 20000004#R",
        want: Want::Error(1000000, 0x20000004),
    },
    Case {
        text: b"(1.000000) can0 20000004#r8",
        want: Want::Error(1000000, 0x20000004),
    },
    Case {
        text: b"(1.000000) can0 20000004#R0_f",
        want: Want::Error(1000000, 0x20000004),
    },
    Case {
        text: b"(1.000000) can0 20000004##1AABB",
        want: Want::Error(1000000, 0x20000004),
    },
    Case {
        text: b"(1.000000) can0 20000004##F",
        want: Want::Error(1000000, 0x20000004),
    },
    Case {
        text: b"(1.000000) can0 20000004##100.01",
        want: Want::Error(1000000, 0x20000004),
    },
    Case {
        text: b"(1.000000) can0 20000004#_9",
        want: Want::Error(1000000, 0x20000004),
    },
    Case {
        text: b"(1.000000) can0 20000004#1122_9",
        want: Want::Error(1000000, 0x20000004),
    },
    Case {
        text: b"(1.000000) can0 20000004#11.22.33",
        want: Want::Error(1000000, 0x20000004),
    },
    Case {
        text: b"(1.000000) can0 20000004#0102\r",
        want: Want::Error(1000000, 0x20000004),
    },
    Case {
        text: b"(1.000000) can0 20000004#0102 \t\r",
        want: Want::Error(1000000, 0x20000004),
    },
    Case {
        text: b"(1.000000) can0 20000004#R T R",
        want: Want::Error(1000000, 0x20000004),
    },
    Case {
        text: b"(1.000000) can0 20000004##1AABB\tX",
        want: Want::Error(1000000, 0x20000004),
    },
    Case {
        text: b"(1.000000) can0 20000004#R9",
        want: Want::Bad,
    },
    Case {
        text: b"(1.000000) can0 20000004#R55",
        want: Want::Bad,
    },
    Case {
        text: b"(1.000000) can0 20000004#R_",
        want: Want::Bad,
    },
    Case {
        text: b"(1.000000) can0 20000004##",
        want: Want::Bad,
    },
    Case {
        text: b"(1.000000) can0 20000004##G",
        want: Want::Bad,
    },
    Case {
        text: b"(1.000000) can0 20000004##1.AA",
        want: Want::Bad,
    },
    Case {
        text: b"(1.000000) can0 20000004##1AA_9",
        want: Want::Bad,
    },
    Case {
        text: b"(1.000000) can0 20000004#_",
        want: Want::Bad,
    },
    Case {
        text: b"(1.000000) can0 20000004#_99",
        want: Want::Bad,
    },
    Case {
        text: b"(1.000000) can0 20000004#.11",
        want: Want::Bad,
    },
    Case {
        text: b"(1.000000) can0 20000004#11..22",
        want: Want::Bad,
    },
    Case {
        text: b"(1.000000) can0 20000004#112233445566778899",
        want: Want::Bad,
    },
];
