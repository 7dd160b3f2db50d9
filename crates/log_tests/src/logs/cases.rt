//! Lines and what they say, by the format of candump.

/// What a line says: its microseconds, its identifier and its bytes.
#[derive(Clone, Copy)]
pub enum Want {
    Frame(u64, bool, u32, &'static [u8]),
    Remote(u64, bool, u32),
    Error(u64, u32),
    Bad,
}

#[derive(Drop)]
pub struct Case {
    pub text: &'static [u8],
    pub want: Want,
}

/// Identifiers and the data of classic frames: the values at their limits, and the nearest that are bad.
pub const CLASSIC: [Case; 34] = [
    Case {
        text: b"(0000000001.000000) can0 100#A00F000000000000",
        want: Want::Frame(
            1000000,
            false,
            0x100,
            &[0xA0, 0x0F, 0x00, 0x00, 0x00, 0x00, 0x00, 0x00],
        ),
    },
    Case {
        text: b"(1.000000) can0 7FF#",
        want: Want::Frame(1000000, false, 0x7FF, &[]),
    },
    Case {
        text: b"(1.000000) can0 7ff#aAbB",
        want: Want::Frame(1000000, false, 0x7FF, &[0xAA, 0xBB]),
    },
    Case {
        text: b"(1.000000) can0 800#",
        want: Want::Bad,
    },
    Case {
        text: b"(1.000000) can0 12#01",
        want: Want::Bad,
    },
    Case {
        text: b"(1.000000) can0 1234#01",
        want: Want::Bad,
    },
    Case {
        text: b"(1.000000) can0 #01",
        want: Want::Bad,
    },
    Case {
        text: b"(1.000000) can0 10G#01",
        want: Want::Bad,
    },
    Case {
        text: b"(1.000000) can0 00000000#",
        want: Want::Frame(1000000, true, 0x0, &[]),
    },
    Case {
        text: b"(1.000000) can0 1FFFFFFF#01",
        want: Want::Frame(1000000, true, 0x1FFFFFFF, &[0x01]),
    },
    Case {
        text: b"(1.000000) can0 20000000#",
        want: Want::Error(1000000, 0x20000000),
    },
    Case {
        text: b"(1.000002) can0 20000004#0000000000000000",
        want: Want::Error(1000002, 0x20000004),
    },
    Case {
        text: b"(1.000000) can0 3fffffff#R",
        want: Want::Error(1000000, 0x3FFFFFFF),
    },
    Case {
        text: b"(1.000000) can0 20000004#R8_f",
        want: Want::Error(1000000, 0x20000004),
    },
    Case {
        text: b"(1.000000) can0 20000004##1",
        want: Want::Error(1000000, 0x20000004),
    },
    Case {
        text: b"(1.000000) can0 20000004",
        want: Want::Bad,
    },
    Case {
        text: b"(1.000000) can0 20000004#0",
        want: Want::Bad,
    },
    Case {
        text: b"(1.000000) can0 40000000#",
        want: Want::Bad,
    },
    Case {
        text: b"(1.000000) can0 FFFFFFFF#01",
        want: Want::Bad,
    },
    Case {
        text: b"(1.000000) can0 100#11.22.33",
        want: Want::Frame(1000000, false, 0x100, &[0x11, 0x22, 0x33]),
    },
    Case {
        text: b"(1.000000) can0 100#11.2233",
        want: Want::Frame(1000000, false, 0x100, &[0x11, 0x22, 0x33]),
    },
    Case {
        text: b"(1.000000) can0 100#.11",
        want: Want::Bad,
    },
    Case {
        text: b"(1.000000) can0 100#11.",
        want: Want::Bad,
    },
    Case {
        text: b"(1.000000) can0 100#11..22",
        want: Want::Bad,
    },
    Case {
        text: b"(1.000000) can0 100#1",
        want: Want::Bad,
    },
    Case {
        text: b"(1.000000) can0 100#1.1",
        want: Want::Bad,
    },
    Case {
        text: b"(1.000000) can0 100#1G",
        want: Want::Bad,
    },
    Case {
        text: b"(1.000000) can0 100#1122334455667788",
        want: Want::Frame(
            1000000,
            false,
            0x100,
            &[0x11, 0x22, 0x33, 0x44, 0x55, 0x66, 0x77, 0x88],
        ),
    },
    Case {
        text: b"(1.000000) can0 100#112233445566778899",
        want: Want::Bad,
    },
    Case {
        text: b"(1.000000) can0 100#1122334455667788_9",
        want: Want::Frame(
            1000000,
            false,
            0x100,
            &[0x11, 0x22, 0x33, 0x44, 0x55, 0x66, 0x77, 0x88],
        ),
    },
    Case {
        text: b"(1.000000) can0 100#_9",
        want: Want::Frame(1000000, false, 0x100, &[]),
    },
    Case {
        text: b"(1.000000) can0 100#_",
        want: Want::Bad,
    },
    Case {
        text: b"(1.000000) can0 100#_99",
        want: Want::Bad,
    },
    Case {
        text: b"(1.000000) can0 100#_G",
        want: Want::Bad,
    },
];

/// Remote frames and CAN FD frames: the same.
pub const REMOTE_AND_FD: [Case; 16] = [
    Case {
        text: b"(1.000001) can0 123#R",
        want: Want::Remote(1000001, false, 0x123),
    },
    Case {
        text: b"(1.000000) can0 100#r8",
        want: Want::Remote(1000000, false, 0x100),
    },
    Case {
        text: b"(1.000000) can0 100#R_A",
        want: Want::Remote(1000000, false, 0x100),
    },
    Case {
        text: b"(1.000000) can0 1FFFFFFF#R5_f",
        want: Want::Remote(1000000, true, 0x1FFFFFFF),
    },
    Case {
        text: b"(1.000000) can0 100#R9",
        want: Want::Bad,
    },
    Case {
        text: b"(1.000000) can0 100#R55",
        want: Want::Bad,
    },
    Case {
        text: b"(1.000000) can0 100#R5_",
        want: Want::Bad,
    },
    Case {
        text: b"(1.000000) can0 123##1AABB",
        want: Want::Frame(1000000, false, 0x123, &[0xAA, 0xBB]),
    },
    Case {
        text: b"(1.000000) can0 100##F",
        want: Want::Frame(1000000, false, 0x100, &[]),
    },
    Case {
        text: b"(1.000000) can0 100##100.01",
        want: Want::Frame(1000000, false, 0x100, &[0x00, 0x01]),
    },
    Case {
        text: b"(1.000000) can0 100##",
        want: Want::Bad,
    },
    Case {
        text: b"(1.000000) can0 100##1.00",
        want: Want::Bad,
    },
    Case {
        text: b"(1.000000) can0 100##G00",
        want: Want::Bad,
    },
    Case {
        text: b"(1.000000) can0 100##1AA_9",
        want: Want::Bad,
    },
    Case {
        text: b"(1.000000) can0 100##0000102030405060708090A0B0C0D0E0F101112131415161718191A1B1C1D1E1\
            F202122232425262728292A2B2C2D2E2F303132333435363738393A3B3C3D3E3\
            F",
        want: Want::Frame(
            1000000,
            false,
            0x100,
            &[
                0x00, 0x01, 0x02, 0x03, 0x04, 0x05, 0x06, 0x07, 0x08, 0x09, 0x0A, 0x0B, 0x0C, 0x0D,
                0x0E, 0x0F, 0x10, 0x11, 0x12, 0x13, 0x14, 0x15, 0x16, 0x17, 0x18, 0x19, 0x1A, 0x1B,
                0x1C, 0x1D, 0x1E, 0x1F, 0x20, 0x21, 0x22, 0x23, 0x24, 0x25, 0x26, 0x27, 0x28, 0x29,
                0x2A, 0x2B, 0x2C, 0x2D, 0x2E, 0x2F, 0x30, 0x31, 0x32, 0x33, 0x34, 0x35, 0x36, 0x37,
                0x38, 0x39, 0x3A, 0x3B, 0x3C, 0x3D, 0x3E, 0x3F,
            ],
        ),
    },
    Case {
        text: b"(1.000000) can0 100##0000000000000000000000000000000000000000000000000000000000000000\
            0000000000000000000000000000000000000000000000000000000000000000\
            000",
        want: Want::Bad,
    },
];

/// Blanks, further words and stamps: the same.
pub const STAMPS_AND_BLANKS: [Case; 23] = [
    Case {
        text: b"(1.000000)\t can0 \r\t100#01",
        want: Want::Frame(1000000, false, 0x100, &[0x01]),
    },
    Case {
        text: b"(1.000000) can0 100#01 \t\r",
        want: Want::Frame(1000000, false, 0x100, &[0x01]),
    },
    Case {
        text: b"(1.000000) can0 100#01\r",
        want: Want::Frame(1000000, false, 0x100, &[0x01]),
    },
    Case {
        text: b"(1.000000) can0 100#01 T R",
        want: Want::Frame(1000000, false, 0x100, &[0x01]),
    },
    Case {
        text: b"(1.000000) can0 100#01\rXY",
        want: Want::Frame(1000000, false, 0x100, &[0x01]),
    },
    Case {
        text: b"(1.000000) can0 100#01 \xFF\x00",
        want: Want::Frame(1000000, false, 0x100, &[0x01]),
    },
    Case {
        text: b"(1.000000)can0 100#01",
        want: Want::Bad,
    },
    Case {
        text: b"(1.000000) 100#01",
        want: Want::Bad,
    },
    Case {
        text: b"(1.000000) can0",
        want: Want::Bad,
    },
    Case {
        text: b" (1.000000) can0 100#01",
        want: Want::Bad,
    },
    Case {
        text: b"(1.000000) can0 100#01x",
        want: Want::Bad,
    },
    Case {
        text: b"(999999999999.999999) can0 100#",
        want: Want::Frame(999999999999999999, false, 0x100, &[]),
    },
    Case {
        text: b"(0.000000) can0 100#",
        want: Want::Frame(0, false, 0x100, &[]),
    },
    Case {
        text: b"(.000000) can0 100#",
        want: Want::Bad,
    },
    Case {
        text: b"(1234567890123.000000) can0 100#",
        want: Want::Bad,
    },
    Case {
        text: b"(1.00000) can0 100#",
        want: Want::Bad,
    },
    Case {
        text: b"(1.0000000) can0 100#",
        want: Want::Bad,
    },
    Case {
        text: b"(1,000000) can0 100#",
        want: Want::Bad,
    },
    Case {
        text: b"1.000000) can0 100#",
        want: Want::Bad,
    },
    Case {
        text: b"(1.000000 can0 100#",
        want: Want::Bad,
    },
    Case {
        text: b"x",
        want: Want::Bad,
    },
    Case {
        text: b"",
        want: Want::Bad,
    },
    Case {
        text: b"can0",
        want: Want::Bad,
    },
];

/// Identifiers of a digit less or more, a remote frame of no bytes, and lines of blanks.
pub const LENGTHS: [Case; 14] = [
    Case {
        text: b"(1.000000) can0 1FFFFFF#01",
        want: Want::Bad,
    },
    Case {
        text: b"(1.000000) can0 0000100#01",
        want: Want::Bad,
    },
    Case {
        text: b"(1.000000) can0 1FFFFFFF0#01",
        want: Want::Bad,
    },
    Case {
        text: b"(1.000000) can0 000000100#01",
        want: Want::Bad,
    },
    Case {
        text: b"(1.000000) can0 2000004#",
        want: Want::Bad,
    },
    Case {
        text: b"(1.000000) can0 200000004#",
        want: Want::Bad,
    },
    Case {
        text: b"(1.000000) can0 100#R0",
        want: Want::Remote(1000000, false, 0x100),
    },
    Case {
        text: b"(1.000000) can0 00000100#r0_0",
        want: Want::Remote(1000000, true, 0x100),
    },
    Case {
        text: b" ",
        want: Want::Bad,
    },
    Case {
        text: b"\t\r",
        want: Want::Bad,
    },
    Case {
        text: b"   \t  ",
        want: Want::Bad,
    },
    Case {
        text: b"\r",
        want: Want::Bad,
    },
    Case {
        text: b"(1.000000) ",
        want: Want::Bad,
    },
    Case {
        text: b"(1.000000) can0 ",
        want: Want::Bad,
    },
];
