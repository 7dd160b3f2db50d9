//! The trees of the tests, each with its answer.

use super::{Case, Row};
use multiplex_tree::{Mark, Range};

/// A signal without mark, a multiplexor `M`, signals `m1` and `m2`, and `m1M` and `m2M`, which are both.
const PLAIN: Mark = Mark {
    multiplexor: false,
    group: None,
};

const M: Mark = Mark {
    multiplexor: true,
    group: None,
};

const M1: Mark = Mark {
    multiplexor: false,
    group: Some(1),
};

const M2: Mark = Mark {
    multiplexor: false,
    group: Some(2),
};

const M1M: Mark = Mark {
    multiplexor: true,
    group: Some(1),
};

const M2M: Mark = Mark {
    multiplexor: true,
    group: Some(2),
};

/// Ranges of one value, of two, of none, and of the greatest value.
const ONE: Range = Range { low: 1, high: 1 };

const TWO_THREE: Range = Range { low: 2, high: 3 };

const FIVE: Range = Range { low: 5, high: 5 };

const NONE: Range = Range { low: 3, high: 2 };

const LAST: Range = Range {
    low: 18_446_744_073_709_551_615,
    high: 18_446_744_073_709_551_615,
};

pub(super) const CASES: [Case; 44] = [
    // Three levels, in which a value that fits under an inactive parent counts for nothing.
    Case {
        marks: &[M, M1M, M2],
        links: &[(1, Some(0), &[ONE]), (2, Some(1), &[TWO_THREE])],
        raws: &[Some(0), Some(2), Some(5)],
        answer: "-; 0: 1-1; 1: 2-3; active 0",
    },
    Case {
        marks: &[M, M1M, M2],
        links: &[(1, Some(0), &[ONE]), (2, Some(1), &[TWO_THREE])],
        raws: &[Some(1), Some(3), Some(5)],
        answer: "-; 0: 1-1; 1: 2-3; active 0 1 2",
    },
    Case {
        marks: &[M, M1M, M2],
        links: &[(1, Some(0), &[ONE]), (2, Some(1), &[TWO_THREE])],
        raws: &[Some(1), Some(4), Some(5)],
        answer: "-; 0: 1-1; 1: 2-3; active 0 1",
    },
    Case {
        marks: &[M, M1M, M2],
        links: &[(1, Some(0), &[ONE]), (2, Some(1), &[TWO_THREE])],
        raws: &[None, Some(3), Some(5)],
        answer: "-; 0: 1-1; 1: 2-3; active 0",
    },
    Case {
        marks: &[M, M1M, M2],
        links: &[(1, Some(0), &[ONE]), (2, Some(1), &[TWO_THREE])],
        raws: &[Some(1), None, Some(5)],
        answer: "-; 0: 1-1; 1: 2-3; active 0 1",
    },
    // Without links the parent is the one multiplexor without group.
    Case {
        marks: &[],
        links: &[],
        raws: &[],
        answer: "active",
    },
    Case {
        marks: &[PLAIN, M1, M, M2],
        links: &[],
        raws: &[None, None, Some(2), None],
        answer: "-; 2: 1-1; -; 2: 2-2; active 0 2 3",
    },
    Case {
        marks: &[M1],
        links: &[],
        raws: &[],
        answer: "NoParent 0",
    },
    Case {
        marks: &[PLAIN, M1, M1M],
        links: &[],
        raws: &[],
        answer: "NoParent 1",
    },
    Case {
        marks: &[M, M, M1],
        links: &[],
        raws: &[],
        answer: "Ambiguous 2",
    },
    Case {
        marks: &[M, M1M, M2],
        links: &[],
        raws: &[Some(1), Some(2), None],
        answer: "-; 0: 1-1; 0: 2-2; active 0 1",
    },
    Case {
        marks: &[M, M, M1, M1],
        links: &[],
        raws: &[],
        answer: "Ambiguous 2",
    },
    // Links name the parent, which has to be one multiplexor.
    Case {
        marks: &[M, M1M],
        links: &[(1, None, &[ONE])],
        raws: &[],
        answer: "NoParent 1",
    },
    Case {
        marks: &[M, M1],
        links: &[(1, None, &[ONE]), (1, None, &[FIVE])],
        raws: &[],
        answer: "NoParent 1",
    },
    Case {
        marks: &[M, PLAIN, M1],
        links: &[(2, Some(1), &[ONE])],
        raws: &[],
        answer: "NoParent 2",
    },
    Case {
        marks: &[M, M, M1],
        links: &[(2, Some(0), &[ONE]), (2, Some(1), &[ONE])],
        raws: &[],
        answer: "Ambiguous 2",
    },
    Case {
        marks: &[M, M1],
        links: &[(1, None, &[ONE]), (1, Some(0), &[ONE])],
        raws: &[],
        answer: "Ambiguous 1",
    },
    Case {
        marks: &[M, M, M1],
        links: &[(2, Some(1), &[FIVE])],
        raws: &[Some(1), Some(5), None],
        answer: "-; -; 1: 5-5; active 0 1 2",
    },
    Case {
        marks: &[M, M1M, M2],
        links: &[(1, None, &[ONE])],
        raws: &[],
        answer: "NoParent 1",
    },
    Case {
        marks: &[M, M, M1, M1],
        links: &[(2, None, &[ONE])],
        raws: &[],
        answer: "NoParent 2",
    },
    Case {
        marks: &[M, PLAIN, M1],
        links: &[(2, Some(1), &[ONE]), (2, Some(0), &[ONE])],
        raws: &[],
        answer: "Ambiguous 2",
    },
    // Links to a signal without group are passed over.
    Case {
        marks: &[M, M, PLAIN],
        links: &[
            (0, None, &[ONE]),
            (1, Some(0), &[ONE]),
            (2, Some(2), &[ONE]),
        ],
        raws: &[None, None, None],
        answer: "-; -; -; active 0 1 2",
    },
    // The ranges of all links, with both ends; a raw value below 0 lies in none.
    Case {
        marks: &[M, M1],
        links: &[(1, Some(0), &[TWO_THREE, NONE]), (1, Some(0), &[FIVE])],
        raws: &[Some(2), None],
        answer: "-; 0: 2-3 3-2 5-5; active 0 1",
    },
    Case {
        marks: &[M, M1],
        links: &[(1, Some(0), &[TWO_THREE])],
        raws: &[Some(3), None],
        answer: "-; 0: 2-3; active 0 1",
    },
    Case {
        marks: &[M, M1],
        links: &[(1, Some(0), &[TWO_THREE])],
        raws: &[Some(1), None],
        answer: "-; 0: 2-3; active 0",
    },
    Case {
        marks: &[M, M1],
        links: &[(1, Some(0), &[NONE])],
        raws: &[Some(2), None],
        answer: "-; 0: 3-2; active 0",
    },
    Case {
        marks: &[M, M1],
        links: &[(1, Some(0), &[])],
        raws: &[Some(0), None],
        answer: "-; 0:; active 0",
    },
    Case {
        marks: &[M, M1],
        links: &[(1, Some(0), &[TWO_THREE])],
        raws: &[Some(-2), None],
        answer: "-; 0: 2-3; active 0",
    },
    Case {
        marks: &[M, M1],
        links: &[(1, Some(0), &[LAST])],
        raws: &[Some(18_446_744_073_709_551_615), None],
        answer: "-; 0: 18446744073709551615-18446744073709551615; active 0 1",
    },
    // Chains that never end, also where they run into a circle.
    Case {
        marks: &[M, M1M, M1M],
        links: &[(1, Some(2), &[ONE]), (2, Some(1), &[TWO_THREE])],
        raws: &[],
        answer: "Cycle 1",
    },
    Case {
        marks: &[M, M1, M1M],
        links: &[(1, Some(2), &[ONE]), (2, Some(2), &[ONE])],
        raws: &[],
        answer: "Cycle 1",
    },
    Case {
        marks: &[M, M1M, M2M],
        links: &[(1, Some(2), &[ONE]), (2, Some(1), &[TWO_THREE])],
        raws: &[],
        answer: "Cycle 1",
    },
    Case {
        marks: &[M1M, M1M, M1M, M1M, M1M, M1M, M1M, M1M, M1M, M1M],
        links: &[
            (0, Some(1), &[ONE]),
            (1, Some(2), &[ONE]),
            (2, Some(3), &[ONE]),
            (3, Some(4), &[ONE]),
            (4, Some(5), &[ONE]),
            (5, Some(6), &[ONE]),
            (6, Some(7), &[ONE]),
            (7, Some(8), &[ONE]),
            (8, Some(9), &[ONE]),
            (9, Some(0), &[ONE]),
        ],
        raws: &[],
        answer: "Cycle 0",
    },
    // Eight parents may be, nine may not; a break leaves those above it active.
    Case {
        marks: &[M, M1M, M1M, M1M, M1M, M1M, M1M, M1M, M1M],
        links: &[
            (1, Some(0), &[ONE]),
            (2, Some(1), &[ONE]),
            (3, Some(2), &[ONE]),
            (4, Some(3), &[ONE]),
            (5, Some(4), &[ONE]),
            (6, Some(5), &[ONE]),
            (7, Some(6), &[ONE]),
            (8, Some(7), &[ONE]),
        ],
        raws: &[
            Some(1),
            Some(1),
            Some(1),
            Some(1),
            Some(1),
            Some(1),
            Some(1),
            Some(1),
            None,
        ],
        answer: "-; 0: 1-1; 1: 1-1; 2: 1-1; 3: 1-1; 4: 1-1; 5: 1-1; 6: 1-1; 7: 1-1; active 0 1 2 3 4 5 6 7 8",
    },
    Case {
        marks: &[M, M1M, M1M, M1M, M1M, M1M, M1M, M1M, M1M, M1M],
        links: &[
            (1, Some(0), &[ONE]),
            (2, Some(1), &[ONE]),
            (3, Some(2), &[ONE]),
            (4, Some(3), &[ONE]),
            (5, Some(4), &[ONE]),
            (6, Some(5), &[ONE]),
            (7, Some(6), &[ONE]),
            (8, Some(7), &[ONE]),
            (9, Some(8), &[ONE]),
        ],
        raws: &[],
        answer: "Deep 9",
    },
    Case {
        marks: &[M, M1M, M1M, M1M, M1M, M1M, M1M, M1M, M1M],
        links: &[
            (1, Some(0), &[ONE]),
            (2, Some(1), &[ONE]),
            (3, Some(2), &[ONE]),
            (4, Some(3), &[ONE]),
            (5, Some(4), &[ONE]),
            (6, Some(5), &[ONE]),
            (7, Some(6), &[ONE]),
            (8, Some(7), &[ONE]),
        ],
        raws: &[
            Some(0),
            Some(1),
            Some(1),
            Some(1),
            Some(1),
            Some(1),
            Some(1),
            Some(1),
            None,
        ],
        answer: "-; 0: 1-1; 1: 1-1; 2: 1-1; 3: 1-1; 4: 1-1; 5: 1-1; 6: 1-1; 7: 1-1; active 0",
    },
    Case {
        marks: &[M, M1M, M1M, M1M, M1M, M1M, M1M, M1M, M1M],
        links: &[
            (1, Some(0), &[ONE]),
            (2, Some(1), &[ONE]),
            (3, Some(2), &[ONE]),
            (4, Some(3), &[ONE]),
            (5, Some(4), &[ONE]),
            (6, Some(5), &[ONE]),
            (7, Some(6), &[ONE]),
            (8, Some(7), &[ONE]),
        ],
        raws: &[
            Some(1),
            Some(1),
            Some(1),
            Some(1),
            Some(0),
            Some(1),
            Some(1),
            Some(1),
            None,
        ],
        answer: "-; 0: 1-1; 1: 1-1; 2: 1-1; 3: 1-1; 4: 1-1; 5: 1-1; 6: 1-1; 7: 1-1; active 0 1 2 3 4",
    },
    Case {
        marks: &[M1M, M1M, M1M, M1M, M1M, M1M, M1M, M1M, M1M, M1M, M],
        links: &[
            (0, Some(1), &[ONE]),
            (1, Some(2), &[ONE]),
            (2, Some(3), &[ONE]),
            (3, Some(4), &[ONE]),
            (4, Some(5), &[ONE]),
            (5, Some(6), &[ONE]),
            (6, Some(7), &[ONE]),
            (7, Some(8), &[ONE]),
            (8, Some(9), &[ONE]),
            (9, Some(10), &[ONE]),
        ],
        raws: &[],
        answer: "Deep 0",
    },
    // The order of the faults: no parent or several, then a circle, then depth; and the first signal of each.
    Case {
        marks: &[M, M1M, M1M, M1M, M1M, M1M, M1M, M1M, M1M, M1M, M1],
        links: &[
            (1, Some(0), &[ONE]),
            (2, Some(1), &[ONE]),
            (3, Some(2), &[ONE]),
            (4, Some(3), &[ONE]),
            (5, Some(4), &[ONE]),
            (6, Some(5), &[ONE]),
            (7, Some(6), &[ONE]),
            (8, Some(7), &[ONE]),
            (9, Some(8), &[ONE]),
            (10, None, &[ONE]),
        ],
        raws: &[],
        answer: "NoParent 10",
    },
    Case {
        marks: &[M, M1M, M1M, M1M, M1M, M1M, M1M, M1M, M1M, M1M, M1],
        links: &[
            (1, Some(0), &[ONE]),
            (2, Some(1), &[ONE]),
            (3, Some(2), &[ONE]),
            (4, Some(3), &[ONE]),
            (5, Some(4), &[ONE]),
            (6, Some(5), &[ONE]),
            (7, Some(6), &[ONE]),
            (8, Some(7), &[ONE]),
            (9, Some(8), &[ONE]),
            (10, None, &[ONE]),
            (10, Some(0), &[ONE]),
        ],
        raws: &[],
        answer: "Ambiguous 10",
    },
    Case {
        marks: &[M, M1M, M, M1],
        links: &[(1, Some(1), &[ONE])],
        raws: &[],
        answer: "Ambiguous 3",
    },
    Case {
        marks: &[M, M1M, M1M, M1M, M1M, M1M, M1M, M1M, M1M, M1M, M1M],
        links: &[
            (1, Some(0), &[ONE]),
            (2, Some(1), &[ONE]),
            (3, Some(2), &[ONE]),
            (4, Some(3), &[ONE]),
            (5, Some(4), &[ONE]),
            (6, Some(5), &[ONE]),
            (7, Some(6), &[ONE]),
            (8, Some(7), &[ONE]),
            (9, Some(8), &[ONE]),
            (10, Some(10), &[ONE]),
        ],
        raws: &[],
        answer: "Cycle 10",
    },
    Case {
        marks: &[M, M1M, M1M, M1],
        links: &[
            (1, Some(1), &[ONE]),
            (2, Some(0), &[ONE]),
            (3, None, &[ONE]),
        ],
        raws: &[],
        answer: "NoParent 3",
    },
    Case {
        marks: &[M, M, M1, M1],
        links: &[(3, None, &[ONE])],
        raws: &[],
        answer: "Ambiguous 2",
    },
];
