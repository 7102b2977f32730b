//! The worked rows that have a fault.

use super::reported_rows::LIMITS;
use trace::{Fault, Limits, NestFault, NestKind, TextFault, TextKind};

/// A text that has a fault within these limits.
#[derive(Clone, Copy)]
pub struct Faulty {
    pub name: &'static str,
    pub limits: Limits,
    pub text: &'static [u8],
    pub fault: Fault,
}

/// The texts that have a fault. A call, since the proofs of the tests are shorter without the rows.
pub fn all_faulty() -> [Faulty; 15] {
    FAULTY
}

const FAULTY: [Faulty; 15] = [
    Faulty {
        name: "location-range",
        limits: LIMITS,
        text: b"trace 1\nwrite 18446744073709551616\nreturn\n",
        fault: Fault::Text(TextFault {
            line: 2,
            kind: TextKind::Line,
        }),
    },
    Faulty {
        name: "no-trace",
        limits: LIMITS,
        text: b"",
        fault: Fault::Text(TextFault {
            line: 1,
            kind: TextKind::Truncated,
        }),
    },
    Faulty {
        name: "no-trace",
        limits: LIMITS,
        text: b"trace 1\n",
        fault: Fault::Nest(NestFault {
            place: 1,
            kind: NestKind::Unfinished,
        }),
    },
    Faulty {
        name: "after-root-return",
        limits: LIMITS,
        text: b"trace 1\nreturn\nread 1\n",
        fault: Fault::Nest(NestFault {
            place: 2,
            kind: NestKind::AfterEnd,
        }),
    },
    Faulty {
        name: "spelling",
        limits: LIMITS,
        text: b"trace 1\nread 01\nreturn\n",
        fault: Fault::Text(TextFault {
            line: 2,
            kind: TextKind::Line,
        }),
    },
    Faulty {
        name: "spelling",
        limits: LIMITS,
        text: b"trace 1\nreturn",
        fault: Fault::Text(TextFault {
            line: 2,
            kind: TextKind::Truncated,
        }),
    },
    Faulty {
        name: "depth-limit",
        limits: Limits {
            records: 1 << 48,
            depth: 1,
        },
        text: b"trace 1\nspawn\nspawn\n",
        fault: Fault::Nest(NestFault {
            place: 2,
            kind: NestKind::TooDeep,
        }),
    },
    Faulty {
        name: "record-limit",
        limits: Limits {
            records: 1,
            depth: 9,
        },
        text: b"trace 1\nreturn\nreturn\n",
        fault: Fault::Text(TextFault {
            line: 3,
            kind: TextKind::TooMany,
        }),
    },
    Faulty {
        name: "versions",
        limits: LIMITS,
        text: b"trace 3\nreturn\n",
        fault: Fault::Text(TextFault {
            line: 1,
            kind: TextKind::Header,
        }),
    },
    Faulty {
        name: "versions",
        limits: LIMITS,
        text: b"trace 02\nreturn\n",
        fault: Fault::Text(TextFault {
            line: 1,
            kind: TextKind::Header,
        }),
    },
    Faulty {
        name: "versions",
        limits: LIMITS,
        text: b"trace 1\ncall\nreturn\n",
        fault: Fault::Text(TextFault {
            line: 2,
            kind: TextKind::Line,
        }),
    },
    Faulty {
        name: "versions",
        limits: LIMITS,
        text: b"trace 2\ncall\nreturn\n",
        fault: Fault::Nest(NestFault {
            place: 3,
            kind: NestKind::Unfinished,
        }),
    },
    Faulty {
        name: "depth-limit",
        limits: Limits {
            records: 1 << 48,
            depth: 1,
        },
        text: b"trace 2\nspawn\ncall\n",
        fault: Fault::Nest(NestFault {
            place: 2,
            kind: NestKind::TooDeep,
        }),
    },
    Faulty {
        name: "long-line",
        limits: LIMITS,
        text: b"trace 1\naaaaaaaaaaaaaaaaaaaaaaaaaaa",
        fault: Fault::Text(TextFault {
            line: 2,
            kind: TextKind::Line,
        }),
    },
    Faulty {
        name: "long-line",
        limits: LIMITS,
        text: b"trace 1\naaaaaaaaaaaaaaaaaaaaaaaaaa",
        fault: Fault::Text(TextFault {
            line: 2,
            kind: TextKind::Truncated,
        }),
    },
];
