//! The worked rows that have a report.

use trace::Limits;

/// The limits of the rows that name none.
pub const LIMITS: Limits = Limits {
    records: 1 << 48,
    depth: 9,
};

pub const WRITE_WRITE: &[u8] = b"trace 1\nspawn\nwrite 5\nreturn\nwrite 5\nreturn\n";

pub const THREE_SHARDS: &[u8] =
    b"trace 1\nspawn\nwrite 8\nwrite 2\nreturn\nread 8\nread 2\nreturn\n";

pub const CALL_MIXED: &[u8] =
    b"trace 2\nspawn\nwrite 1\nreturn\ncall\nread 2\nreturn\nwrite 2\nwrite 1\nreturn\n";

/// A trace that is reported, within the rows' limits.
#[derive(Clone, Copy)]
pub struct Reported {
    pub name: &'static str,
    pub text: &'static [u8],
    pub report: &'static [u8],
}

/// The traces that are reported. A call, since the proofs of the tests are shorter without the rows.
pub fn all_reported() -> [Reported; 20] {
    REPORTED
}

const REPORTED: [Reported; 20] = [
    Reported {
        name: "empty",
        text: b"trace 1\nreturn\n",
        report: b"races 0\n",
    },
    Reported {
        name: "write-write",
        text: WRITE_WRITE,
        report: b"races 1\nrace 5 write 2 write 4\n",
    },
    Reported {
        name: "sync-orders",
        text: b"trace 1\nspawn\nwrite 5\nreturn\nsync\nwrite 5\nreturn\n",
        report: b"races 0\n",
    },
    Reported {
        name: "read-read",
        text: b"trace 1\nspawn\nread 5\nreturn\nread 5\nreturn\n",
        report: b"races 0\n",
    },
    Reported {
        name: "two-readers-then-write",
        text: b"trace 1\nspawn\nread 9\nreturn\nspawn\nread 9\nreturn\nwrite 9\nreturn\n",
        report: b"races 1\nrace 9 read 2 write 7\n",
    },
    Reported {
        name: "reader-moves-to-child",
        text: b"trace 1\nread 9\nspawn\nread 9\nreturn\nwrite 9\nreturn\n",
        report: b"races 1\nrace 9 read 3 write 5\n",
    },
    Reported {
        name: "grandchild-synced",
        text: b"trace 1\nspawn\nspawn\nwrite 1\nreturn\nreturn\nsync\nread 1\nreturn\n",
        report: b"races 0\n",
    },
    Reported {
        name: "sync-in-sibling",
        text: b"trace 1\nspawn\nwrite 1\nreturn\nspawn\nsync\nwrite 1\nreturn\nreturn\n",
        report: b"races 1\nrace 1 write 2 write 6\n",
    },
    Reported {
        name: "grandchild-unsynced",
        text: b"trace 1\nspawn\nspawn\nwrite 1\nreturn\nreturn\nread 1\nreturn\n",
        report: b"races 1\nrace 1 write 3 read 6\n",
    },
    Reported {
        name: "location-range",
        text: b"trace 1\nwrite 18446744073709551615\nreturn\n",
        report: b"races 0\n",
    },
    Reported {
        name: "three-writes",
        text: b"trace 1\nspawn\nwrite 3\nreturn\nspawn\nwrite 3\nreturn\nwrite 3\nreturn\n",
        report: b"races 1\nrace 3 write 2 write 5\n",
    },
    Reported {
        name: "first-reader-stays",
        text: b"trace 1\nspawn\nread 4\nreturn\nread 4\nwrite 4\nreturn\n",
        report: b"races 1\nrace 4 read 2 write 5\n",
    },
    Reported {
        name: "read-then-write-in-child",
        text: b"trace 1\nspawn\nread 7\nwrite 7\nreturn\nwrite 7\nreturn\n",
        report: b"races 1\nrace 7 write 3 write 5\n",
    },
    Reported {
        name: "read-in-child-of-writer",
        text: b"trace 1\nwrite 7\nspawn\nread 7\nreturn\nwrite 7\nreturn\n",
        report: b"races 1\nrace 7 read 3 write 5\n",
    },
    Reported {
        name: "three-shards",
        text: THREE_SHARDS,
        report: b"races 2\nrace 2 write 3 read 6\nrace 8 write 2 read 5\n",
    },
    Reported {
        name: "call-mixed",
        text: CALL_MIXED,
        report: b"races 1\nrace 1 write 2 write 8\n",
    },
    Reported {
        name: "call-sync-scopes",
        text: b"trace 2\nspawn\nwrite 1\nreturn\ncall\nsync\nwrite 1\nreturn\nreturn\n",
        report: b"races 1\nrace 1 write 2 write 6\n",
    },
    Reported {
        name: "call-sync-scopes",
        text: b"trace 2\ncall\nspawn\nwrite 1\nreturn\nreturn\nwrite 1\nreturn\n",
        report: b"races 0\n",
    },
    Reported {
        name: "versions",
        text: b"trace 2\nreturn\n",
        report: b"races 0\n",
    },
    // The text of version 1 with another header.
    Reported {
        name: "write-write",
        text: b"trace 2\nspawn\nwrite 5\nreturn\nwrite 5\nreturn\n",
        report: b"races 1\nrace 5 write 2 write 4\n",
    },
];
