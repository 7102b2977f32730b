//! The questions about a trace.

use super::print_refused;
use audit::{Confirm, Measure, confirm, measure, pairs};
use collect::read_report;
use std::alloc::Global;
use std::process::Abort;
use trace::{Access, Counted, Fault, Limits};

const LIMITS: Limits = Limits {
    records: 1 << 48,
    depth: 9,
};

/// A trace, its measure, the places of all races of location 1, and a report with these races.
#[derive(Clone, Copy)]
struct Row {
    text: &'static [u8],
    measure: Measure,
    pairs: &'static [(u64, u64)],
    report: &'static [u8],
}

/// The rows. A call, since the proofs of the tests are shorter without them.
fn all_rows() -> [Row; 4] {
    ROWS
}

/// Rows `sync-in-sibling`, `call-mixed`, and both of `call-sync-scopes`.
const ROWS: [Row; 4] = [
    Row {
        text: b"trace 1\nspawn\nwrite 1\nreturn\nspawn\nsync\nwrite 1\nreturn\nreturn\n",
        measure: Measure {
            work: 8,
            span: 6,
            spawns: 2,
            depth: 1,
        },
        pairs: &[(2, 6)],
        report: b"races 1\nrace 1 write 2 write 6\n",
    },
    Row {
        text: b"trace 2\nspawn\nwrite 1\nreturn\ncall\nread 2\nreturn\nwrite 2\nwrite 1\nreturn\n",
        measure: Measure {
            work: 9,
            span: 7,
            spawns: 1,
            depth: 1,
        },
        pairs: &[(2, 8)],
        report: b"races 1\nrace 1 write 2 write 8\n",
    },
    Row {
        text: b"trace 2\nspawn\nwrite 1\nreturn\ncall\nsync\nwrite 1\nreturn\nreturn\n",
        measure: Measure {
            work: 8,
            span: 6,
            spawns: 1,
            depth: 1,
        },
        pairs: &[(2, 6)],
        report: b"races 1\nrace 1 write 2 write 6\n",
    },
    Row {
        text: b"trace 2\ncall\nspawn\nwrite 1\nreturn\nreturn\nwrite 1\nreturn\n",
        measure: Measure {
            work: 7,
            span: 7,
            spawns: 1,
            depth: 2,
        },
        pairs: &[],
        report: b"races 0\n",
    },
];

/// The answer, or else a refusal, which this reports.
fn answered<R: Print + Abort, T>(rt: &R, answer: Result<T, Fault>) -> Option<T> {
    match answer {
        Ok(answer) => Some(answer),
        Err(fault) => {
            assert!(rt; fault == Fault::NoMemory);
            print_refused(rt, "memory");
            None
        }
    }
}

fn measure_row<R: Print + Abort>(rt: &R, alloc: Global, row: Row) {
    let answer = measure(alloc, LIMITS, &mut Counted::new(row.text));
    if let Some(measured) = answered(rt, answer) {
        assert!(rt; measured == row.measure);
    }
}

#[test]
fn measures(rt: HostRuntime) {
    for row in all_rows() {
        measure_row(&rt, rt.alloc(), row);
    }
}

fn assert_pairs<R: Abort>(rt: &R, pairs: &[(Access, Access)], wanted: &[(u64, u64)]) {
    assert!(rt; pairs.len() == wanted.len());
    for ((first, second), wanted) in pairs.iter().zip(wanted) {
        assert!(rt; (first.place, second.place) == *wanted);
    }
}

fn list_row<R: Print + Abort>(rt: &R, alloc: Global, row: Row) {
    let answer = pairs(alloc, LIMITS, &mut Counted::new(row.text), 1);
    if let Some(listed) = answered(rt, answer) {
        assert_pairs(rt, &listed, row.pairs);
    }
}

#[test]
fn lists(rt: HostRuntime) {
    for row in all_rows() {
        list_row(&rt, rt.alloc(), row);
    }
}

/// Whether a report is confirmed.
fn confirm_report<R: Print + Abort>(
    rt: &R,
    alloc: Global,
    text: &[u8],
    report: &[u8],
    wanted: Confirm,
) {
    let Ok(report) = read_report(alloc, report) else {
        print_refused(rt, "report");
        return;
    };
    let answer = confirm(alloc, LIMITS, &mut Counted::new(text), &report);
    if let Some(confirmed) = answered(rt, answer) {
        assert!(rt; confirmed == wanted);
    }
}

#[test]
fn confirms(rt: HostRuntime) {
    for row in all_rows() {
        confirm_report(&rt, rt.alloc(), row.text, row.report, Confirm::Yes);
        let other = b"races 1\nrace 1 write 3 write 6\n";
        let wanted = Confirm::No { entry: 1 };
        confirm_report(&rt, rt.alloc(), row.text, other, wanted);
    }
}
