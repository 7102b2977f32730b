//! The worked rows in two pieces, cut at every place: the answers are those of the whole. And readers that fail between
//! the pieces.
ghost use Rattle.std.specs.Prelude.{None, false};

use super::answers::{Hasher, answer_from, text_of};
use super::faulty_rows::all_faulty;
use super::reported_rows::{LIMITS, Reported, WRITE_WRITE, all_reported};
use detect::detect_plain;
use shard::Open;
use std::alloc::Global;
use std::process::Abort;
use std::sync::Wait;
use std::thread::Threads;
use std::time::Clock;
use test_helpers::devices::Pieces;
use trace::{Failed, Fault, Limits, Source};

/// Where a text is cut. If asked to, a call fails there, and then the bytes come one by one.
#[derive(Clone, Copy)]
struct Cut<'a> {
    text: &'a [u8],
    place: usize,
    fails: bool,
}

/// Hands out the bytes up to the cut, and then the others. The calls after a failed one go on as if it hadn't been
/// made.
#[derive(Drop)]
struct TwoPieces<'a> {
    pieces: Pieces<'a>,
    second: Option<&'a [u8]>,
}

impl<'a> TwoPieces<'a> {
    fn of(cut: Cut<'a>) -> TwoPieces<'a> {
        let (first, second) = cut.text.split_at(cut.place.min(cut.text.len()));
        let size = if cut.fails { 1 } else { 4096 };
        TwoPieces {
            pieces: Pieces {
                fails: cut.fails,
                ..Pieces::of(first, size)
            },
            second: Some(second),
        }
    }
}

impl<'a> Source for TwoPieces<'a> {
    ghost state = { λ s. record { bytes = None; failures = s.pieces.failed; holds_back = false } };

    fn get(&mut self, buffer: &mut [u8]) -> Result<usize, Failed> {
        if self.pieces.bytes.is_empty() && !self.pieces.fails {
            if let Some(second) = self.second.take() {
                self.pieces.bytes = second;
            }
        }
        self.pieces.get(buffer)
    }
}

/// The text of the report by this number of shards, or by one thread.
fn text_from<T: Threads + Wait + Clock + Sync + Abort>(
    rt: &T,
    alloc: Global,
    shards: Option<u32>,
    limits: Limits,
    cut: Cut<'_>,
) -> Result<Vec<u8>, Fault> {
    let mut pieces = TwoPieces::of(cut);
    match shards {
        None => text_of(
            alloc,
            &detect_plain(alloc, limits, &mut pieces, Hasher::default())?,
        ),
        Some(shards) => Ok(answer_from(rt, alloc, shards, 1, limits, &mut pieces, &Open)?.text),
    }
}

fn assert_answer<R: Abort>(
    rt: &R,
    answer: &Result<Vec<u8>, Fault>,
    wanted: Result<&[u8], Fault>,
    cut: Cut<'_>,
    shards: Option<u32>,
) {
    let found = match answer {
        Ok(text) => Ok(text.as_slice()),
        Err(fault) => Err(*fault),
    };
    let Cut { text, place, .. } = cut;
    assert!(rt; found == wanted, "{text:?} at {place} by {shards:?}");
}

/// Asserts what one thread, one shard and three answer.
fn assert_answers<T: Threads + Wait + Clock + Sync + Abort>(
    rt: &T,
    alloc: Global,
    limits: Limits,
    cut: Cut<'_>,
    wanted: Result<&[u8], Fault>,
) {
    for shards in [None, Some(1), Some(3)] {
        let answer = text_from(rt, alloc, shards, limits, cut);
        assert_answer(rt, &answer, wanted, cut, shards);
    }
}

/// The rows are shared out between two tests, since a test's time is limited.
fn assert_reports<T: Threads + Wait + Clock + Sync + Abort>(
    rt: &T,
    alloc: Global,
    rows: &[Reported],
) {
    for row in rows {
        let text = row.text;
        for place in 0..text.len() {
            let fails = false;
            let cut = Cut { text, place, fails };
            assert_answers(rt, alloc, LIMITS, cut, Ok(row.report));
        }
    }
}

#[test]
fn first_reports_of_two_pieces(rt: HostRuntime) {
    let rows = all_reported();
    assert_reports(&rt, rt.alloc(), &rows[..10]);
}

#[test]
fn last_reports_of_two_pieces(rt: HostRuntime) {
    let rows = all_reported();
    assert_reports(&rt, rt.alloc(), &rows[10..]);
}

#[test]
fn faults_of_two_pieces(rt: HostRuntime) {
    for row in all_faulty() {
        let text = row.text;
        for place in 0..text.len() {
            let fails = false;
            let cut = Cut { text, place, fails };
            assert_answers(&rt, rt.alloc(), row.limits, cut, Err(row.fault));
        }
    }
}

// A call that fails isn't tried again, and no answer comes of what was read before.
#[test]
fn each_call_fails(rt: HostRuntime) {
    let text = WRITE_WRITE;
    let fails = true;
    for place in 0..text.len() {
        let cut = Cut { text, place, fails };
        assert_answers(&rt, rt.alloc(), LIMITS, cut, Err(Fault::Read));
    }
    let place = text.len();
    let at_end = Cut { text, place, fails };
    assert_answers(&rt, rt.alloc(), LIMITS, at_end, Err(Fault::Read));
}
