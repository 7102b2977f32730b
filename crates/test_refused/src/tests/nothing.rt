//! Calls that ask for no memory at all.

use super::Hasher;
use collect::Collector;
use detect::Plan;
use shadow::Shadow;
use std::alloc::Global;
use std::process::Abort;
use trace::{
    Counted, Feed, Limits, Nest, Reader, Record, Sink, decimal_of, is_parallel, write_header,
    write_record,
};

const TEXT: &[u8] =
    b"trace 2\nspawn\nwrite 5\ncall\nsync\nreturn\nread 18446744073709551615\nreturn\nreturn\n";

const LIMITS: Limits = Limits {
    records: 9,
    depth: 9,
};

fn feed<R: Abort>(rt: &R) {
    let mut feed = Feed::new(LIMITS, Counted::new(TEXT));
    let mut count = 0u64;
    for _ in 0..9 {
        if let Ok(Some(placed)) = feed.next() {
            count = placed.place;
        }
    }
    assert!(rt; count == 8);
    assert!(rt; matches!(feed.next(), Ok(None)));
}

fn read<R: Abort>(rt: &R) {
    let mut reader = Reader::new(9);
    assert!(rt; reader.step(TEXT).is_ok());
    assert!(rt; reader.end().is_ok());
    assert!(rt; decimal_of(b"77") == Some(77));
}

fn nest<R: Abort>(rt: &R) {
    let mut nest = Nest::new(9);
    assert!(rt; nest.accept(Record::Call).is_ok());
    assert!(rt; nest.accept(Record::Return).is_ok());
    assert!(rt; nest.accept(Record::Return).is_ok());
    assert!(rt; nest.accept(Record::Sync).is_err());
    assert!(rt; nest.end().is_ok() && nest.count() == 3);
    assert!(rt; !is_parallel(&[Record::Sync, Record::Return], 1, 2));
}

fn write_headers<R: Abort>(rt: &R, sink: &mut impl Sink) {
    assert!(rt; write_header(1, sink).is_ok());
    assert!(rt; write_header(2, sink).is_ok());
}

fn write_records<R: Abort>(rt: &R, sink: &mut impl Sink) {
    assert!(rt; write_record(&Record::Call, sink).is_ok());
    assert!(rt; write_record(&Record::Read(77), sink).is_ok());
}

fn write<R: Abort>(rt: &R) {
    let mut room = [0u8; 64];
    let mut text: &mut [u8] = &mut room;
    let mut sink = Counted::new(&mut text);
    write_headers(rt, &mut sink);
    write_records(rt, &mut sink);
}

fn make<R: Abort>(rt: &R, alloc: Global) {
    let shadow = Shadow::with_hasher(alloc, Hasher::default());
    assert!(rt; (shadow.last_place(), shadow.least_count()) == (0, 1));
    let _ = Collector::new(alloc);
    let _ = Plan::new(64, 65536, LIMITS);
}

#[test]
fn calls(rt: HostRuntime) {
    feed(&rt);
    read(&rt);
    nest(&rt);
    write(&rt);
    make(&rt, rt.alloc());
}
