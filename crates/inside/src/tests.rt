//! Sessions. They are tested here, since no other crate can stand on a static library.

use crate::session::Session;
use std::process::Abort;
use std::rt::Files;
use std::test::Fail;

const SPAWN: u8 = 0;

const RETURN: u8 = 2;

const SYNC: u8 = 3;

const WRITE: u8 = 5;

const TAKEN: u8 = 0;

const AFTER_END: u8 = 1;

const NO_MEMORY: u8 = 3;

const UNKNOWN_KIND: u8 = 4;

const GIVEN: u8 = 5;

const AT_END: u16 = 256;

const NO_TEXT: u16 = 257;

// The session gives this text.
fn gives<R: Abort>(rt: &R, session: &mut Session, text: &[u8]) {
    assert_eq!(rt; session.report(), TAKEN);
    for byte in text {
        assert_eq!(rt; session.next(), *byte as u16);
    }
    assert_eq!(rt; session.next(), AT_END);
    assert_eq!(rt; session.report(), GIVEN);
    assert_eq!(rt; session.step(SYNC, 0), GIVEN);
}

// The child and the root, which doesn't wait for it, write location 7.
#[test]
fn step_by_step(rt: HostRuntime) -> Result<(), Fail> {
    let mut session = Session::new(rt.alloc());
    assert_eq!(rt; session.next(), NO_TEXT);
    assert_eq!(rt; session.step(SPAWN, 0), TAKEN);
    assert_eq!(rt; session.step(WRITE, 7), TAKEN);
    assert_eq!(rt; session.step(6, 7), UNKNOWN_KIND);
    assert_eq!(rt; session.step(RETURN, 0), TAKEN);
    assert_eq!(rt; session.race_count(), 0);
    assert_eq!(rt; session.step(WRITE, 7), TAKEN);
    assert_eq!(rt; session.race_count(), 1);
    assert_eq!(rt; session.step(RETURN, 0), TAKEN);
    assert_eq!(rt; session.step(SYNC, 0), AFTER_END);
    gives(&rt, &mut session, b"races 1\nrace 7 write 2 write 4\n");
    session.close();
    Ok(())
}

// A record is eight times its location, plus its kind: 61 is a write of location 7.
#[test]
fn many_steps(rt: HostRuntime) -> Result<(), Fail> {
    let mut session = Session::new(rt.alloc());
    assert_eq!(rt; session.steps(&[0, 61, 2]), TAKEN);
    assert_eq!(rt; session.steps(&[]), TAKEN);
    assert_eq!(rt; session.steps(&[61, 7, 2]), UNKNOWN_KIND);
    assert_eq!(rt; session.steps(&[2, 3, 3]), AFTER_END);
    gives(&rt, &mut session, b"races 1\nrace 7 write 2 write 4\n");
    session.close();
    Ok(())
}

// The child reads location 0 and writes location 2, and the root, which doesn't wait for it, writes both.
#[test]
fn blocks(rt: HostRuntime) -> Result<(), Fail> {
    let mut session = Session::new(rt.alloc());
    assert_eq!(rt; session.step(SPAWN, 0), TAKEN);
    assert_eq!(rt; session.block(0, 1, 2), TAKEN);
    assert_eq!(rt; session.step(RETURN, 0), TAKEN);
    assert_eq!(rt; session.block(1, 0, 3), TAKEN);
    assert_eq!(rt; session.step(RETURN, 0), TAKEN);
    assert_eq!(rt; session.block(0, 1, 0), AFTER_END);
    gives(
        &rt,
        &mut session,
        b"races 2\nrace 0 read 2 write 5\nrace 2 write 3 write 6\n",
    );
    assert_eq!(rt; session.block(0, 1, 0), GIVEN);
    session.close();
    Ok(())
}

// The child writes locations 6, 7 and 9, and the root, which doesn't wait for it, does so after 7 and 8 were forgotten.
// Then both 6 and 7 race in another life.
#[test]
fn forgotten(rt: HostRuntime) -> Result<(), Fail> {
    let mut session = Session::new(rt.alloc());
    assert_eq!(rt; session.steps(&[0, 53, 61, 77, 2]), TAKEN);
    assert_eq!(rt; session.forget(7, 1 << 3), TAKEN);
    assert_eq!(rt; session.forget(6, 1 << 4), TAKEN);
    assert_eq!(rt; session.steps(&[53, 61, 77]), TAKEN);
    assert_eq!(rt; session.forget(0, u64::MAX), TAKEN);
    assert_eq!(rt; session.forget(1, u64::MAX), TAKEN);
    assert_eq!(rt; session.steps(&[53, 61, 0, 53, 61, 2, 53, 61, 2]), TAKEN);
    gives(
        &rt,
        &mut session,
        b"races 3\nrace 6 write 2 write 6\nrace 7 write 13 write 16\nrace 9 write 4 write 8\n",
    );
    assert_eq!(rt; session.forget(7, 1), GIVEN);
    session.close();
    Ok(())
}

// `rt try --test --fail-alloc N` refuses growth N. A refusal stops the session for good.
#[test]
fn refused(rt: HostRuntime) -> Result<(), Fail> {
    let mut session = Session::new(rt.alloc());
    let mut is_refused = false;
    for record in [0, 61, 2, 61, 2] {
        let mut status = session.steps(&[record]);
        if record == 61 && status == TAKEN {
            status = session.block(0, 0, 3);
        }
        if is_refused || status != TAKEN {
            assert_eq!(rt; status, NO_MEMORY);
            is_refused = true;
        }
    }
    let status = session.report();
    if is_refused || status != TAKEN {
        assert_eq!(rt; status, NO_MEMORY);
        assert_eq!(rt; session.report(), NO_MEMORY);
        assert_eq!(rt; session.step(SYNC, 0), NO_MEMORY);
        assert_eq!(rt; session.next(), NO_TEXT);
    }
    session.close();
    Ok(())
}

// How many pages of memory this process has.
fn pages<R: Files + AllocGlobal>(rt: &R) -> Result<u64, Fail> {
    let text = std::fs::read_to_string(rt, "/proc/self/statm")?;
    let Some((pages, _)) = text.as_str().split_once(' ') else {
        return Err(Fail::from("statm"));
    };
    Ok(pages.parse::<u64>()?)
}

// A session takes writes of locations that lie far apart, 5 MB and more, and gives its text or doesn't.
fn takes_much<R: Abort + AllocGlobal>(rt: &R, reports: bool) {
    let mut session = Session::new(rt.alloc());
    for number in 0..10_000u64 {
        assert_eq!(rt; session.step(WRITE, number << 20), TAKEN);
    }
    if reports {
        assert_eq!(rt; session.report(), TAKEN);
    }
    session.close();
}

// Locations that are forgotten give their memory back: 100,000 that lie far apart would take 20 MB, and one after
// another they take less than 4.
#[test]
fn comes_back(rt: HostRuntime) -> Result<(), Fail> {
    let before = pages(&rt)?;
    let mut session = Session::new(rt.alloc());
    for number in 0..100_000u64 {
        let location = number << 8 | number & 1;
        assert_eq!(rt; session.step(WRITE, location), TAKEN);
        assert_eq!(rt; session.forget(location, 1), TAKEN);
    }
    let after = pages(&rt)?;
    session.close();
    assert!(rt; before > 1 << 30 || after < before + 1_000);
    Ok(())
}

// The sessions have more than 200 MB in all, and less than half of that stays. `rt try` keeps what is freed, so that
// this says nothing there; its programs have terabytes of addresses.
#[test]
fn closed(rt: HostRuntime) -> Result<(), Fail> {
    let before = pages(&rt)?;
    if before > 1 << 30 {
        return Ok(());
    }
    for round in 0..40u32 {
        takes_much(&rt, round % 2 == 0);
    }
    assert!(rt; pages(&rt)? < before + 25_000);
    Ok(())
}
