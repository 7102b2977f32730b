//! The worked rows in one thread, whole and cut after every byte.

use super::answers::{assert_fault, assert_text, text_plain};
use super::faulty_rows::all_faulty;
use super::reported_rows::{LIMITS, all_reported};
use std::test::Fail;

/// The pieces' sizes: cut after every byte, cut inside of lines, and whole.
const SIZES: [usize; 4] = [1, 3, 11, 4096];

#[test]
fn reports(rt: HostRuntime) -> Result<(), Fail> {
    for row in all_reported() {
        for size in SIZES {
            let text = text_plain(rt.alloc(), LIMITS, row.text, size)?;
            assert_text(&rt, &text, row.report, row.name, size);
        }
    }
    Ok(())
}

#[test]
fn first_faults(rt: HostRuntime) {
    for row in all_faulty() {
        for size in SIZES {
            let fault = text_plain(rt.alloc(), row.limits, row.text, size).err();
            assert_fault(&rt, fault, row.fault, row.name, size);
        }
    }
}
