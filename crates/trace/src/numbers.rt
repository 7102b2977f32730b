//! Decimals: the numbers in the lines of a trace, and in the words of a command.
ghost use Rattle.std.specs.Prelude.{◌≡◌, ◌≢◌, ℕ, ◌<◌, ◌≤◌, ◌^◌, length, take, slice_index, IfSome, IfNone, decimal};
ghost use Rattle.trace.specs.Text.{newline};
ghost use Rattle.std.specs.Str.Parse.{AllDigits, digits_value};

use crate::digits::{first_other, moved_back, number_from};
use std::simd::prelude::*;

/// The number below 2^64 that the bytes spell in decimal: `0`, or digits with no zero in front.
pub fn decimal_of(digits: &[u8]) -> Option<u64>
    ensures found { IfSome result (λ n. digits.now ≡ decimal n) }
    ensures none { IfNone result ((n : ℕ) → n < 2 ^ 64 → digits.now ≢ decimal n) }
{
    if digits.is_empty() {
        return None;
    }
    if digits[0] == b'0' {
        return if digits.len() == 1 { Some(0) } else { None };
    }
    value_of(digits)
}

// The number below 2^64 that digits spell, zeros in front or not.
fn value_of(digits: &[u8]) -> Option<u64>
    ensures digits { IfSome result (λ _. AllDigits 10 digits.now) }
    ensures value { IfSome result (λ n. digits_value 10 digits.now ≡ n) }
    ensures small { IfSome result (λ n. n < 2 ^ 64) }
    ensures none { IfNone result (AllDigits 10 digits.now → 2 ^ 64 ≤ digits_value 10 digits.now) }
{
    let mut value: u64 = 0;
    for digit in digits {
        if !digit.is_ascii_digit() {
            return None;
        }
        let Some(tens) = value.checked_mul(10) else {
            return None;
        };
        let Some(next) = tens.checked_add(u64::from(*digit - b'0')) else {
            return None;
        };
        value = next;
    }
    Some(value)
}

/// A number, and how many digits it has.
#[derive(Clone, Copy)]
pub struct Number {
    /// The number that the digits spell: 1 to 10^15 - 1.
    pub value: u64,
    /// How many digits it has: 1 to 15.
    pub digits: usize,
}

/// The number before a line's end, if it has 1 to 15 digits and doesn't begin with 0. The answer `None` says nothing.
#[inline(always)]
pub fn number_in_front(bytes: &[u8]) -> Option<Number>
    requires { length bytes.now ≡ 16 }
    ensures within { IfSome result (λ n. n.digits < 16) }
    ensures spelled { IfSome result (λ n. take n.digits bytes.now ≡ decimal n.value) }
    ensures ended { IfSome result (λ n. slice_index bytes.now n.digits ≡ newline) }
{
    // Nor does it begin with a line's end, which lies below `0`.
    if bytes[0] <= b'0' {
        return None;
    }
    let values = u8x16::from_slice(bytes) - u8x16::splat(b'0');
    let digits = first_other(values)?;
    if bytes[digits] != b'\n' {
        return None;
    }
    Some(Number {
        value: number_from(moved_back(values, digits)),
        digits,
    })
}
