//! Digits of a number, sixteen at a time in a vector.
ghost use Rattle.std.specs.Prelude.{◌≡◌, ◌-◌, ◌<◌, ◌≤◌, ◌++◌, take, replicate, slice_index, IfSome, IfNone};
ghost use Rattle.std.specs.Int.Digits.{number_from_digits, AllBelowBase};
ghost use Rattle.trace.specs.Digits.{paired};

use std::simd::prelude::*;

/// The index of the first value that isn't a digit's.
#[inline(always)]
pub fn first_other(values: u8x16) -> Option<usize>
    ensures within { IfSome result (λ n. n < 16) }
    ensures digits { IfSome result (λ n. AllBelowBase 10 (take n values)) }
    ensures other { IfSome result (λ n. 10 ≤ slice_index values n) }
    ensures none { IfNone result (AllBelowBase 10 values) }
{
    let others = values.simd_ge(u8x16::splat(10)).to_bitmask();
    if others == 0 {
        return None;
    }
    Some(others.trailing_zeros() as usize)
}

// Where the moved values come from: sixteen times nowhere, since a place of 128 or more gives 0, and then 0 to 15.
const PLACES: &[u8; 32] = b"\xf0\xf1\xf2\xf3\xf4\xf5\xf6\xf7\xf8\xf9\xfa\xfb\xfc\xfd\xfe\xff\
      \x00\x01\x02\x03\x04\x05\x06\x07\x08\x09\x0a\x0b\x0c\x0d\x0e\x0f";

/// Moves the first `count` values to the back, with zeros in front of them.
#[inline(always)]
pub fn moved_back(values: u8x16, count: usize) -> u8x16
    requires { count < 16 }
    ensures { result ≡ replicate (16 - count) 0 ++ take count values }
{
    let places: &[u8] = PLACES;
    values.swizzle_dyn_within::<16>(u8x16::from_slice(&places[count..count + 16]))
}

/// The number that the sixteen digits spell.
#[inline(always)]
pub fn number_from(digits: u8x16) -> u64
    requires { AllBelowBase 10 digits }
    ensures { result ≡ number_from_digits 10 digits }
{
    let [front, back] = eights(fours(twos(digits))).to_array();
    front * 100_000_000 + back
}

// Two digits an element. An element of two bytes has the first digit in its lower byte and the second one above it.
#[inline(always)]
fn twos(digits: u8x16) -> u16x8
    requires { AllBelowBase 10 digits }
    ensures below { AllBelowBase 100 result }
    ensures paired { result ≡ paired 10 digits }
{
    (u16x8::from_le_bytes(digits) * u16x8::splat(10 * 0x100 + 1)) >> 8
}

// Four digits an element.
#[inline(always)]
fn fours(twos: u16x8) -> u32x4
    requires { AllBelowBase 100 twos }
    ensures below { AllBelowBase 10000 result }
    ensures paired { result ≡ paired 100 twos }
{
    let words = u32x4::from_le_bytes(twos.to_le_bytes());
    (words * u32x4::splat(100 * 0x1_0000 + 1)) >> 16
}

// Eight digits an element.
#[inline(always)]
fn eights(fours: u32x4) -> u64x2
    requires { AllBelowBase 10000 fours }
    ensures below { AllBelowBase 100000000 result }
    ensures paired { result ≡ paired 10000 fours }
{
    let words = u64x2::from_le_bytes(fours.to_le_bytes());
    (words & u64x2::splat(0xFFFF_FFFF)) * u64x2::splat(10_000) + (words >> 32)
}
