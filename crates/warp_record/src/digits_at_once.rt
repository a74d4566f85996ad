//! Digits at the front of a text, read from eight bytes at once by arithmetic on one number.
ghost use Rattle.std.specs.Prelude.{◌≡◌, ℕ, ◌<◌, ◌≤◌, List, length, take, slice_index};
ghost use Rattle.std.specs.Char.{digit_value};
ghost use Rattle.std.specs.Int.Digits.{number_from_digits};
ghost use Rattle.std.specs.List.{position_or_len};
ghost use Rattle.std.specs.Str.Parse.{AllDigits, digits_value};
ghost use Rattle.warp_record.specs.Number.{is_space};
ghost use Rattle.warp_record.specs.inner.Eight.{AreEight, lanes_of};
ghost use lib.Lanes.{number_l};

use std::simd::prelude::*;

/// How many bytes are read at once.
pub(crate) const EIGHT: usize = 8;

/// How many of the first eight bytes are digits, up to the first that is none.
#[inline(always)]
pub(crate) fn count_digits(bytes: &[u8]) -> usize
    requires { 8 ≤ length bytes.now }
    ensures short { result ≤ 8 }
    ensures all_digits { AllDigits 10 (take result bytes.now) }
    ensures end { result < 8 → digit_value (slice_index bytes.now result) < 10 → ⊥ }
{
    let lanes = u8x8::from_slice(bytes) - u8x8::splat(b'0');
    let others = lanes.simd_ge(u8x8::splat(10)).to_bitmask();
    if others == 0 {
        return EIGHT;
    }
    others.trailing_zeros() as usize
}

/// The number whose lowest byte is the first of the first eight bytes, each less that of the digit 0.
#[inline(always)]
fn load_lanes(bytes: &[u8]) -> u64
    requires { 8 ≤ length bytes.now }
    ensures { result ≡ number_l 256 (lanes_of bytes.now) }
{
    let lanes = u8x8::from_slice(bytes) - u8x8::splat(b'0');
    u64::from_le_bytes(lanes.to_array())
}

/// The number that eight digits write, the first of them in the lowest byte: by pairs, and pairs of pairs.
#[inline(always)]
fn value_of_eight(word: u64) -> u64
    ensures { (ds : List ℕ) → AreEight ds → word ≡ number_l 256 ds → result ≡ number_from_digits 10 ds }
{
    let pairs = word.wrapping_mul(10).wrapping_add(word >> 8);
    let first = (pairs & 0x0000_00ff_0000_00ff).wrapping_mul(100 + (1_000_000 << 32));
    let second = ((pairs >> 16) & 0x0000_00ff_0000_00ff).wrapping_mul(1 + (10_000 << 32));
    first.wrapping_add(second) >> 32
}

/// The number that so many digits at the front write.
#[inline(always)]
pub(crate) fn value_of_first(bytes: &[u8], count: usize) -> u64
    requires room { 8 ≤ length bytes.now }
    requires some { (0 < count) × (count < 8) }
    requires digits { AllDigits 10 (take count bytes.now) }
    ensures { digits_value 10 (take count bytes.now) ≡ result }
{
    // The digits go to the end, and zeros in front of them.
    value_of_eight(load_lanes(bytes) << (64 - 8 * count))
}
