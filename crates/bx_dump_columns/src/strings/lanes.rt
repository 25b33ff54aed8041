//! Runs of printable bytes, many bytes at once.
ghost use Rattle.std.specs.Prelude.{◌≡◌, ℕ, ◌+◌, ◌<◌, ◌≤◌, true, false, length, take, drop};
ghost use Rattle.std.specs.List.{prefix_len};
ghost use Rattle.bx_dump_columns.specs.Printing.{first_set, four_print};
ghost use Rattle.bx_text.specs.Ascii.{is_printable};

use std::simd::prelude::*;

/// The place of the lowest bit that is set, or `lanes`.
#[inline(always)]
fn first_set(mask: u64, lanes: usize) -> usize
    ensures { result ≡ first_set mask lanes }
{
    if mask == 0 {
        lanes
    } else {
        mask.trailing_zeros() as usize
    }
}

/// How many of the 16 bytes from a place on print, before the first that doesn't.
#[inline(always)]
pub fn printing_in(bytes: &[u8], at: usize) -> usize
    requires { at + 16 ≤ length bytes.now }
    ensures value { result ≡ prefix_len is_printable (take 16 (drop at bytes.now)) }
    ensures most { result ≤ 16 }
{
    let above = u8x16::from_slice(&bytes[at..]) - u8x16::splat(0x20);
    first_set(above.simd_gt(u8x16::splat(0x5e)).to_bitmask(), 16)
}

/// How many of the 32 places from `at` on come before the first from which on four bytes print.
#[inline(always)]
pub fn four_in(bytes: &[u8], at: usize) -> usize
    requires { at + 35 ≤ length bytes.now }
    ensures most { result ≤ 32 }
    ensures none { (k : ℕ) → at ≤ k → k < at + result → four_print bytes.now k ≡ false }
    ensures found { result < 32 → four_print bytes.now (at + result) ≡ true }
{
    let low = u8x32::splat(0x20);
    let high = u8x32::splat(0x5e);
    let first = (u8x32::from_slice(&bytes[at..]) - low).simd_le(high);
    let second = (u8x32::from_slice(&bytes[at + 1..]) - low).simd_le(high);
    let third = (u8x32::from_slice(&bytes[at + 2..]) - low).simd_le(high);
    let fourth = (u8x32::from_slice(&bytes[at + 3..]) - low).simd_le(high);
    first_set((first & second & third & fourth).to_bitmask(), 32)
}
