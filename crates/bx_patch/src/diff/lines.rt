//! The lines for two windows.
ghost use Rattle.std.specs.Prelude.{◌≡◌, ◌<◌, ◌+◌, ◌*◌, ◌++◌, ◌^◌, length, flat_map, OnOk};
ghost use Rattle.bx_text.specs.Fold.{line_bytes};
ghost use Rattle.bx_patch.specs.Text.{signed_line_text, row_count, row_lines};
ghost use Rattle.bx_patch.specs.private.Row.{window_lines};

use crate::diff::row::{Extent, push_row};
use std::alloc::{AllocError, Allocator};

/// The bytes of row k.
#[inline]
fn row_of(bytes: &[u8], k: usize) -> &[u8]
    requires { 16 * k + 16 < 2 ^ 64 }
    ensures { result.now ≡ line_bytes bytes.now k }
{
    let begin = (16 * k).min(bytes.len());
    let end = (begin + 16).min(bytes.len());
    &bytes[begin..end]
}

/// Adds the lines for row k of two windows that begin at an address.
#[inline]
fn push_kth<A: Allocator>(
    text: &mut Vec<u8, A>,
    extent: Extent,
    at: u64,
    old: &[u8],
    new: &[u8],
    k: usize,
) -> Result<(), AllocError>
    requires { at + 16 * k + 16 < 2 ^ 64 }
    ensures { OnOk result (text.new.items ≡ text.old.items
        ++ flat_map signed_line_text (row_lines extent (at + 16 * k) (line_bytes old.now k) (line_bytes new.now k))) }
{
    push_row(
        text,
        extent,
        at + 16 * k as u64,
        row_of(old, k),
        row_of(new, k),
    )
}

/// Adds the lines for the rows of two windows that begin at an address.
fn push_rows<A: Allocator>(
    text: &mut Vec<u8, A>,
    extent: Extent,
    at: u64,
    old: &[u8],
    new: &[u8],
) -> Result<(), AllocError>
    requires small { at + length old.now + 32 < 2 ^ 64 }
    requires little { at + length new.now + 32 < 2 ^ 64 }
    ensures { OnOk result (text.new.items ≡ text.old.items ++ flat_map signed_line_text (window_lines extent at old.now new.now (row_count old.now new.now))) }
{
    let count = (old.len().max(new.len()) + 15) / 16;
    for k in 0..count {
        push_kth(text, extent, at, old, new, k)?;
    }
    Ok(())
}

/// Gathers the lines for two windows at an address, in place of what the text had. Windows that are equal, as most are, have none.
pub fn gather<A: Allocator>(
    text: &mut Vec<u8, A>,
    extent: Extent,
    at: u64,
    old: &[u8],
    new: &[u8],
) -> Result<(), AllocError>
    requires small { at + length old.now + 32 < 2 ^ 64 }
    requires little { at + length new.now + 32 < 2 ^ 64 }
    ensures { OnOk result (text.new.items ≡ flat_map signed_line_text (window_lines extent at old.now new.now (row_count old.now new.now))) }
{
    text.clear();
    if old == new {
        return Ok(());
    }
    push_rows(text, extent, at, old, new)
}
