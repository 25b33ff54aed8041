//! A window of an image behind changes.
ghost use Rattle.std.specs.Prelude.{◌≡◌, ◌+◌, ◌%◌, ◌^◌, ◌<◌, ◌≤◌, ℕ, All, List, [], IsTrue, drop, length, slice_index, slice_index_or, OnOk, is_err};
ghost use Rattle.std.specs.List.Sorted.{IsNonDecreasing};
ghost use Rattle.std.specs.Option.{option_map_or};
ghost use Rattle.bx_image.specs.Change.{effect, placed};
ghost use Rattle.bx_image.specs.Image.{cut, place};
ghost use Rattle.bx_patch.specs.Diff.{OnlyReads};
ghost use Rattle.bx_patch.specs.preview.Changed.{effects};
ghost use Rattle.bx_patch.specs.preview.Index.{IsIndexOf};
ghost use Rattle.bx_patch.specs.private.preview.Order.{AreByPlace};
ghost use Rattle.bx_patch.specs.private.preview.Window.{AreFoundFor, IsOutside, IsWindow};
ghost use Rattle.bx_text.specs.declared.owned.pieces.Piece.{Piece as PieceOf};

use crate::preview::index::{MOST, SPAN, found_in, may_search};
use crate::preview::order::{count_begun, count_ended};
use crate::preview::untouched::Untouched;
use bx_image::{Change, Device, DeviceFailed};
use bx_text::Piece;
use std::alloc::Allocator;

/// Overwrites bytes with zeros.
fn clear(bytes: &mut [u8])
    ensures length { length bytes.new ≡ length bytes.old }
    ensures zeros { IsWindow bytes.new 0 [] }
{
    bytes.fill(0);
}

/// Fills a buffer with the bytes of a device's image from an address on, and with zeros behind its end. `len` is its length.
pub fn read_window<D: Device>(
    device: &mut D,
    len: u64,
    at: u64,
    buf: &mut [u8],
) -> Result<(), DeviceFailed>
    requires countable { D.failures device.old < u64.MAX }
    requires len { D.faithful device.old → len ≡ length (D.image device.old) }
    ensures length { length buf.new ≡ length buf.old }
    ensures bytes { D.faithful device.old → OnOk result (IsWindow buf.new at (D.image device.old)) }
    ensures reads { OnlyReads D.faithful D.image D.room D.failures D.survives (is_err result) device.old device.new }
{
    if len <= at {
        clear(buf);
        return Ok(());
    }
    let count = (buf.len() as u64).min(len - at) as usize;
    let (front, rest) = buf.split_at_mut(count);
    clear(rest);
    match device.read_at(at, front) {
        Ok(()) => Ok(()),
        Err(fault) => Err(fault),
    }
}

/// Overwrites the end of a buffer from a place on with zeros.
fn clear_from(buf: &mut [u8], start: usize)
    requires { start ≤ length buf.old }
    ensures length { length buf.new ≡ length buf.old }
    ensures front { (j : ℕ) → j < start → slice_index buf.new j ≡ slice_index buf.old j }
    ensures zeros { (j : ℕ) → start ≤ j → slice_index buf.new j ≡ 0 }
{
    clear(&mut buf[start..]);
}

/// Cuts a window to a length, where there is one: what lies behind it is zeros.
fn cut_window(base: Option<u64>, at: u64, buf: &mut [u8])
    ensures length { length buf.new ≡ length buf.old }
    ensures put { (y : List ℕ) → IsWindow buf.old at y → IsWindow buf.new at (option_map_or (cut y) base y) }
{
    let Some(base) = base else {
        return;
    };
    if base <= at {
        clear_from(buf, 0);
    } else if base - at < buf.len() as u64 {
        clear_from(buf, (base - at) as usize);
    }
}

/// Overwrites the bytes of a buffer from a place on.
fn overwrite(buf: &mut [u8], at: usize, bytes: &[u8])
    requires { at + length bytes.now ≤ length buf.old }
    ensures { buf.new ≡ place buf.old at bytes.now }
{
    buf[at..at + bytes.len()].copy_from_slice(bytes);
}

/// Puts those bytes of a piece into a window that stand in it.
fn put_piece<A: Allocator>(piece: &Piece<A>, at: u64, buf: &mut [u8])
    ensures length { length buf.new ≡ length buf.old }
    ensures put { (y : List ℕ) → IsWindow buf.old at y → IsWindow buf.new at (place y piece.now.at piece.now.bytes) }
{
    let bytes = piece.bytes.as_slice();
    if at <= piece.at {
        let start = piece.at - at;
        if start < buf.len() as u64 {
            let start = start as usize;
            let count = bytes.len().min(buf.len() - start);
            overwrite(buf, start, &bytes[..count]);
        }
    } else {
        let start = at - piece.at;
        if start < bytes.len() as u64 {
            let start = start as usize;
            let count = buf.len().min(bytes.len() - start);
            overwrite(buf, 0, &bytes[start..start + count]);
        }
    }
}

/// Puts pieces into a window, in their order.
fn put_pieces<A: Allocator>(pieces: &[Piece<A>], at: u64, buf: &mut [u8])
    ensures length { length buf.new ≡ length buf.old }
    ensures put { (y : List ℕ) → IsWindow buf.old at y → IsWindow buf.new at (placed pieces.now y) }
{
    for piece in pieces {
        put_piece(piece, at, buf);
    }
}

/// Puts pieces in order into a window: those alone that reach into it.
fn put_reaching<A: Allocator>(pieces: &[Piece<A>], at: u64, buf: &mut [u8])
    requires ordered { AreByPlace pieces.now }
    ensures length { length buf.new ≡ length buf.old }
    ensures put { (y : List ℕ) → IsWindow buf.old at y → IsWindow buf.new at (placed pieces.now y) }
{
    let (begun, _) = pieces.split_at(count_begun(pieces, at, buf.len()));
    let (_, reaching) = begun.split_at(count_ended(begun, at));
    put_pieces(reaching, at, buf);
}

/// Puts the piece of a number into a window, unless it is in it; how many of the first pieces are in it then.
fn put_next<A: Allocator>(
    pieces: &[Piece<A>],
    i: usize,
    done: usize,
    at: u64,
    buf: &mut [u8],
) -> usize
    requires within { done ≤ length pieces.now }
    requires outside { (k : ℕ) (d : PieceOf A) → done ≤ k → k < i → k < length pieces.now
        → IsOutside at (length buf.old) (slice_index_or pieces.now k d) }
    ensures length { length buf.new ≡ length buf.old }
    ensures most { result ≤ length pieces.now }
    ensures more { done ≤ result }
    ensures behind { i < length pieces.now → i < result }
    ensures put { (x z : List ℕ) → IsWindow buf.old at z → placed (drop done pieces.now) z ≡ x
        → (y : List ℕ) × IsWindow buf.new at y × (placed (drop result pieces.now) y ≡ x) }
{
    if i < done {
        return done;
    }
    match pieces.get(i) {
        Some(piece) => {
            put_piece(piece, at, buf);
            i + 1
        }
        None => done,
    }
}

/// Which piece is named in a window whose names begin with a number.
fn number_at(names: &[u64], i: usize, first: u64) -> usize
    requires within { i < length names.now }
    requires least { first ≤ slice_index names.now i }
    ensures { result + first ≡ slice_index names.now i }
{
    (names[i] - first) as usize
}

/// Puts pieces into a window, in their order: those that are named, where each other one reaches into none of it.
fn put_named<A: Allocator>(pieces: &[Piece<A>], names: &[u64], first: u64, at: u64, buf: &mut [u8])
    requires least { All (λ k. first ≤ k) names.now }
    requires rise { IsNonDecreasing names.now }
    requires found { AreFoundFor names.now first pieces.now at (length buf.old) }
    ensures length { length buf.new ≡ length buf.old }
    ensures put { (y : List ℕ) → IsWindow buf.old at y → IsWindow buf.new at (placed pieces.now y) }
{
    let mut done = 0;
    for i in 0..names.len() {
        done = put_next(pieces, number_at(names, i, first), done, at, buf);
    }
}

/// Puts pieces into a window that is a part of one of an index of them.
fn put_found<A: Allocator>(pieces: &[Piece<A>], keys: &[u64], at: u64, buf: &mut [u8])
    requires index { IsIndexOf keys.now pieces.now }
    requires small { at ≤ 2 ^ 48 }
    requires within { at % 32768 + length buf.old ≤ 32768 }
    ensures length { length buf.new ≡ length buf.old }
    ensures put { (y : List ℕ) → IsWindow buf.old at y → IsWindow buf.new at (placed pieces.now y) }
{
    let first = at / SPAN * MOST;
    put_named(pieces, found_in(keys, first), first, at, buf);
}

/// Puts pieces into a window, by an index where there is one.
fn put_any<A: Allocator>(pieces: &[Piece<A>], keys: &[u64], indexed: bool, at: u64, buf: &mut [u8])
    requires index { IsTrue indexed → IsIndexOf keys.now pieces.now }
    ensures length { length buf.new ≡ length buf.old }
    ensures put { (y : List ℕ) → IsWindow buf.old at y → IsWindow buf.new at (placed pieces.now y) }
{
    if may_search(indexed, at, buf.len()) {
        put_found(pieces, keys, at, buf);
    } else {
        put_pieces(pieces, at, buf);
    }
}

/// Makes a change in a window.
fn put_change<A: Allocator>(change: &Change<A>, known: &Untouched<'_, A>, at: u64, buf: &mut [u8])
    requires ordered { IsTrue known.now.ordered → AreByPlace change.now.writes }
    requires index { IsTrue known.now.indexed → IsIndexOf known.now.index.now change.now.writes }
    ensures length { length buf.new ≡ length buf.old }
    ensures put { (y : List ℕ) → IsWindow buf.old at y → IsWindow buf.new at (effect change.now y) }
{
    cut_window(change.base, at, buf);
    let pieces = change.writes.as_slice();
    if known.ordered {
        put_reaching(pieces, at, buf);
    } else {
        put_any(pieces, known.index, known.indexed, at, buf);
    }
}

/// Makes changes in a window, in their order.
pub fn put_changes<A: Allocator>(known: &Untouched<'_, A>, at: u64, buf: &mut [u8])
    ensures length { length buf.new ≡ length buf.old }
    ensures put { (y : List ℕ) → IsWindow buf.old at y → IsWindow buf.new at (effects known.now.changes.now y) }
{
    for change in known.changes {
        put_change(change, known, at, buf);
    }
}
