//! How much of a piece an image has.
ghost use Rattle.std.specs.Prelude.{◌≡◌, ◌+◌, ◌<◌, ◌≤◌, ◌^◌, ℕ, min, true, false, length, IfOk, is_err};
ghost use Rattle.bx_image.specs.Cached.{IsCache};
ghost use Rattle.bx_patch.specs.Diff.{OnlyReads};
ghost use Rattle.bx_patch.specs.Other.{HasFirstBytes, has_other};
ghost use Rattle.bx_patch.specs.Text.{differs};

use crate::diff::row::is_other;
use bx_image::{Cached, Device, DeviceFailed, keep_cached};

/// The count of bytes of the image that are read at a time.
pub const PAGE: usize = 4096;

/// What is kept of the image, and how many bytes of a piece it has, up to the first one that it hasn't.
#[derive(Clone, Copy)]
pub struct Looked {
    pub cached: Cached,
    pub same: usize,
}

/// At how many first places two have the same bytes.
fn count_same(there: &[u8], bytes: &[u8]) -> usize
    ensures most { result ≤ min (length there.now) (length bytes.now) }
    ensures same { (j : ℕ) → j < result → differs there.now bytes.now j ≡ false }
    ensures other { result < min (length there.now) (length bytes.now) → differs there.now bytes.now result ≡ true }
{
    let most = there.len().min(bytes.len());
    let mut at: usize = 0;
    while at < most && !is_other(there, bytes, at) {
        at += 1;
    }
    at
}

/// How many bytes of a piece an image has, as far as a page reaches. None where it hasn't the first one.
fn count_in_page<D: Device>(
    device: &mut D,
    cached: Cached,
    page: &mut [u8],
    at: u64,
    bytes: &[u8],
) -> Result<Looked, DeviceFailed>
    requires countable { D.failures device.old < u64.MAX }
    requires cache { IsCache (D.faithful device.old) (D.image device.old) page.old cached }
    requires room { length page.old ≡ 4096 }
    ensures most { IfOk result (λ looked. looked.same ≤ length bytes.now) }
    ensures has { D.faithful device.old → IfOk result (λ looked. HasFirstBytes (D.image device.old) (at, bytes.now) looked.same) }
    ensures other { D.faithful device.old
        → IfOk result (λ looked. looked.same ≡ 0 → 0 < length bytes.now → has_other (D.image device.old) (at, bytes.now) 0 ≡ true) }
    ensures below { IfOk result (λ looked. at + looked.same < 2 ^ 64) }
    ensures cache { IfOk result (λ looked. IsCache (D.faithful device.old) (D.image device.old) page.new looked.cached) }
    ensures room { length page.new ≡ length page.old }
    ensures reads { OnlyReads D.faithful D.image D.room D.failures D.survives (is_err result) device.old device.new }
{
    if cached.len <= at {
        return Ok(Looked { cached, same: 0 });
    }
    let most = (PAGE.min(bytes.len()) as u64).min(cached.len - at) as usize;
    match keep_cached(device, cached, page, at, most) {
        Ok(kept) => {
            let from = (at - kept.at) as usize;
            let same = count_same(&page[from..from + most], bytes);
            Ok(Looked { cached: kept, same })
        }
        Err(fault) => Err(fault),
    }
}

/// How many bytes of a piece an image has, up to the first one that it hasn't.
pub fn count_in_piece<D: Device>(
    device: &mut D,
    cached: Cached,
    page: &mut [u8],
    at: u64,
    bytes: &[u8],
) -> Result<Looked, DeviceFailed>
    requires countable { D.failures device.old < u64.MAX }
    requires cache { IsCache (D.faithful device.old) (D.image device.old) page.old cached }
    requires room { length page.old ≡ 4096 }
    ensures most { IfOk result (λ looked. looked.same ≤ length bytes.now) }
    ensures has { D.faithful device.old → IfOk result (λ looked. HasFirstBytes (D.image device.old) (at, bytes.now) looked.same) }
    ensures other { D.faithful device.old
        → IfOk result (λ looked. looked.same < length bytes.now → has_other (D.image device.old) (at, bytes.now) looked.same ≡ true) }
    ensures below { IfOk result (λ looked. at + looked.same < 2 ^ 64) }
    ensures cache { IfOk result (λ looked. IsCache (D.faithful device.old) (D.image device.old) page.new looked.cached) }
    ensures room { length page.new ≡ length page.old }
    ensures reads { OnlyReads D.faithful D.image D.room D.failures D.survives (is_err result) device.old device.new }
{
    let mut kept = cached;
    let mut done: usize = 0;
    while done < bytes.len() {
        let (_, rest) = bytes.split_at(done);
        match count_in_page(device, kept, page, at + done as u64, rest) {
            Ok(looked) => {
                kept = looked.cached;
                if looked.same == 0 {
                    return Ok(Looked {
                        cached: kept,
                        same: done,
                    });
                }
                done += looked.same;
            }
            Err(fault) => return Err(fault),
        }
    }
    Ok(Looked {
        cached: kept,
        same: done,
    })
}
