//! Bytes of an image that are kept in a page: calls that ask for bytes near one another take one read.
ghost use Rattle.std.specs.Prelude.{◌≡◌, ◌+◌, ◌<◌, ◌≤◌, length, is_err, IfOk, IsTrue};
ghost use Rattle.bx_image.specs.Cached.{HasCached, IsCache, OnlyReadsImage};

use crate::{Device, DeviceFailed};

/// How long the image is, and which of its bytes the page has: `count` from an address on.
#[derive(Clone, Copy)]
pub struct Cached {
    pub len: u64,
    pub at: u64,
    pub count: usize,
}

/// Whether the page has these bytes.
fn has_bytes(cached: Cached, at: u64, count: usize) -> bool
    ensures { IsTrue result → HasCached cached at count }
{
    if at < cached.at {
        return false;
    }
    let from = at - cached.at;
    if cached.count as u64 <= from {
        return false;
    }
    count as u64 <= cached.count as u64 - from
}

/// Has these bytes of the image in the page: where it hasn't yet, they are read, and more behind them. The image is only read.
///
/// # Errors
/// `DeviceFailed` where the device fails. What the page has then isn't said.
pub fn keep_cached<D: Device>(
    device: &mut D,
    cached: Cached,
    page: &mut [u8],
    at: u64,
    count: usize,
) -> Result<Cached, DeviceFailed>
    requires countable { D.failures device.old < u64.MAX }
    requires cache { IsCache (D.faithful device.old) (D.image device.old) page.old cached }
    requires few { count ≤ length page.old }
    requires there { at + count ≤ cached.len }
    ensures cache { IfOk result (IsCache (D.faithful device.old) (D.image device.old) page.new) }
    ensures has { IfOk result (λ now. HasCached now at count) }
    ensures len { IfOk result (λ now. now.len ≡ cached.len) }
    ensures room { length page.new ≡ length page.old }
    ensures reads { OnlyReadsImage D.Device (is_err result) device.old device.new }
{
    if has_bytes(cached, at, count) {
        return Ok(cached);
    }
    let more = (page.len() as u64).min(cached.len - at) as usize;
    let (part, _) = page.split_at_mut(more);
    device.read_at(at, part)?;
    Ok(Cached {
        len: cached.len,
        at,
        count: more,
    })
}
