//! Calls of any device that look first whether they may be made. So a test carries no facts about its device.
use crate::shared::{Step, are_told, step_of};
use bx_image::{Change, Device};
use bx_text::{Bytes, Piece, Pieces};
use std::alloc::{AllocError, Global};
use std::process::Abort;

/// A change of these writes.
pub fn change(
    alloc: Global,
    base: Option<u64>,
    writes: &[(u64, &[u8])],
) -> Result<Change, AllocError> {
    let mut pieces = Vec::new(alloc);
    for (at, bytes) in writes {
        let bytes = Bytes::from_vec(bytes.to_vec(alloc)?);
        pieces.push(Piece { at: *at, bytes })?;
    }
    let writes = Pieces::from_vec(pieces);
    Ok(Change { base, writes })
}

/// Writes within the room that there is.
fn writes<D: Device>(rt: &impl Abort, device: &mut D, at: u64, bytes: &[u8]) -> bool {
    assert!(rt; device.faults() < u64::MAX);
    let room = device.reserved();
    let len = bytes.len() as u64;
    assert!(rt; at <= room && len <= room - at);
    device.write_at(at, bytes).is_ok()
}

/// Sets a length within the room that there is.
fn cuts<D: Device>(rt: &impl Abort, device: &mut D, n: u64) -> bool {
    assert!(rt; device.faults() < u64::MAX);
    assert!(rt; n <= device.reserved());
    device.set_len(n).is_ok()
}

/// Puts what was written on the disk.
fn syncs<D: Device>(rt: &impl Abort, device: &mut D) -> bool {
    assert!(rt; device.faults() < u64::MAX);
    device.sync().is_ok()
}

fn has_len<D: Device>(rt: &impl Abort, device: &mut D, wanted: u64) -> bool {
    assert!(rt; device.faults() < u64::MAX);
    device.len() == Ok(wanted)
}

/// Reads at most 16 bytes, which lie within the image.
fn reads<D: Device>(rt: &impl Abort, device: &mut D, at: u64, wanted: &str) -> bool {
    assert!(rt; device.faults() < u64::MAX);
    let Ok(len) = device.len() else {
        return false;
    };
    let count = wanted.len();
    assert!(rt; count <= 16 && at <= len && count as u64 <= len - at);
    let mut bytes = [0; 16];
    device.read_at(at, &mut bytes[..count]).is_ok() && are_told(&bytes[..count], wanted)
}

/// Makes a call, or looks. Whether it succeeds.
fn succeeds<D: Device>(rt: &impl Abort, device: &mut D, step: Step<'_>) -> bool {
    match step.word {
        "reserve" => device.reserve(step.number).is_ok(),
        "write" => writes(rt, device, step.number, step.text.as_bytes()),
        "cut" => cuts(rt, device, step.number),
        "sync" => syncs(rt, device),
        "len" => has_len(rt, device, step.number),
        "read" => reads(rt, device, step.number, step.text),
        _ => device.faults() == step.number,
    }
}

/// Plays a script: on each line a call, `reserve N`, `write N TEXT`, `cut N`, `sync`, or what is looked at, `len N`,
/// `read N TEXT` (the length too), `faults N`. A `!` in front says that the call fails.
pub fn play<D: Device>(rt: &impl Abort, device: &mut D, script: &str) {
    for line in script.lines() {
        let step = step_of(line);
        let right = succeeds(rt, device, step) != step.fails;
        assert!(rt; right, "{line}");
    }
}
