//! What a change will cost, where that is much.
use crate::text::quoted::quoted;
use bx_cli_commands::Target;
use bx_dd::Plan;
use bx_patch::Patch;

/// The bytes of a journal from which on they are said before a change begins.
const MUCH: u64 = 1 << 30;

/// About how many bytes a journal keeps for each 16 that are overwritten or cut off.
const LINE: u64 = 68;

/// Says how much a journal will keep for bytes that are overwritten or cut off, where that is much.
pub fn tell_of_cost<R: Eprint + AllocGlobal>(rt: &R, target: &Target, saved: u64) {
    let kept = (saved / 16).saturating_mul(LINE);
    if kept < MUCH {
        return;
    }
    if let Ok(name) = quoted(rt.alloc(), target.image.as_str()) {
        let _ = eprintln!(rt;
            "hint: {name}: about {saved} bytes are overwritten or cut off, for which its journal keeps {kept}"
        );
    }
}

/// How many bytes of an image of this length dd overwrites or cuts off by an input of at most as many bytes as are left.
pub fn saved_by_dd(plan: &Plan, length: u64, left: Option<u64>) -> u64 {
    let behind = length.saturating_sub(plan.seek.saturating_mul(plan.obs));
    match left {
        Some(left) if plan.notrunc => behind.min(left),
        None if plan.notrunc => 0,
        Some(_) | None => behind,
    }
}

/// How many bytes of an image of this length a patch overwrites or cuts off.
pub fn saved_by_patch(patch: &Patch, length: u64) -> u64 {
    let mut saved = match patch.lengths {
        Some(lengths) => length.saturating_sub(lengths.new),
        None => 0,
    };
    for piece in patch.written.as_slice() {
        let count = piece.bytes.as_slice().len() as u64;
        saved = saved.saturating_add(count.min(length.saturating_sub(piece.at)));
    }
    saved
}
