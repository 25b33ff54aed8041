//! A text with a label in front of each of its lines.
ghost use Rattle.std.specs.Prelude.{◌≡◌, ◌++◌, IfOk, OnOk};
ghost use Rattle.bx_cli_commands.specs.jobs.Labels.{labelled, line_begins};

use std::alloc::{AllocError, Allocator};

/// Appends a text with a label in front of each line that begins in it, and answers whether one begins behind it; `begins` is
/// whether one begins with its first byte.
pub fn push_labelled<A: Allocator>(
    out: &mut Vec<u8, A>,
    label: &[u8],
    begins: bool,
    text: &[u8],
) -> Result<bool, AllocError>
    ensures text { OnOk result (out.new.items ≡ out.old.items ++ labelled label.now begins text.now) }
    ensures behind { IfOk result (λ next. next ≡ line_begins begins text.now) }
{
    let mut next = begins;
    for byte in text {
        if next {
            out.extend_from_slice(label)?;
        }
        out.push(*byte)?;
        next = *byte == b'\n';
    }
    Ok(next)
}
