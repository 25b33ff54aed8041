//! The line that tells both lengths, as a patch has it.
ghost use Rattle.std.specs.Prelude.{◌≡◌, ◌++◌, Some, OnOk, string_bytes};
ghost use Rattle.bx_journal_read.specs.show.ShownSteps.{length_told, patch_length, shows_patch};

use crate::show::way::Steps;
use bx_journal_format::Mark;
use std::alloc::{AllocError, Allocator};
use std::fmt::Write as _;

/// Whether steps are shown as a patch.
fn is_patch(steps: Steps) -> bool
    ensures { result ≡ shows_patch steps }
{
    match steps.compares {
        true => steps.count == 1,
        false => false,
    }
}

/// Adds the line that tells both lengths, where they differ.
fn push_lengths<A: Allocator>(text: &mut String<A>, after: u64, len: u64) -> Result<(), AllocError>
    ensures { OnOk result (string_bytes text.new ≡ string_bytes text.old ++ patch_length (Some after) len) }
{
    if after == len {
        return Ok(());
    }
    write!(text, "length {} to {}\n", after, len)
}

/// Adds the line that tells both lengths, where the entry tells them.
fn push_known<A: Allocator>(text: &mut String<A>, mark: Mark) -> Result<(), AllocError>
    ensures { OnOk result (string_bytes text.new ≡ string_bytes text.old ++ patch_length mark.after mark.len) }
{
    match mark.after {
        Some(after) => push_lengths(text, after, mark.len),
        None => Ok(()),
    }
}

/// Adds the line that tells both lengths where a step is shown as a patch, and changes the length.
pub fn push_told_length<A: Allocator>(
    text: &mut String<A>,
    steps: Steps,
    mark: Mark,
) -> Result<(), AllocError>
    ensures { OnOk result (string_bytes text.new ≡ string_bytes text.old ++ length_told steps mark.after mark.len) }
{
    if is_patch(steps) {
        return push_known(text, mark);
    }
    Ok(())
}
