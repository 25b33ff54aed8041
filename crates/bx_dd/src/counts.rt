//! What was made of an input.
ghost use Rattle.std.specs.Prelude.{◌≡◌, ◌++◌, IfOk, OnOk, IsOkUnless, string_bytes};
ghost use Rattle.bx_dd.specs.Counting.{report_text};
ghost use Rattle.bx_dd.specs.private.Counting.{cut_text};

use crate::fault::DdFault;
use bx_text::Bytes;
use std::alloc::{AllocError, Allocator, Global};
use std::fmt::Write;

/// Blocks and records that were read, written and cut, as dd reports them.
#[derive(Clone, Copy, Debug, PartialEq, Eq)]
pub struct Counts {
    /// Whole input blocks.
    pub whole_in: u64,
    /// 1 where the last input block was short, else 0.
    pub part_in: u64,
    /// Whole output blocks.
    pub whole_out: u64,
    /// 1 where the last output block is short, else 0.
    pub part_out: u64,
    /// Records that were longer than `cbs`.
    pub cut: u64,
}

/// The output, and its counts.
#[derive(Drop)]
pub struct Transfer<A: Allocator = Global> {
    pub bytes: Bytes<A>,
    pub counts: Counts,
}

/// dd's report on standard error: a line of blocks in, a line of blocks out, and one of records that were cut, if there are
/// any. The one fault is want of memory.
pub fn report<A: Allocator>(alloc: A, counts: &Counts) -> Result<Vec<u8, A>, DdFault>
    ensures text { IfOk result (λ v. v.items ≡ report_text counts.now) }
    ensures fault { IsOkUnless result DdFault.NoMemory }
{
    let mut text = String::new(alloc);
    let counts = *counts;
    write!(
        text,
        "{}+{} records in\n{}+{} records out\n",
        counts.whole_in, counts.part_in, counts.whole_out, counts.part_out
    )?;
    push_cut(&mut text, counts.cut)?;
    Ok(text.into_bytes())
}

/// How many records were cut, if any were.
fn push_cut<A: Allocator>(text: &mut String<A>, cut: u64) -> Result<(), AllocError>
    ensures { OnOk result (string_bytes text.new ≡ string_bytes text.old ++ cut_text cut) }
{
    match cut {
        0 => Ok(()),
        1 => text.push_str("1 truncated record\n"),
        n => write!(text, "{n} truncated records\n"),
    }
}
