//! The runs that saved lines give, as ranges in decimal: no byte of them is kept.
ghost use Rattle.std.specs.Prelude.{◌≡◌, ◌+◌, ◌<◌, ◌≤◌, ◌^◌, ◌∷◌, ◌==◌, [], string_bytes, IfOk, OnOk};
ghost use Rattle.bx_journal_format.specs.Ranges.{AreRanged, EndsRanges, IsRangedIn, PutsRange, RangesOn};

use crate::format::line::saved_in;
use crate::format::newline::line_end;
use bx_text::NoMemory;
use std::alloc::Allocator;
use std::fmt::Write;

/// The last run so far: where it begins, and how many bytes it has. Whether a range stands before it.
#[derive(Clone, Copy)]
pub struct Ranging {
    pub at: u64,
    pub count: u64,
    pub is_behind: bool,
}

/// Where the whole lines of a window lead, and how many bytes they have.
#[derive(Clone, Copy)]
pub struct RangedLines {
    pub ranging: Ranging,
    pub taken: usize,
}

/// No run yet.
pub fn nothing_ranged() -> Ranging
    ensures ranged { AreRanged [] result [] }
    ensures within { result.at + result.count ≡ 0 }
{
    Ranging {
        at: 0,
        count: 0,
        is_behind: false,
    }
}

/// Adds the range of the last run, where it has a byte.
fn push_range<A: Allocator>(text: &mut String<A>, run: Ranging) -> Result<bool, NoMemory>
    requires { run.at + run.count < 2 ^ 64 }
    ensures { IfOk result (PutsRange run (string_bytes text.old) (string_bytes text.new)) }
{
    if run.count == 0 {
        return Ok(run.is_behind);
    }
    let last = run.at + (run.count - 1);
    if run.is_behind {
        write!(text, ",{}-{}", run.at, last).map_err(|_| NoMemory)?;
    } else {
        write!(text, "{}-{}", run.at, last).map_err(|_| NoMemory)?;
    }
    Ok(true)
}

/// Whether what a line gives at an address goes on with the last run.
#[inline]
fn goes_on(now: Ranging, at: u64) -> bool
    ensures { result ≡ (at == now.at + now.count) }
{
    at >= now.at && at - now.at == now.count
}

/// The ranging after one more line of an entry that begins with this length. A line that isn't a saved one adds nothing.
fn range_one<A: Allocator>(
    text: &mut String<A>,
    now: Ranging,
    len: u64,
    line: &[u8],
) -> Result<Ranging, NoMemory>
    requires { now.at + now.count ≤ len }
    ensures within { IfOk result (λ next. next.at + next.count ≤ len) }
    ensures added { IfOk result (RangesOn len (line.now ∷ []) now (string_bytes text.old) (string_bytes text.new)) }
{
    let Some(read) = saved_in(len, line) else {
        return Ok(now);
    };
    let bytes = &read.bytes[..read.count];
    let count = bytes.len() as u64;
    if goes_on(now, read.at) {
        return Ok(Ranging {
            at: now.at,
            count: now.count + count,
            is_behind: now.is_behind,
        });
    }
    let is_behind = push_range(text, now)?;
    Ok(Ranging {
        at: read.at,
        count,
        is_behind,
    })
}

/// Adds the ranges that the whole lines at the start of a window end.
pub fn range_lines<A: Allocator>(
    text: &mut String<A>,
    from: Ranging,
    len: u64,
    window: &[u8],
) -> Result<RangedLines, NoMemory>
    requires { from.at + from.count ≤ len }
    ensures within { IfOk result (λ l. l.ranging.at + l.ranging.count ≤ len) }
    ensures added { IfOk result (IsRangedIn window.now len from (string_bytes text.old) (string_bytes text.new)) }
{
    let mut ranging = from;
    let mut taken: usize = 0;
    let mut rest = window;
    while let Some(i) = line_end(rest) {
        ranging = range_one(text, ranging, len, &rest[..i])?;
        let (_, behind) = rest.split_at(i + 1);
        rest = behind;
        taken += i + 1;
    }
    Ok(RangedLines { ranging, taken })
}

/// Adds the range of the last run.
pub fn range_last<A: Allocator>(text: &mut String<A>, now: Ranging) -> Result<(), NoMemory>
    requires { now.at + now.count < 2 ^ 64 }
    ensures { OnOk result (EndsRanges now (string_bytes text.old) (string_bytes text.new)) }
{
    push_range(text, now)?;
    Ok(())
}
