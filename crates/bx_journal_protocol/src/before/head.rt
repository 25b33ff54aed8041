//! The head of a change's entry, begun before the first write: its first page is made, and the others are read from the image.
ghost use Rattle.std.specs.Prelude.{◌≡◌, ◌+◌, ◌-◌, ◌^◌, ◌<◌, ◌≤◌, length, min, IfOk, IfErr};
ghost use Rattle.bx_image.specs.Power.{NoMore};
ghost use Rattle.bx_journal_protocol.specs.write.Begun.{rest_of, BeginsEntry, IsOpenHead};
ghost use Rattle.bx_journal_model.specs.Looking.{LooksAt};
ghost use Rattle.bx_journal_model.specs.Fault.{LacksOrFails};
ghost use Rattle.bx_journal_protocol.specs.write.Ranges.{left_len, AreRanges};

use crate::{Head, look_and_begin, ranges_len};
use bx_image::{Change, Device, MAX_LEN, Span, touched_by};
use bx_journal_format::new_page;
use bx_journal_model::SessionFault;
use std::alloc::{Allocator, Global};

/// The ranges that an entry keeps, its head that is begun, and the length of its text up to its save line, at most `u64::MAX`.
#[derive(Drop)]
pub struct Begun<A: Allocator = Global> {
    pub ranges: Vec<Span, A>,
    pub head: Head<A>,
    pub len: u64,
}

/// The most bytes of the image that are read at a time.
pub const WINDOW: u64 = 65_536;

/// The room that a page has beyond the head, in bytes. A page is filled as long as the longest line fits in what is free, so this
/// lets a short head stand in its first page whole: it is then read before the first write.
pub const SPARE: u64 = 82;

/// The length of the head of an entry that keeps these ranges, at most `u64::MAX`.
fn head_len_of(ranges: &[Span]) -> u64
    requires { AreRanges (2 ^ 62) ranges.now }
    ensures { result ≡ min (48 + left_len ranges.now 0) (2 ^ 64 - 1) }
{
    ranges_len(ranges).saturating_add(48)
}

/// Finds what a change overwrites in an image of `len` bytes, looks at it, and begins the head of the entry that keeps it. It
/// takes the memory of the ranges, of a page and of a window, and changes nothing.
pub fn begin_change<D: Device, A: Allocator + Clone>(
    alloc: &A,
    image: &mut D,
    change: &Change<A>,
    number: u32,
    len: u64,
) -> Result<Begun<A>, SessionFault>
    requires countable { D.failures image.old < u64.MAX }
    requires few { len ≤ MAX_LEN }
    requires long { D.faithful image.old → len ≡ length (D.image image.old) }
    ensures head { IfOk result (λ b. IsOpenHead b.ranges.items b.head) }
    ensures some { IfOk result (λ b. 0 < length b.head.page.items) }
    ensures begins { D.faithful image.old → IfOk result (λ b. BeginsEntry change.now (D.image image.old) b.ranges.items b.head) }
    ensures long { IfOk result (λ b. b.len ≡ min (rest_of b.ranges.items b.head) (2 ^ 64 - 1)) }
    ensures number { IfOk result (λ b. b.head.number ≡ number) }
    ensures fault { IfErr result LacksOrFails }
    ensures looks { LooksAt D.faithful D.image D.failures result image.old image.new }
    ensures survives { D.faithful image.old → NoMore (D.survives image.old) (D.survives image.new) }
{
    let ranges = touched_by(alloc.clone()?, change, len)?;
    let spans = ranges.as_slice();
    let total = head_len_of(spans);
    let mut page = new_page(alloc.clone()?, total.saturating_add(SPARE))?;
    let mut window = vec![in alloc.clone()?; 0u8; WINDOW.min(len).max(16) as usize]?;
    let part = window.as_mut_slice();
    let place = look_and_begin(image, &mut page, part, spans, number, len)?;
    let head = Head {
        number,
        place,
        page,
        window,
    };
    Ok(Begun {
        ranges,
        head,
        len: total,
    })
}
