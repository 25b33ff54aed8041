//! A line that isn't whole yet: what of its front can still matter, which is little however long it is.
ghost use Rattle.std.specs.Prelude.{◌≡◌, ◌≢◌, ◌⊎◌, ◌+◌, ◌<◌, ◌≤◌, ◌++◌, ◌∷◌, length, take, replicate, All, Err, IfOk, IfErr};
ghost use Rattle.bx_read.specs.Digits.{data_of};
ghost use Rattle.bx_read.specs.Line.{read_line};
ghost use Rattle.bx_read.specs.Window.{ReadsAlike};
ghost use Rattle.bx_read.specs.private.Unfinished.{is_too_wide, IsFaultOfFront, IsWideFront};

use crate::fault::ReadFault;
use crate::line::{Line, data_len};
use std::alloc::Allocator;

/// How much of a line's front is held as it is: more than an address, 256 pairs and two spaces have.
pub const MOST: usize = 1024;

/// Shortens a long front of a line to what can still matter. From two spaces on nothing is read. A front without them that is no
/// faulty line has more than 256 pairs, and then only what stands behind the last of them matters.
pub fn shorten<A: Allocator + Clone>(
    alloc: &A,
    front: &mut Vec<u8, A>,
    number: u64,
) -> Result<(), ReadFault>
    requires long { 1024 < length front.old.items }
    ensures stands { IfOk result (λ _. All (λ c. c ≢ 10) front.old.items → ReadsAlike front.old.items front.new.items) }
    ensures fault { IfErr result (λ e. (e ≡ ReadFault.NoMemory) ⊎ (All (λ c. c ≢ 10) front.old.items → IsFaultOfFront number front.old.items e)) }
    ensures few { IfOk result (λ _. length front.new.items ≤ 1024) }
{
    let text = front.as_slice();
    let end = data_len(text);
    if text.len() - end < 2 {
        let cut = match wide_len(text, end, number) {
            Ok(cut) => cut,
            Err(fault) => return Err(fault),
        };
        let short = match wide_front(alloc.clone()?, &text[cut..]) {
            Ok(short) => short,
            Err(fault) => return Err(fault),
        };
        *front = short;
        return Ok(());
    }
    if end + 2 > MOST {
        return Err(long_fault(text, number));
    }
    front.truncate(end + 2);
    Ok(())
}

/// How long the front is up to a pair with which it has more than 256, and behind which it has no other. Any other front without two
/// spaces is a faulty line, whatever follows.
fn wide_len(front: &[u8], end: usize, number: u64) -> Result<usize, ReadFault>
    requires ends { take end front.now ≡ data_of front.now }
    requires within { end ≤ length front.now }
    requires whole { length front.now ≤ end + 1 }
    requires long { 1024 < length front.now }
    ensures wide { IfOk result (λ cut. IsWideFront (take cut front.now)) }
    ensures within { IfOk result (λ cut. (cut ≤ length front.now) × (length front.now ≤ cut + 3)) }
    ensures fault { IfErr result (λ e. All (λ c. c ≢ 10) front.now → IsFaultOfFront number front.now e) }
{
    let fault = long_fault(&front[..end], number);
    if is_too_wide(&fault) {
        return Ok(end);
    }
    let cut = data_len(&front[..end - 1]);
    if is_too_wide(&long_fault(&front[..cut], number)) {
        return Ok(cut);
    }
    Err(fault)
}

/// The fault of a line that is too long for one without a fault.
fn long_fault(line: &[u8], number: u64) -> ReadFault
    requires long { 785 < length (data_of line.now) }
    ensures { read_line number line.now ≡ Err result }
{
    match Line::parse(line, number) {
        Ok(_) => ReadFault::TooWide { line: number },
        Err(fault) => fault,
    }
}

/// Whether the fault is that there are too many pairs.
fn is_too_wide(fault: &ReadFault) -> bool
    ensures { result ≡ is_too_wide fault.now }
{
    matches!(fault, ReadFault::TooWide { .. })
}

/// A line with one pair too many, and what stands behind it: any line with too many pairs reads as this one does.
fn wide_front<A: Allocator>(alloc: A, rest: &[u8]) -> Result<Vec<u8, A>, ReadFault>
    ensures text { IfOk result (λ v. v.items ≡ 48 ∷ 58 ∷ 32 ∷ (replicate 514 48 ++ rest.now)) }
    ensures fault { IfErr result (λ e. e ≡ ReadFault.NoMemory) }
{
    let mut front = Vec::with_capacity(alloc, 3 + 514 + rest.len())?;
    front.extend_from_slice(b"0: ")?;
    front.extend_from_slice(&[b'0'; 514])?;
    front.extend_from_slice(rest)?;
    Ok(front)
}
