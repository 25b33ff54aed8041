//! Blocks converted where they were read.
ghost use Rattle.std.specs.Prelude.{◌≡◌, ◌≢◌, ℕ, ◌+◌, ◌-◌, ◌%◌, ◌<◌, ◌≤◌, ◌++◌, length, take, drop, replicate, ◌||◌};
ghost use Rattle.bx_dd.specs.Output.{turned_blocks};
ghost use Rattle.bx_dd.specs.private.Standing.{HasSizes};
ghost use Rattle.bx_dd.specs.private.Streaming.{unit_of};

use crate::convert::block::{filler, turn_block};
use crate::form::Form;

/// How many bytes are converted by themselves: a block where its pairs or its end matter, else one.
pub fn unit_len(form: Form) -> usize
    requires { HasSizes form }
    ensures unit { result ≡ unit_of form }
    ensures some { 0 < result }
{
    if by_blocks(form) {
        return form.ibs as usize;
    }
    1
}

/// Whether pairs or the end of a block matter.
fn by_blocks(form: Form) -> bool
    ensures { result ≡ (form.swab || form.sync) }
{
    form.swab || form.sync
}

/// Whole units, converted.
pub fn turn_units(bytes: &mut [u8], form: Form)
    requires sizes { HasSizes form }
    requires whole { length bytes.old % unit_of form ≡ 0 }
    ensures { bytes.new ≡ turned_blocks form bytes.old }
{
    if by_blocks(form) {
        turn_blocks(bytes, form);
    } else {
        turn_block(bytes, form);
    }
}

/// Whole blocks, converted.
fn turn_blocks(bytes: &mut [u8], form: Form)
    requires sizes { HasSizes form }
    requires whole { length bytes.old % form.ibs ≡ 0 }
    ensures { bytes.new ≡ turned_blocks form bytes.old }
{
    let size = form.ibs as usize;
    let mut done = 0;
    while done < bytes.len() {
        turn_block(&mut bytes[done..done + size], form);
        done += size;
    }
}

/// The last bytes of an input, fewer than a unit, converted in front of a buffer. Answers how long they are then.
pub fn turn_last(buf: &mut [u8], have: usize, form: Form) -> usize
    requires sizes { HasSizes form }
    requires few { have < unit_of form }
    requires room { unit_of form ≤ length buf.old }
    ensures most { (result ≤ length buf.new) × (result ≤ form.ibs) }
    ensures bytes { take result buf.new ≡ turned_blocks form (take have buf.old) }
{
    if have == 0 {
        return 0;
    }
    let mut n = have;
    if form.sync {
        n = form.ibs as usize;
        fill_up(buf, have, n, filler(form.shape));
    }
    turn_block(&mut buf[..n], form);
    n
}

/// Fills a buffer up from here to there.
fn fill_up(buf: &mut [u8], from: usize, to: usize, fill: u8)
    requires { (from ≤ to) × (to ≤ length buf.old) }
    ensures { take to buf.new ≡ take from buf.old ++ replicate (to - from) fill }
{
    for i in from..to {
        buf[i] = fill;
    }
}

/// Moves bytes to the front of a buffer.
pub fn move_front(buf: &mut [u8], from: usize, count: usize)
    requires fits { from ≢ 0 → count ≤ from }
    requires inside { from + count ≤ length buf.old }
    ensures { take count buf.new ≡ take count (drop from buf.old) }
{
    if from == 0 {
        return;
    }
    let (front, back) = buf.split_at_mut(from);
    front[..count].copy_from_slice(&back[..count]);
}
