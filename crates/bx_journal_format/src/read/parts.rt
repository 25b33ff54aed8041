//! Saved lines of a window, decoded in place: what they give goes from the window to the image, and takes no memory.
//!
//! `read` says what a caller who restores an image builds on (`GivesParts`): where a text stands among the saved lines of an entry
//! and the window follows it, the bytes that were taken lead on to the entry's runs with those of the parts. `some` says that
//! reading goes on (`TakesSome`): where a window begins with a whole saved line, some of it is taken. So nothing is taken only
//! where a window begins with a part of a line, or with a line that is no saved line, such as an entry's save line.
ghost use Rattle.std.specs.Prelude.{◌≡◌, ◌+◌, ◌^◌, ◌<◌, ◌≤◌, List, ℕ, All, length, vec_capacity, drop, IfSome, IfNone, IsTrue};
ghost use Rattle.bx_journal_format.specs.Kept.{Run, with_run};
ghost use Rattle.bx_journal_format.specs.count.Parts.{GivesParts, GivesStretch, LiesIn, TakesSome, part_run, with_parts};

use crate::format::line::saved_in;
use crate::format::newline::line_end;
use crate::read::lines::rest_at;
use crate::read::runs::full_lines::{ENDED, next_full};
use crate::read::runs::reuse_text::put_over;
use std::alloc::Allocator;

/// Where the bytes of some whole saved lines stand: `count` bytes for the image's address `at`, decoded in place at `from` of
/// the window.
#[derive(Clone, Copy)]
pub struct Part {
    pub at: u64,
    pub from: usize,
    pub count: usize,
}

/// Saved lines that go on with one another: their address, how many bytes they give, and how many bytes of text they are.
#[derive(Clone, Copy)]
pub struct Stretch {
    pub at: u64,
    pub count: usize,
    pub taken: usize,
}

/// Takes the saved line at a place of a window, and puts its bytes at another one before its end. It answers none where no
/// whole line is there, or one that is no saved line.
fn take_first(len: u64, used: usize, from: usize, window: &mut [u8]) -> Option<Stretch>
    requires order { used ≤ from }
    requires within { from ≤ length window.old }
    ensures gives { IfSome result (GivesStretch len used from window.old window.new) }
    ensures same { length window.new ≡ length window.old }
    ensures none { IfNone result (TakesSome len (drop from window.old) 1 0) }
    ensures kept { IfNone result (window.new ≡ window.old) }
{
    let i = line_end(rest_at(window, from))?;
    let (line, _) = rest_at(window, from).split_at(i);
    let read = saved_in(len, line)?;
    put_over(window, used, &read.bytes[..read.count]);
    Some(Stretch {
        at: read.at,
        count: read.count,
        taken: i + 1,
    })
}

/// Takes the full lines too that go on with lines at a place of a window, and puts their bytes behind those of the lines.
fn follow(len: u64, first: Stretch, used: usize, from: usize, window: &mut [u8]) -> Stretch
    requires order { used ≤ from }
    requires behind { used + first.count ≤ from + first.taken }
    requires within { from + first.taken ≤ length window.old }
    ensures { (old : List ℕ) → GivesStretch len used from old window.old first → GivesStretch len used from old window.new result }
{
    let mut now = first;
    while let Some(more) = next_full(len, now.at, now.count, &window[from + now.taken..]) {
        put_over(window, used + now.count, &more);
        now.count += 16;
        now.taken += ENDED;
    }
    now
}

/// Takes the saved line at a place of a window with the full lines that go on with it, and puts their bytes at another place
/// before. It answers none where no whole line is there, or one that is no saved line.
fn take_stretch(len: u64, used: usize, from: usize, window: &mut [u8]) -> Option<Stretch>
    requires order { used ≤ from }
    requires within { from ≤ length window.old }
    ensures gives { IfSome result (GivesStretch len used from window.old window.new) }
    ensures same { length window.new ≡ length window.old }
    ensures none { IfNone result (TakesSome len (drop from window.old) 1 0) }
    ensures kept { IfNone result (window.new ≡ window.old) }
{
    let first = take_first(len, used, from, window)?;
    Some(follow(len, first, used, from, window))
}

/// Whether a part goes on with another one, at its address and in the window.
fn goes_on(last: Part, more: Part) -> bool
    ensures { IsTrue result → (more.at ≡ last.at + last.count) × (more.from ≡ last.from + last.count) }
{
    more.at >= last.at
        && more.at - last.at == last.count as u64
        && more.from >= last.from
        && more.from - last.from == last.count
}

/// Puts a part behind the others. Where it goes on with the last one, at its address and in the window, that one is longer
/// instead.
fn put_part<A: Allocator>(parts: &mut Vec<Part, A>, more: Part)
    requires room { length parts.old.items < vec_capacity parts.old }
    requires countable { more.from + more.count < 2 ^ 63 }
    ensures runs { (window : List ℕ) (len : ℕ) (runs : List Run) → All (LiesIn (length window) len) parts.old.items
        → with_parts runs window parts.new.items ≡ with_run (with_parts runs window parts.old.items) (part_run window more) }
    ensures lie { (size len : ℕ) → All (LiesIn size len) parts.old.items → LiesIn size len more → All (LiesIn size len) parts.new.items }
    ensures few { length parts.new.items ≤ length parts.old.items + 1 }
    ensures room { vec_capacity parts.old ≤ vec_capacity parts.new }
{
    let Some(last) = parts.pop() else {
        let _ = parts.push(more);
        return;
    };
    if goes_on(last, more) {
        let _ = parts.push(Part {
            at: last.at,
            from: last.from,
            count: last.count + more.count,
        });
        return;
    }
    let _ = parts.push(last);
    let _ = parts.push(more);
}

/// What the whole saved lines of a window give, in an entry of an image of this length, in place of what `parts` has. The
/// answer is how many bytes of the window they are. The window's bytes are other ones afterwards.
///
/// It takes no memory: it reads lines while `parts` has capacity for one more part. One for each 53 bytes of the window is
/// enough for lines that `bx` wrote, since these have 53 bytes at least.
pub fn parts_in<A: Allocator>(len: u64, window: &mut [u8], parts: &mut Vec<Part, A>) -> usize
    ensures read { GivesParts len window.old window.new parts.new.items result }
    ensures some { TakesSome len window.old (vec_capacity parts.old) result }
    ensures room { vec_capacity parts.old ≤ vec_capacity parts.new }
{
    parts.clear();
    let mut taken = 0;
    let mut used = 0;
    while parts.len() < parts.capacity() {
        let Some(next) = take_stretch(len, used, taken, window) else {
            return taken;
        };
        put_part(
            parts,
            Part {
                at: next.at,
                from: used,
                count: next.count,
            },
        );
        used += next.count;
        taken += next.taken;
    }
    taken
}
