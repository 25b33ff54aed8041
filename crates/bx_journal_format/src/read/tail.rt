//! What may stand behind the last newline.
ghost use Rattle.std.specs.Prelude.{◌≡◌, ◌↔◌, ◌<◌, ◌≤◌, List, ℕ, suc, length, IsTrue, ◌^◌};
ghost use Rattle.bx_journal_format.specs.count.Front.{IsNumberFront, IsStartFront};
ghost use Rattle.bx_journal_format.specs.Line.{address_width, start_line as start_words};
ghost use Rattle.bx_journal_format.specs.Text.{Between as Resting, Saving as Keeping, Ending as Closing, Entry, IsPrefix, IsRest, Reading, is_short as short};
ghost use Rattle.bx_journal_format.specs.Parsed.{told_by, stage_of};
ghost use Rattle.bx_journal_format.specs.count.Tally.{tally_of};
ghost use Rattle.bx_journal_format.specs.declared.format.version.Version.{Version as Form};
ghost use Rattle.bx_journal_format.specs.Kept.{Kept as Record};

use crate::format::version::width_of;
use crate::format::words::{end_head, number, push_number, save_text, start_head};
use crate::read::classify::MOST_CHANGES;
use crate::read::count::{Place, Tally};
use crate::{StageRead, Version};
use bx_image::MAX_LEN;
use std::alloc::Allocator;

const MOST_SHORT: usize = 75;

fn is_front(front: &[u8], line: &[u8]) -> bool
    ensures { IsTrue result ↔ IsPrefix front.now line.now }
{
    if front.len() > line.len() {
        return false;
    }
    &line[..front.len()] == front
}

/// Whether the text is a front of the head with a length in `width` digits.
fn is_number_front(head: &[u8], width: usize, rest: &[u8]) -> bool
    requires { width ≤ 16 }
    ensures { IsTrue result ↔ IsNumberFront head.now width rest.now }
{
    if rest.len() <= head.len() {
        return is_front(rest, head);
    }
    let (front, digits) = rest.split_at(head.len());
    if front != head || digits.len() > width {
        return false;
    }
    match number(digits) {
        Some(n) => n <= MAX_LEN >> (4 * (width - digits.len())),
        None => false,
    }
}

fn is_short(text: &[u8]) -> bool
    ensures { result ≡ short text.now }
{
    if text.len() > MOST_SHORT {
        return false;
    }
    for b in text {
        if *b < 32 || *b > 126 {
            return false;
        }
    }
    true
}

/// Whether the text is a front of the line that begins an entry with this length.
#[tactic(auto, unfolding(crate::specs::Line::start_line))]
fn is_told_front(version: Version, number: u32, len: u64, rest: &[u8]) -> bool
    requires most { len ≤ MAX_LEN }
    requires fits { len < 16 ^ address_width version }
    ensures { IsTrue result ↔ IsPrefix rest.now (start_words version number len) }
{
    let mut line = start_head(version, number);
    push_number(&mut line, width_of(version) as u8, len);
    is_front(rest, line.as_bytes())
}

fn is_start_front(version: Version, number: u32, told: Option<u64>, rest: &[u8]) -> bool
    ensures { (es : List Entry) → suc (length es) ≡ number → told ≡ told_by es → IsTrue result ↔ IsStartFront es version rest.now }
{
    let width = width_of(version);
    match told {
        None => is_number_front(start_head(version, number).as_bytes(), width, rest),
        Some(after) => {
            if after > MAX_LEN || (width == 8 && after >= 1 << 32) {
                return false;
            }
            is_told_front(version, number, after, rest)
        }
    }
}

fn rest_between(number: u32, told: Option<u64>, rest: &[u8]) -> bool
    ensures { (es : List Entry) → suc (length es) ≡ number → told ≡ told_by es → IsTrue result ↔ IsRest es Resting rest.now }
{
    if rest.is_empty() {
        return true;
    }
    if number > MOST_CHANGES {
        return false;
    }
    if is_start_front(Version::First, number, told, rest) {
        return true;
    }
    is_start_front(Version::Second, number, told, rest)
}

fn rest_saving(number: u32, rest: &[u8]) -> bool
    ensures { (es : List Entry) (v : Form) (s : Record) → suc (length es) ≡ number → IsTrue result ↔ IsRest es (Keeping v s) rest.now }
{
    if !rest.is_empty() && rest[0] == b's' {
        is_front(rest, save_text(number).as_bytes())
    } else {
        is_short(rest)
    }
}

fn rest_ending(number: u32, version: Version, rest: &[u8]) -> bool
    ensures { (es : List Entry) (s : Record) → suc (length es) ≡ number → IsTrue result ↔ IsRest es (Closing version s) rest.now }
{
    let head = end_head(version, number);
    match version {
        Version::First => is_front(rest, head.as_bytes()),
        Version::Second => is_number_front(head.as_bytes(), 16, rest),
    }
}

/// Whether what follows the last newline may stand there.
pub fn rest_fits<A: Allocator>(
    number: u32,
    told: Option<u64>,
    stage: &StageRead<A>,
    rest: &[u8],
) -> bool
    ensures { (es : List Entry) → suc (length es) ≡ number → told ≡ told_by es → IsTrue result ↔ IsRest es (stage_of stage.now) rest.now }
{
    match stage {
        StageRead::Between => rest_between(number, told, rest),
        StageRead::Saving { .. } => rest_saving(number, rest),
        StageRead::Ending { version, .. } => rest_ending(number, *version, rest),
    }
}

/// Whether what follows the last newline may stand there, in a text whose lines lead to this tally.
pub fn rest_may_follow(tally: Tally, rest: &[u8]) -> bool
    requires { tally.count ≤ 65535 }
    ensures { (r : Reading) → tally_of r ≡ tally → IsTrue result ↔ IsRest r.entries r.stage rest.now }
{
    let number = tally.count + 1;
    match tally.place {
        Place::Between => rest_between(number, tally.told, rest),
        Place::Saving { .. } => rest_saving(number, rest),
        Place::Ending { version } => rest_ending(number, version, rest),
    }
}
