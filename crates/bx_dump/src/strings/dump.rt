//! The printable runs of an input.
pub(crate) mod chars;

ghost use Rattle.std.specs.Prelude.{◌≡◌, ℕ, ◌+◌, ◌-◌, ◌*◌, ◌^◌, ◌<◌, ◌≤◌, [], List, ◌++◌, length, take, codes, not, IfOk, IfErr};
ghost use Rattle.std.specs.List.{prefix_len};
ghost use Rattle.bx_dump.specs.private.Runs.{Keeps, Scans, StopsScan, known_text, waiting};
ghost use Rattle.bx_dump.specs.private.Scan.{scan_run, scan_text, end_of_run, AllPrint, EndsQuiet, IsQuiet};
ghost use Rattle.bx_dump_columns.specs.Places.{cost_of, place_text};
ghost use Rattle.bx_text.specs.Ascii.{is_printable};
ghost use Rattle.bx_dump.specs.Pages.{WritesAll, WritesFrontOf};
ghost use Rattle.bx_dump.specs.private.Chars.{bytes_dump};

use crate::driver::pages::BLOCK;
use crate::strings::options::StringsOptions;
use bx_dump_columns::od::options::Address;
use bx_dump_columns::strings::lanes::{four_in, printing_in};
use bx_dump_columns::strings::places::{put_at, put_place};
use bx_text::{IoFault, Meter, State, emit_after};
use std::io::{Read, Write};
use std::simd::prelude::*;

/// How many bytes of a run are kept at most.
const KEPT: usize = 4096;

/// How many bytes of text there is room for: 26 for each byte of a block, and a run that was kept.
const PAGE: usize = 430112;

/// The run that the bytes so far end in: its bytes while it is short, and that it is long enough from then on.
#[derive(Drop)]
struct Runs {
    least: usize,
    offsets: Address,
    count: usize,
    kept: [u8; KEPT],
}

/// How many bytes were taken, and how many of text were put.
#[derive(Clone, Copy)]
struct Step {
    taken: usize,
    used: usize,
}

/// How much was read, and how much text was written.
#[derive(Clone, Copy)]
struct Dumped {
    read: u64,
    written: u64,
}

fn prints(byte: u8) -> bool
    ensures { result ≡ is_printable byte }
{
    (0x20..=0x7e).contains(&byte)
}

/// How many bytes in front print, byte by byte.
fn printable_front(bytes: &[u8]) -> usize
    ensures value { result ≡ prefix_len is_printable bytes.now }
    ensures within { result ≤ length bytes.now }
{
    bytes.iter().take_while(|byte| prints(**byte)).count()
}

/// How many bytes in front print.
fn printable_len(bytes: &[u8]) -> usize
    ensures value { result ≡ prefix_len is_printable bytes.now }
    ensures within { result ≤ length bytes.now }
{
    let mut done = 0;
    while bytes.len() - done >= 16 {
        let more = printing_in(bytes, done);
        done += more;
        if more < 16 {
            return done;
        }
    }
    done + printable_front(&bytes[done..])
}

/// How many bytes in front don't print.
fn other_len(bytes: &[u8]) -> usize
    ensures value { result ≡ prefix_len (λ b. not (is_printable b)) bytes.now }
    ensures within { result ≤ length bytes.now }
{
    bytes.iter().take_while(|byte| !prints(**byte)).count()
}

/// How many bytes there are up to the last one that doesn't print.
fn last_other(bytes: &[u8]) -> usize
    ensures other { EndsQuiet (take result bytes.now) }
    ensures within { result ≤ length bytes.now }
{
    let mut end = bytes.len();
    while end > 0 && prints(bytes[end - 1]) {
        end -= 1;
    }
    end
}

/// How many bytes in front have no run that is long enough, and leave none. Whole windows of `least` bytes are skipped
/// from their last byte that doesn't print.
fn skippable_windows(bytes: &[u8], least: usize) -> usize
    requires { 0 < least }
    ensures quiet { IsQuiet least (take result bytes.now) }
    ensures within { result ≤ length bytes.now }
{
    let mut done = 0;
    while bytes.len() - done >= least {
        let more = last_other(&bytes[done..done + least]);
        if more == 0 {
            return done;
        }
        done += more;
    }
    done
}

/// The same up to the first four bytes that print.
fn skippable_fours(bytes: &[u8], least: usize) -> usize
    requires { 4 ≤ least }
    ensures quiet { IsQuiet least (take result bytes.now) }
    ensures within { result ≤ length bytes.now }
{
    let mut done = 0;
    while bytes.len() - done >= 35 {
        let more = four_in(bytes, done);
        done += more;
        if more < 32 {
            return done;
        }
    }
    last_other(&bytes[..done])
}

/// How many bytes in front are known to have no run that is long enough, and to leave none.
fn skippable_len(bytes: &[u8], least: usize) -> usize
    requires { 0 < least }
    ensures quiet { IsQuiet least (take result bytes.now) }
    ensures within { result ≤ length bytes.now }
{
    if bytes.len() >= 35 && least >= 4 && least <= 16 {
        return skippable_fours(bytes, least);
    }
    skippable_windows(bytes, least)
}

impl Runs {
    /// No run, before the first byte.
    fn new(o: &StringsOptions) -> Self
        ensures least { result.least ≡ o.now.least }
        ensures offsets { result.offsets ≡ o.now.offsets }
        ensures count { result.count ≡ 0 }
        ensures size { length result.kept ≡ 4096 }
    {
        Runs {
            least: o.least as usize,
            offsets: o.offsets,
            count: 0,
            kept: [0; KEPT],
        }
    }
}

/// Puts the place of a run, and what is kept of it.
fn put_front(page: &mut [u8], offsets: Address, at: u64, kept: &[u8]) -> usize
    requires { 24 + length kept.now ≤ length page.old }
    ensures text { take result page.new ≡ place_text offsets (at - length kept.now) ++ kept.now }
    ensures most { result ≤ 24 + length kept.now }
    ensures cost { result + 2 ≤ cost_of offsets + length kept.now }
{
    let front = put_place(page, offsets, at.saturating_sub(kept.len() as u64));
    put_at(page, front, kept);
    front + kept.len()
}

impl Runs {
    /// Puts what is known with more bytes of the run, which stand at `at`.
    fn grow(&mut self, page: &mut [u8], at: u64, more: &[u8]) -> usize
        requires printing { AllPrint more.now }
        requires few { self.old.least ≤ 4096 }
        requires size { length self.old.kept ≡ 4096 }
        requires within { self.old.count ≤ self.old.least }
        requires room { 24 + waiting self.old + length more.now ≤ length page.old }
        ensures text { (run : List ℕ) → Keeps self.old run → take result page.new ≡ known_text self.old at run more.now }
        ensures kept { (run : List ℕ) → Keeps self.old run → Keeps self.new (run ++ more.now) }
        ensures least { self.new.least ≡ self.old.least }
        ensures offsets { self.new.offsets ≡ self.old.offsets }
        ensures size { length self.new.kept ≡ 4096 }
        ensures within { self.new.count ≤ self.new.least }
        ensures cost { result + waiting self.new + 2 ≤ waiting self.old + length more.now + cost_of self.old.offsets }
    {
        if self.count == self.least {
            put_at(page, 0, more);
            return more.len();
        }
        if self.count + more.len() < self.least {
            put_at(&mut self.kept[..], self.count, more);
            self.count += more.len();
            return 0;
        }
        let used = put_front(page, self.offsets, at, &self.kept[..self.count]);
        put_at(page, used, more);
        self.count = self.least;
        used + more.len()
    }

    /// Puts what ends the run.
    fn end(&mut self, page: &mut [u8]) -> usize
        requires some { 0 < self.old.least }
        requires within { self.old.count ≤ self.old.least }
        requires room { 0 < length page.old }
        ensures text { (run : List ℕ) → Keeps self.old run → take result page.new ≡ end_of_run self.old.least run }
        ensures kept { Keeps self.new [] }
        ensures least { self.new.least ≡ self.old.least }
        ensures offsets { self.new.offsets ≡ self.old.offsets }
        ensures size { self.new.kept ≡ self.old.kept }
        ensures count { self.new.count ≡ 0 }
        ensures cost { result ≤ 1 }
    {
        let is_long = self.count == self.least;
        self.count = 0;
        if is_long {
            page[0] = b'\n';
            1
        } else {
            0
        }
    }
}

/// Puts bytes in front at a place of the page: 16 are copied, and as many as are asked for count.
#[inline(always)]
fn put_sixteen(page: &mut [u8], at: usize, bytes: &[u8], len: usize)
    requires few { len ≤ 16 }
    requires inside { 16 ≤ length bytes.now }
    requires room { at + 16 ≤ length page.old }
    ensures { take (at + len) page.new ≡ take at page.old ++ take len bytes.now }
{
    u8x16::from_slice(bytes).copy_to_slice(&mut page[at..at + 16]);
}

/// Puts the first `len` bytes at a place of the page.
#[inline(always)]
fn put_some(page: &mut [u8], at: usize, bytes: &[u8], len: usize)
    requires inside { len ≤ length bytes.now }
    requires room { at + len ≤ length page.old }
    ensures { take (at + len) page.new ≡ take at page.old ++ take len bytes.now }
{
    if len <= 16 && bytes.len() >= 16 && page.len() - at >= 16 {
        put_sixteen(page, at, bytes, len);
    } else {
        put_at(page, at, &bytes[..len]);
    }
}

/// Puts the first `len` bytes at a place of the page, and a newline.
#[inline(always)]
fn put_row(page: &mut [u8], at: usize, bytes: &[u8], len: usize)
    requires inside { len ≤ length bytes.now }
    requires room { at + len + 1 ≤ length page.old }
    ensures { take (at + len + 1) page.new ≡ take at page.old ++ (take len bytes.now ++ codes "\n") }
{
    put_some(page, at, bytes, len);
    page[at + len] = b'\n';
}

/// Puts the line of a run of `len` bytes, which stands at `at`, and answers how long it is.
#[inline(always)]
fn put_line(page: &mut [u8], offsets: Address, at: u64, bytes: &[u8], len: usize) -> usize
    requires inside { len ≤ length bytes.now }
    requires room { 25 + len ≤ length page.old }
    ensures most { result ≤ length page.old }
    ensures text { take result page.new ≡ place_text offsets at ++ (take len bytes.now ++ codes "\n") }
    ensures cost { result + 1 ≤ cost_of offsets + len }
{
    let front = put_place(page, offsets, at);
    put_row(page, front, bytes, len);
    front + len + 1
}

/// Skips what has no run that is long enough, and puts the line of the one behind it, where that ends in these bytes.
fn put_first(page: &mut [u8], least: usize, offsets: Address, at: u64, bytes: &[u8]) -> Step
    requires some { 0 < least }
    requires address { at + length bytes.now < 2 ^ 64 }
    requires room { 24 + length bytes.now ≤ length page.old }
    ensures taken { result.taken ≤ length bytes.now }
    ensures text { take result.used page.new ≡ scan_text least offsets at [] (take result.taken bytes.now) }
    ensures none { scan_run [] (take result.taken bytes.now) ≡ [] }
    ensures cost { result.used + 2 ≤ result.taken + cost_of offsets }
{
    let quiet = skippable_len(bytes, least);
    let rest = &bytes[quiet..];
    let run = printable_len(rest);
    if run == rest.len() {
        return Step {
            taken: quiet,
            used: 0,
        };
    }
    let taken = quiet + run + 1;
    if run < least {
        return Step { taken, used: 0 };
    }
    let used = put_line(page, offsets, at + quiet as u64, rest, run);
    Step { taken, used }
}

impl Runs {
    /// Puts what is known with the bytes in front: up to the end of the first run, or what is left of it.
    fn step(&mut self, page: &mut [u8], at: u64, bytes: &[u8]) -> Step
        requires least { 0 < self.old.least }
        requires few { self.old.least ≤ 4096 }
        requires size { length self.old.kept ≡ 4096 }
        requires within { self.old.count ≤ self.old.least }
        requires some { 0 < length bytes.now }
        requires address { at + length bytes.now < 2 ^ 64 }
        requires room { 24 + waiting self.old + length bytes.now ≤ length page.old }
        ensures some { 0 < result.taken }
        ensures taken { result.taken ≤ length bytes.now }
        ensures text { (run : List ℕ) → Keeps self.old run →
            take result.used page.new ≡ known_text self.old at run (take result.taken bytes.now) }
        ensures kept { (run : List ℕ) → Keeps self.old run →
            Keeps self.new (scan_run run (take result.taken bytes.now)) }
        ensures least { self.new.least ≡ self.old.least }
        ensures offsets { self.new.offsets ≡ self.old.offsets }
        ensures size { length self.new.kept ≡ 4096 }
        ensures within { self.new.count ≤ self.new.least }
        ensures cost { result.used + waiting self.new + 2 ≤ waiting self.old + result.taken + cost_of self.old.offsets }
    {
        if self.count == 0 {
            let first = put_first(page, self.least, self.offsets, at, bytes);
            if first.taken > 0 {
                return first;
            }
        }
        let run = printable_len(bytes);
        if run > 0 {
            let used = self.grow(page, at, &bytes[..run]);
            return Step { taken: run, used };
        }
        let taken = other_len(bytes);
        let used = self.end(page);
        Step { taken, used }
    }
}

impl Runs {
    /// Puts what is known with more bytes, which stand from `at` on.
    fn put(&mut self, page: &mut [u8], at: u64, bytes: &[u8]) -> usize
        requires least { 0 < self.old.least }
        requires few { self.old.least ≤ 4096 }
        requires size { length self.old.kept ≡ 4096 }
        requires within { self.old.count ≤ self.old.least }
        requires address { at + length bytes.now < 2 ^ 64 }
        requires room { 4096 + 32 + cost_of self.old.offsets * length bytes.now ≤ length page.old }
        ensures text { (run : List ℕ) → Keeps self.old run → take result page.new ≡ known_text self.old at run bytes.now }
        ensures kept { (run : List ℕ) → Keeps self.old run → Keeps self.new (scan_run run bytes.now) }
        ensures least { self.new.least ≡ self.old.least }
        ensures offsets { self.new.offsets ≡ self.old.offsets }
        ensures size { length self.new.kept ≡ 4096 }
        ensures within { self.new.count ≤ self.new.least }
        ensures most { result ≤ length page.old }
    {
        let mut used = 0;
        let mut done = 0;
        while done < bytes.len() {
            let step = self.step(&mut page[used..], at + done as u64, &bytes[done..]);
            used += step.used;
            done += step.taken;
        }
        used
    }
}

/// Writes what is known of all that the reader gives.
fn scan_pages<R: Read, W: Write>(
    r: &mut R,
    w: &mut W,
    runs: &mut Runs,
    block: &mut [u8],
    page: &mut [u8],
) -> Result<Dumped, IoFault>
    requires least { 0 < runs.old.least }
    requires few { runs.old.least ≤ 4096 }
    requires size { length runs.old.kept ≡ 4096 }
    requires fresh { runs.old.count ≡ 0 }
    requires block { length block.old ≡ BLOCK }
    requires page { length page.old ≡ PAGE }
    requires room { 4096 + 32 + cost_of runs.old.offsets * length block.old ≤ PAGE }
    ensures ok { IfOk result (Scans runs.old runs.new (R.remaining r.old) (R.remaining r.new) (W.contents w.old) (W.contents w.new)) }
    ensures err { IfErr result (StopsScan runs.old (R.remaining r.old) (R.remaining r.new) (W.contents w.old) (W.contents w.new)) }
    ensures least { runs.new.least ≡ runs.old.least }
    ensures few { IfOk result (λ d. d.written ≤ 2 ^ 46) }
{
    let mut meter = Meter::new(1 << 40);
    let mut written = 0u64;
    loop {
        let at = meter.taken();
        let n = match meter.fill(r, block) {
            Ok(n) => n,
            Err(fault) => return Err(fault),
        };
        let used = runs.put(page, at, &block[..n]);
        if let Err(fault) = emit_after(w, written, &page[..used]) {
            return Err(fault);
        }
        written += used as u64;
        if n < block.len() {
            return Ok(Dumped {
                read: meter.taken(),
                written,
            });
        }
    }
}

/// Writes the runs of bytes that print.
#[inline(never)]
pub fn strings_of_bytes<R: Read, W: Write>(
    r: &mut R,
    w: &mut W,
    o: &StringsOptions,
) -> Result<u64, IoFault>
    ensures ok { IfOk result (WritesAll (bytes_dump o.now) (R.remaining r.old) (R.remaining r.new) (W.contents w.old) (W.contents w.new)) }
    ensures err { IfErr result (WritesFrontOf (bytes_dump o.now) (R.remaining r.old) (R.remaining r.new) (W.contents w.old) (W.contents w.new)) }
{
    let mut runs = Runs::new(o);
    let done = match scan_pages(r, w, &mut runs, &mut [0; BLOCK], &mut [0; PAGE]) {
        Ok(done) => done,
        Err(fault) => return Err(fault),
    };
    if runs.count < runs.least {
        return Ok(done.read);
    }
    match emit_after(w, done.written, b"\n") {
        Ok(()) => Ok(done.read),
        Err(fault) => Err(fault),
    }
}
