//! Dumps of inputs, a page of text at a time.
ghost use Rattle.std.specs.Prelude.{◌≡◌, ℕ, ◌+◌, ◌-◌, ◌^◌, ◌<◌, ◌≤◌, true, List, [], ◌++◌, length, take, Option, IfErr, IfOk, IfSome, OnOk, Some};
ghost use Rattle.std.specs.Io.KnownBytes.{Appends};
ghost use Rattle.bx_text.specs.Stream.{IsReadCause, Skips, StopsIn};
ghost use Rattle.bx_text.specs.Writing.{WritesFront};
ghost use Rattle.bx_dump.specs.private.Pages.{StopsBegun, StopsNextBut, StopsTextOf, WritesBegun, WritesNext, WritesTextOf, streams_of};

use bx_text::{IoFault, Meter, State, emit_after};
use std::io::{Read, Write};

/// The most bytes of an input, those included that are skipped.
pub const LIMIT: u64 = 1 << 40;

/// The most bytes of an input that are put at once.
pub const BLOCK: usize = 16384;

/// How many bytes of text there is room for: 128 for each line of 16 bytes.
pub const PAGE: usize = 131072;

/// The most bytes of an input that are read first: one that ends there is put into a small page.
pub const START: usize = 512;

/// How many bytes of text a small page has room for: 128 for each line of 16 bytes, too.
pub const SMALL_PAGE: usize = 4096;

/// What turns the bytes of an input into text, a block at a time.
pub trait Pages {
    /// The text that is put for bytes at the front of an input, in whole blocks. More bytes only make it longer.
    ghost written: { Self → List ℕ → List ℕ };

    /// The text of a whole input: what is put for its blocks, and what was kept at their end until more is known.
    ghost text: { Self → List ℕ → List ℕ };

    /// The most bytes of text that are kept.
    ghost kept: { Self → ℕ };

    /// These bytes were put, in whole blocks.
    ghost Seen: { Self → List ℕ → Type 0 };

    /// The bytes of a block.
    ghost block: { Self → ℕ };

    /// How long a page has to be for a block of this length.
    ghost room: { Self → ℕ → ℕ };

    /// How many bytes are put at once.
    fn block_len(&self) -> usize
        ensures value { result ≡ block self.now }
        ensures some { 0 < result }
        ensures most { result ≤ BLOCK }
        ensures fits { (n : ℕ) → n ≤ result → room self.now n ≤ PAGE };

    /// How many bytes are read first: a small page has room for fewer.
    fn start_len(&self) -> usize
        ensures most { result ≤ START }
        ensures fits { (n : ℕ) → n < result → room self.now n ≤ SMALL_PAGE };

    /// Puts the text for the next bytes at the front of the page, and answers how long it is. The rest of the page is working
    /// space. Fewer bytes than a block are the last, so that nothing is kept behind them; there may be none.
    fn put(&mut self, page: &mut [u8], done: u64, bytes: &[u8]) -> usize
        requires page { room self.old (length bytes.now) ≤ length page.old }
        requires few { done + length bytes.now ≤ 2 ^ 40 }
        requires fits { length bytes.now ≤ block self.old }
        ensures most { result ≤ length page.old }
        ensures text { (x : List ℕ) → length x ≡ done → Seen self.old x →
            length bytes.now ≡ block self.old → written self.old (x ++ bytes.now) ≡ written self.old x ++ take result page.new }
        ensures last { (x : List ℕ) → length x ≡ done → Seen self.old x →
            length bytes.now < block self.old → text self.old (x ++ bytes.now) ≡ written self.old x ++ take result page.new }
        ensures seen { (input : List ℕ) → length input ≡ done → Seen self.old input →
            length bytes.now ≡ block self.old → Seen self.new (input ++ bytes.now) }
        ensures same { (xs : List ℕ) → written self.new xs ≡ written self.old xs }
        ensures whole { (xs : List ℕ) → text self.new xs ≡ text self.old xs }
        ensures bound { kept self.new ≡ kept self.old }
        ensures size { block self.new ≡ block self.old }
        ensures room { (n : ℕ) → room self.new n ≡ room self.old n };

    /// Says that later bytes only make the text longer, and how much of it is kept.
    fn grows(&self)
        ensures more { (input more : List ℕ) → Seen self.now input → (rest : List ℕ) × (text self.now (input ++ more) ≡ written self.now input ++ rest) }
        ensures few { (input : List ℕ) → Seen self.now input → length (text self.now input) ≤ length (written self.now input) + kept self.now };
}

/// How much was dumped, and how much text was written.
#[derive(Clone, Copy, Debug, PartialEq, Eq)]
pub struct Part {
    pub read: u64,
    pub written: u64,
}

/// How many bytes are read next, where `size` are a block and `done` were dumped.
fn next_len(size: usize, limit: Option<u64>, done: u64) -> usize
    requires { IfSome limit (λ most. done ≤ most) }
    ensures most { result ≤ size }
    ensures within { IfSome limit (λ most. done + result ≤ most) }
    ensures last { result < size → limit ≡ Some (done + result) }
{
    match limit {
        Some(most) if most - done < size as u64 => (most - done) as usize,
        _ => size,
    }
}

/// What is asked for: at most how many bytes of what comes next, and behind how much text.
#[derive(Clone, Copy)]
pub struct Asked {
    pub limit: Option<u64>,
    pub before: u64,
}

/// Writes the text of a whole input that was read.
fn dump_start<W: Write, P: Pages>(
    w: &mut W,
    pages: &mut P,
    before: u64,
    bytes: &[u8],
) -> Result<Part, IoFault>
    requires before { before ≤ 2 ^ 63 }
    requires seen { P.Seen pages.old [] }
    requires empty { P.written pages.old [] ≡ [] }
    requires fits { length bytes.now < P.block pages.old }
    requires few { length bytes.now ≤ START }
    requires room { P.room pages.old (length bytes.now) ≤ SMALL_PAGE }
    ensures read { IfOk result (λ part. part.read ≡ length bytes.now) }
    ensures long { IfOk result (λ part. part.written ≡ length (P.text pages.old bytes.now)) }
    ensures few { IfOk result (λ part. part.written ≤ SMALL_PAGE) }
    ensures ok { OnOk result (Appends (W.contents w.old) (W.contents w.new) (P.text pages.old bytes.now)) }
    ensures err { IfErr result (WritesFront before (W.contents w.old) (W.contents w.new) (P.text pages.old bytes.now)) }
{
    let mut page = [0; SMALL_PAGE];
    let used = pages.put(&mut page, 0, bytes);
    match emit_after(w, before, &page[..used]) {
        Ok(()) => Ok(Part {
            read: bytes.len() as u64,
            written: used as u64,
        }),
        Err(fault) => Err(fault),
    }
}

// What has a block or a large page is never inlined: each page of a caller's frame is touched, whatever runs in it.

/// Writes the text of bytes that were read, and of what comes next in the input, a block at a time.
#[inline(never)]
fn dump_blocks<R: Read, W: Write, P: Pages>(
    meter: &mut Meter,
    r: &mut R,
    w: &mut W,
    pages: &mut P,
    asked: Asked,
    start: &[u8],
) -> Result<Part, IoFault>
    requires open { meter.old.state ≡ State.Open }
    requires limit { meter.old.limit ≡ 2 ^ 40 }
    requires before { asked.before ≤ 2 ^ 63 }
    requires seen { P.Seen pages.old [] }
    requires empty { P.written pages.old [] ≡ [] }
    requires fits { length start.now ≤ P.block pages.old }
    requires asked { IfSome asked.limit (λ most. length start.now ≤ most) }
    requires taken { length start.now ≤ meter.old.taken }
    ensures ok { IfOk result (WritesBegun start.now (P.text pages.old) meter.old.taken asked (streams_of R.remaining r.old r.new W.contents w.old w.new)) }
    ensures err { IfErr result (StopsBegun (P.kept pages.old) start.now (P.text pages.old) meter.old.taken asked (streams_of R.remaining r.old r.new W.contents w.old w.new)) }
    ensures few { IfOk result (λ part. part.written ≤ 2 ^ 60) }
    ensures count { IfOk result (λ part. part.read ≤ 2 ^ 40) }
{
    let mut block = [0; BLOCK];
    let mut page = [0; PAGE];
    let size = pages.block_len();
    let mut held = start.len();
    block[..held].copy_from_slice(start);
    let mut part = Part {
        read: 0,
        written: 0,
    };
    loop {
        pages.grows();
        let want = next_len(size, asked.limit, part.read);
        let n = match meter.fill(r, &mut block[held..want]) {
            Ok(n) => held + n,
            Err(fault) => return Err(fault),
        };
        held = 0;
        let used = pages.put(&mut page, part.read, &block[..n]);
        pages.grows();
        if let Err(fault) = emit_after(w, asked.before + part.written, &page[..used]) {
            return Err(fault);
        }
        part.read += n as u64;
        part.written += used as u64;
        if n < size {
            return Ok(part);
        }
    }
}

/// Writes the text of what comes next in the input, at most `limit` bytes of it.
pub fn dump_pages<R: Read, W: Write, P: Pages>(
    meter: &mut Meter,
    r: &mut R,
    w: &mut W,
    pages: &mut P,
    limit: Option<u64>,
    before: u64,
) -> Result<Part, IoFault>
    requires open { meter.old.state ≡ State.Open }
    requires limit { meter.old.limit ≡ 2 ^ 40 }
    requires before { before ≤ 2 ^ 63 }
    requires seen { P.Seen pages.old [] }
    requires empty { P.text pages.old [] ≡ [] }
    ensures ok { IfOk result (WritesNext (P.text pages.old) meter.old.taken limit (streams_of R.remaining r.old r.new W.contents w.old w.new)) }
    ensures err { IfErr result (StopsNextBut (P.kept pages.old) (P.text pages.old) meter.old.taken limit before (streams_of R.remaining r.old r.new W.contents w.old w.new)) }
    ensures few { IfOk result (λ part. part.written ≤ 2 ^ 60) }
    ensures count { IfOk result (λ part. part.read ≤ 2 ^ 40) }
{
    pages.grows();
    let few = pages.start_len().min(pages.block_len());
    let want = next_len(few, limit, 0);
    let mut start = [0; START];
    let n = match meter.fill(r, &mut start[..want]) {
        Ok(n) => n,
        Err(fault) => return Err(fault),
    };
    if n < few {
        return dump_start(w, pages, before, &start[..n]);
    }
    dump_blocks(meter, r, w, pages, Asked { limit, before }, &start[..n])
}

/// Reads `count` bytes away, a block at a time.
#[inline(never)]
fn skip_blocks<R: Read>(meter: &mut Meter, r: &mut R, count: u64) -> Result<bool, IoFault>
    requires open { meter.old.state ≡ State.Open }
    ensures limit { meter.new.limit ≡ meter.old.limit }
    ensures ok { IfOk result (λ all. Skips all count (meter.old.limit - meter.old.taken) (R.remaining r.old) (R.remaining r.new)) }
    ensures open { IfOk result (λ all. all ≡ true → (meter.new.state ≡ State.Open) × (meter.new.taken ≡ meter.old.taken + count)) }
    ensures stopped { IfErr result (λ e. StopsIn meter.old (R.remaining r.old) (R.remaining r.new) (IsReadCause e count)) }
{
    meter.skip(r, count, &mut [0; BLOCK])
}

/// Reads `count` bytes away, and answers whether the input had them.
pub fn skip_front<R: Read>(meter: &mut Meter, r: &mut R, count: u64) -> Result<bool, IoFault>
    requires open { meter.old.state ≡ State.Open }
    ensures limit { meter.new.limit ≡ meter.old.limit }
    ensures ok { IfOk result (λ all. Skips all count (meter.old.limit - meter.old.taken) (R.remaining r.old) (R.remaining r.new)) }
    ensures open { IfOk result (λ all. all ≡ true → (meter.new.state ≡ State.Open) × (meter.new.taken ≡ meter.old.taken + count)) }
    ensures stopped { IfErr result (λ e. StopsIn meter.old (R.remaining r.old) (R.remaining r.new) (IsReadCause e count)) }
{
    if count > START as u64 {
        return skip_blocks(meter, r, count);
    }
    meter.skip(r, count, &mut [0; START])
}

/// Writes the text of the bytes from place `from` on, at most `limit` of them, after `before` bytes that were written.
#[inline(never)]
pub fn dump_part<R: Read, W: Write, P: Pages>(
    r: &mut R,
    w: &mut W,
    pages: &mut P,
    from: u64,
    limit: Option<u64>,
    before: u64,
) -> Result<Part, IoFault>
    requires before { before ≤ 2 ^ 63 }
    requires seen { P.Seen pages.old [] }
    requires empty { P.text pages.old [] ≡ [] }
    ensures ok { IfOk result (WritesTextOf (P.text pages.old) from limit (streams_of R.remaining r.old r.new W.contents w.old w.new)) }
    ensures err { IfErr result (StopsTextOf (P.kept pages.old) (P.text pages.old) from limit before (streams_of R.remaining r.old r.new W.contents w.old w.new)) }
    ensures few { IfOk result (λ part. part.written ≤ 2 ^ 60) }
    ensures count { IfOk result (λ part. part.read ≤ 2 ^ 40) }
{
    let mut meter = Meter::new(LIMIT);
    match skip_front(&mut meter, r, from) {
        Ok(true) => {}
        Ok(false) => {
            return Ok(Part {
                read: 0,
                written: 0,
            });
        }
        Err(fault) => return Err(fault),
    }
    dump_pages(&mut meter, r, w, pages, limit, before)
}
