//! An image in pages of 4,096 bytes.
ghost use Rattle.std.specs.Prelude.{◌≡◌, ◌≢◌, ◌+◌, ◌*◌, ◌-◌, ◌<◌, ◌≤◌, ℕ, [], ◌^◌, length, take, drop, replicate, slice_index, slice_index_or, vec_len, max, ◌%◌, OnOk, IfOk, IsOk, refl};
ghost use Rattle.bx_image.specs.Image.{image_of};
ghost use Rattle.bx_image.specs.Pages.{byte_at, image_within};
ghost use Rattle.bx_image.specs.private.Pages.{IsWrittenOver, IsCleared, written_over};

use crate::{Device, DeviceFailed, NoMemory};
use std::alloc::{AllocError, Allocator, Global};

const PAGE: usize = 4096;

type Page<A> = Box<[u8; PAGE], A>;

fn new_page<A: Allocator>(alloc: A) -> Result<Page<A>, AllocError>
    ensures { IfOk result (λ page. page.value ≡ replicate PAGE 0) }
{
    Ok(Box::new(alloc, [0; PAGE])?)
}

fn overwrite(part: &mut [u8], at: usize, bytes: &[u8])
    requires { at + length bytes.now ≤ length part.old }
    ensures { part.new ≡ written_over part.old at bytes.now }
{
    part[at..at + bytes.len()].copy_from_slice(bytes);
}

fn write_in_page(page: &mut [u8; PAGE], offset: usize, bytes: &[u8])
    requires { offset + length bytes.now ≤ PAGE }
    ensures size { length page.old ≡ PAGE }
    ensures page { page.new ≡ written_over page.old offset bytes.now }
{
    overwrite(page, offset, bytes);
}

// Writes over a part of the page with this number.
fn write_part<A: Allocator>(pages: &mut Vec<Page<A>, A>, index: usize, offset: usize, bytes: &[u8])
    requires index { index < vec_len pages.old }
    requires range { offset + length bytes.now ≤ PAGE }
    ensures len { vec_len pages.new ≡ vec_len pages.old }
    ensures others { (k : ℕ) (d : _) → k ≢ index → slice_index_or pages.new.items k d ≡ slice_index_or pages.old.items k d }
    ensures size { (d : _) → length (slice_index_or pages.old.items index d).value ≡ PAGE }
    ensures page { (d : _) → (slice_index_or pages.new.items index d).value ≡ written_over (slice_index_or pages.old.items index d).value offset bytes.now }
{
    let page = &mut pages[index];
    write_in_page(page, offset, bytes);
}

// Writes over the bytes at an address that stand in one page.
fn write_in_one<A: Allocator>(pages: &mut Vec<Page<A>, A>, at: usize, bytes: &[u8])
    requires range { at + length bytes.now ≤ PAGE * vec_len pages.old }
    requires one { at % PAGE + length bytes.now ≤ PAGE }
    requires some { 0 < length bytes.now }
    ensures len { vec_len pages.new ≡ vec_len pages.old }
    ensures bytes { IsWrittenOver at bytes.now (byte_at pages.old.items (λ p. p.value)) (byte_at pages.new.items (λ p. p.value)) }
{
    write_part(pages, at / PAGE, at % PAGE, bytes);
}

// Writes over the bytes at an address.
fn write_over<A: Allocator>(pages: &mut Vec<Page<A>, A>, at: usize, bytes: &[u8])
    requires range { at + length bytes.now ≤ PAGE * vec_len pages.old }
    requires small { at + length bytes.now < 2 ^ 64 }
    ensures len { vec_len pages.new ≡ vec_len pages.old }
    ensures bytes { IsWrittenOver at bytes.now (byte_at pages.old.items (λ p. p.value)) (byte_at pages.new.items (λ p. p.value)) }
{
    let mut done = 0;
    while done < bytes.len() {
        let room = PAGE - (at + done) % PAGE;
        let end = bytes.len().min(done + room);
        write_in_one(pages, at + done, &bytes[done..end]);
        done = end;
    }
}

fn copy_part(part: &[u8], at: usize, buf: &mut [u8])
    requires { at + length buf.old ≤ length part.now }
    ensures { buf.new ≡ take (length buf.old) (drop at part.now) }
{
    buf.copy_from_slice(&part[at..at + buf.len()]);
}

fn read_in_page(page: &[u8; PAGE], offset: usize, buf: &mut [u8])
    requires { offset + length buf.old ≤ PAGE }
    ensures { buf.new ≡ take (length buf.old) (drop offset page.now) }
{
    copy_part(page, offset, buf);
}

// Reads the bytes at an address that stand in one page.
fn read_in_one<A: Allocator>(pages: &Vec<Page<A>, A>, at: usize, buf: &mut [u8])
    requires range { at + length buf.old ≤ PAGE * vec_len pages.now }
    requires one { at % PAGE + length buf.old ≤ PAGE }
    requires some { 0 < length buf.old }
    ensures { (j : ℕ) → j < length buf.new → slice_index buf.new j ≡ byte_at pages.now.items (λ p. p.value) (at + j) }
{
    let page = &pages[at / PAGE];
    read_in_page(page, at % PAGE, buf);
}

// Reads the bytes at an address.
fn read_from<A: Allocator>(pages: &Vec<Page<A>, A>, at: usize, buf: &mut [u8])
    requires range { at + length buf.old ≤ PAGE * vec_len pages.now }
    requires small { at + length buf.old < 2 ^ 64 }
    ensures { (j : ℕ) → j < length buf.new → slice_index buf.new j ≡ byte_at pages.now.items (λ p. p.value) (at + j) }
{
    let mut done = 0;
    while done < buf.len() {
        let room = PAGE - (at + done) % PAGE;
        let end = buf.len().min(done + room);
        read_in_one(pages, at + done, &mut buf[done..end]);
        done = end;
    }
}

// Writes zeros from one address up to another.
fn clear<A: Allocator>(pages: &mut Vec<Page<A>, A>, from: usize, to: usize)
    requires order { from ≤ to }
    requires range { to ≤ PAGE * vec_len pages.old }
    requires small { to < 2 ^ 63 }
    ensures len { vec_len pages.new ≡ vec_len pages.old }
    ensures bytes { IsCleared from to (byte_at pages.old.items (λ p. p.value)) (byte_at pages.new.items (λ p. p.value)) }
{
    let zeros = [0; PAGE];
    let mut done = from;
    while done < to {
        let end = to.min(done + (PAGE - done % PAGE));
        write_in_one(pages, done, &zeros[..end - done]);
        done = end;
    }
}

// Takes empty pages until there are `count`.
fn add_pages<A: Allocator + Clone>(
    pages: &mut Vec<Page<A>, A>,
    count: usize,
) -> Result<(), AllocError>
    ensures front { take (vec_len pages.old) pages.new.items ≡ pages.old.items }
    ensures len { vec_len pages.old ≤ vec_len pages.new }
    ensures within { count ≤ vec_len pages.old → IsOk result }
    ensures ok { OnOk result (count ≤ vec_len pages.new) }
    ensures most { vec_len pages.new ≤ max count (vec_len pages.old) }
    ensures bytes { (i : ℕ) → byte_at pages.new.items (λ p. p.value) i ≡ byte_at pages.old.items (λ p. p.value) i }
{
    let held = pages.len();
    if held < count {
        pages.reserve(count - held)?;
    }
    for _ in held..count {
        let page = new_page(pages.allocator().clone()?)?;
        pages.push(page)?;
    }
    Ok(())
}

// No memory has more bytes, so this is refused at once.
const MOST: u64 = 1 << 62;

/// An image in memory, in pages of 4,096 bytes that never move: a growth takes pages and copies no
/// bytes. It is always faithful and never fails.
#[derive(Drop)]
pub struct PagedImage<A: Allocator + Clone = Global> {
    pages: Vec<Page<A>, A>,
    len: usize,
    ghost within: { len ≤ 4096 * vec_len pages },
    ghost small: { vec_len pages ≤ 2 ^ 50 },
    ghost zeros: { (i : ℕ) → len ≤ i → byte_at pages.items (λ p. p.value) i ≡ 0 },
}

impl<A: Allocator + Clone> PagedImage<A> {
    /// The empty image.
    pub fn new(alloc: A) -> Self
        ensures { ⟦<PagedImage<A> as Device>⟧.image result ≡ [] }
    {
        PagedImage {
            pages: Vec::new(alloc),
            len: 0,
        }
    }
}

impl<A: Allocator + Clone> Device for PagedImage<A> {
    ghost image = { λ m. image_of m.len (byte_at m.pages.items (λ p. p.value)) };

    ghost faithful = { λ _. Unit {0} };

    ghost room = { λ m. 4096 * vec_len m.pages };

    ghost failures = { λ _. 0 };

    ghost survives = { λ m c. c ≡ image_of m.len (byte_at m.pages.items (λ p. p.value)) };

    ghost present = { λ m _. refl };

    ghost within_room = { λ m _. image_within m.len (4096 * vec_len m.pages) (byte_at m.pages.items (λ p. p.value)) m.within };

    fn len(&mut self) -> Result<u64, DeviceFailed> {
        Ok(self.len as u64)
    }

    fn read_at(&mut self, at: u64, buf: &mut [u8]) -> Result<(), DeviceFailed> {
        read_from(&self.pages, at as usize, buf);
        Ok(())
    }

    fn write_at(&mut self, at: u64, bytes: &[u8]) -> Result<(), DeviceFailed> {
        if bytes.is_empty() {
            return Ok(());
        }
        let start = at as usize;
        write_over(&mut self.pages, start, bytes);
        self.len = self.len.max(start + bytes.len());
        Ok(())
    }

    fn set_len(&mut self, n: u64) -> Result<(), DeviceFailed> {
        let n = n as usize;
        clear(&mut self.pages, n, self.len.max(n));
        self.len = n;
        Ok(())
    }

    fn sync(&mut self) -> Result<(), DeviceFailed> {
        Ok(())
    }

    fn reserve(&mut self, n: u64) -> Result<(), NoMemory> {
        if n > MOST {
            return Err(NoMemory);
        }
        let count = (n as usize + (PAGE - 1)) / PAGE;
        let held = self.pages.len();
        if add_pages(&mut self.pages, count).is_err() {
            self.pages.truncate(held);
            return Err(NoMemory);
        }
        Ok(())
    }

    fn reserved(&self) -> u64 {
        (self.pages.len() * PAGE) as u64
    }

    fn faults(&self) -> u64 {
        0
    }
}
