//! The files of a world in memory, and their names.
ghost use Rattle.std.specs.Prelude.{◌≡◌, ◌↔◌, ◌<◌, ◌≤◌, [], ℕ, length, false, true, Some, IfOk, IfSome};
ghost use Rattle.test_world.specs.MemoryFiles.{bytes_at, entry_named, file_named, follow, free_end, is_gone_at, is_link_of, is_taken, leads_at, stat_of, synced_at};

use bx_text::Name;
use bx_world::Stat;
use std::alloc::{AllocError, Global};
use std::mem::replace;

/// As many links in a row are followed, as Linux does.
pub const MOST_LINKS: u32 = 40;

/// What a name leads to.
#[derive(Drop)]
pub enum Leads {
    /// A file, by its number.
    File(usize),
    /// Another name: the name is a symbolic link.
    Link(Name),
}

/// A name, and what it leads to.
#[derive(Drop)]
pub struct Entry {
    pub name: Name,
    pub leads: Leads,
}

/// What a file has, and what is on its disk.
#[derive(Drop)]
pub struct Contents {
    pub bytes: Vec<u8>,
    pub synced: Vec<u8>,
}

/// A file; of one that was taken away nothing but its number is left.
#[derive(Drop)]
pub struct Stored {
    pub contents: Contents,
    pub stat: Stat,
    pub is_gone: bool,
}

/// The numbers of the three files that are lent.
#[derive(Clone, Copy)]
pub struct LentFiles {
    pub image: usize,
    pub journal: usize,
    pub redo: usize,
}

/// The numbers of an image and its texts that are lent beside one another; the redo text may be missing.
#[derive(Clone, Copy)]
pub struct LentBeside {
    pub image: usize,
    pub journal: usize,
    pub redo: Option<usize>,
}

/// The place of the first entry of a name; where it has none, the number of entries.
fn place_of(entries: &[Entry], name: &str) -> usize
    ensures { leads_at entries.now result ≡ entry_named entries.now name.now }
{
    for place in 0..entries.len() {
        if entries[place].name.as_str() == name {
            return place;
        }
    }
    entries.len()
}

/// The file that a name leads to by at most `steps` steps.
#[tactic(auto, unfolding(crate::specs::MemoryFiles::follow))]
fn follow(entries: &[Entry], steps: u32, name: &str) -> Option<usize>
    ensures { result ≡ follow entries.now steps name.now }
{
    if steps == 0 {
        return None;
    }
    match entries.get(place_of(entries, name)) {
        None => None,
        Some(entry) => match &entry.leads {
            Leads::File(number) => Some(*number),
            Leads::Link(target) => follow(entries, steps - 1, target.as_str()),
        },
    }
}

/// Whether a name is a symbolic link.
pub fn is_link(entries: &[Entry], name: &str) -> bool
    ensures { result ≡ is_link_of entries.now name.now }
{
    match entries.get(place_of(entries, name)) {
        None => false,
        Some(entry) => matches!(&entry.leads, Leads::Link(_)),
    }
}

/// Whether a file was taken away, or was never there.
pub fn is_gone(files: &[Stored], number: usize) -> bool
    ensures gone { result ≡ is_gone_at files.now number }
    ensures within { result ≡ false → number < length files.now }
{
    match files.get(number) {
        Some(file) => file.is_gone,
        None => true,
    }
}

/// Whether a name is one of a file that is there, or a link.
pub fn is_taken(files: &[Stored], entries: &[Entry], name: &str) -> bool
    ensures { result ≡ is_taken files.now entries.now name.now }
{
    match entries.get(place_of(entries, name)) {
        None => false,
        Some(entry) => match &entry.leads {
            Leads::File(number) => !is_gone(files, *number),
            Leads::Link(_) => true,
        },
    }
}

/// The file that a name leads to, links followed.
pub fn file_named(files: &[Stored], entries: &[Entry], name: &str) -> Option<usize>
    ensures named { result ≡ file_named files.now entries.now name.now }
    ensures within { IfSome result (λ n. n < length files.now) }
{
    let number = follow(entries, MOST_LINKS, name)?;
    if is_gone(files, number) {
        return None;
    }
    Some(number)
}

/// The name that a name leads to by fewer than `steps` links, where neither a file nor a link has it.
#[tactic(auto, unfolding(crate::specs::MemoryFiles::free_end))]
pub fn free_end<'a>(
    files: &[Stored],
    entries: &'a [Entry],
    steps: u32,
    name: &'a str,
) -> Option<&'a str>
    ensures { IfSome result (λ end. free_end files.now entries.now steps name.now ≡ Some end.now) }
{
    if steps == 0 {
        return None;
    }
    match entries.get(place_of(entries, name)) {
        None => Some(name),
        Some(entry) => match &entry.leads {
            Leads::File(number) if is_gone(files, *number) => Some(name),
            Leads::File(_) => None,
            Leads::Link(target) => free_end(files, entries, steps - 1, target.as_str()),
        },
    }
}

/// What the system tells of a file that is there.
pub fn stat_of(files: &[Stored], number: usize) -> Option<Stat>
    ensures { result ≡ stat_of files.now number }
{
    match files.get(number) {
        Some(file) => Some(file.stat),
        None => None,
    }
}

/// Gives a file other contents, and hands those back that it had. A number that no file has hands its contents back.
pub fn exchange(files: &mut [Stored], number: usize, contents: Contents) -> Contents
    ensures taken { number < length files.old → result.bytes.items ≡ bytes_at files.old number }
    ensures synced_taken { number < length files.old → result.synced.items ≡ synced_at files.old number }
    ensures put { number < length files.old → bytes_at files.new number ≡ contents.bytes.items }
    ensures synced_put { number < length files.old → synced_at files.new number ≡ contents.synced.items }
    ensures others { (i : ℕ) → (i ≡ number → ⊥) → bytes_at files.new i ≡ bytes_at files.old i }
    ensures synced_others { (i : ℕ) → (i ≡ number → ⊥) → synced_at files.new i ≡ synced_at files.old i }
    ensures gone { (i : ℕ) → is_gone_at files.new i ≡ is_gone_at files.old i }
    ensures stat { (i : ℕ) → stat_of files.new i ≡ stat_of files.old i }
    ensures len { length files.new ≡ length files.old }
{
    if number < files.len() {
        replace(&mut files[number].contents, contents)
    } else {
        contents
    }
}

/// A copy of the bytes of a file. One that isn't there has none.
pub fn copy_of_bytes(alloc: Global, files: &[Stored], number: usize) -> Result<Vec<u8>, AllocError>
    ensures { IfOk result (λ copy. copy.items ≡ bytes_at files.now number) }
{
    match files.get(number) {
        Some(file) => Vec::from_slice(alloc, file.contents.bytes.as_slice()),
        None => Ok(Vec::new(alloc)),
    }
}

/// A copy of what is on the disk of a file. One that isn't there has nothing there.
pub fn copy_of_disk(alloc: Global, files: &[Stored], number: usize) -> Result<Vec<u8>, AllocError>
    ensures { IfOk result (λ copy. copy.items ≡ synced_at files.now number) }
{
    match files.get(number) {
        Some(file) => Vec::from_slice(alloc, file.contents.synced.as_slice()),
        None => Ok(Vec::new(alloc)),
    }
}

/// The count of bytes of a file. One that isn't there has none.
pub fn length_of(files: &[Stored], number: usize) -> usize
    ensures { result ≡ length (bytes_at files.now number) }
{
    match files.get(number) {
        Some(file) => file.contents.bytes.len(),
        None => 0,
    }
}

/// Whether a file is empty. One that isn't there is.
pub fn has_no_bytes(files: &[Stored], number: usize) -> bool
    ensures { (result ≡ true) ↔ (bytes_at files.now number ≡ []) }
{
    match files.get(number) {
        Some(file) => file.contents.bytes.is_empty(),
        None => true,
    }
}

/// Takes a file away: no name leads to it any more.
pub fn bury(files: &mut [Stored], number: usize)
    ensures buried { is_gone_at files.new number ≡ true }
    ensures others { (i : ℕ) → (i ≡ number → ⊥) → is_gone_at files.new i ≡ is_gone_at files.old i }
    ensures bytes { (i : ℕ) → bytes_at files.new i ≡ bytes_at files.old i }
    ensures synced { (i : ℕ) → synced_at files.new i ≡ synced_at files.old i }
    ensures stat { (i : ℕ) → stat_of files.new i ≡ stat_of files.old i }
    ensures len { length files.new ≡ length files.old }
{
    if number < files.len() {
        files[number].is_gone = true;
    }
}
