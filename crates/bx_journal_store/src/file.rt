//! A text in a file.
ghost use Rattle.std.specs.Prelude.{◌≡◌, ◌↔◌, ◌+◌, ◌^◌, ◌-◌, ◌<◌, ◌≤◌, ◌++◌, length, take, drop, vec_len, IfOk, OnOk, OnErr, IsOk, false};
ghost use Rattle.bx_image.specs.Device.{GoesOn};
ghost use Rattle.bx_image.specs.Power.{FadesBehind, FadesFrom, NoMore};
ghost use Rattle.bx_journal_store.specs.Store.{IsPartlyAppended};

use crate::{DeviceFailed, MOST, NoMemory, TextFault, TextStore};
use bx_image::{
    RandomAccess, SystemFile, counted, read_full, resize_to, size_of, sync_full, write_full,
};
use std::alloc::Allocator;

/// A text in a file, appended at the file's end. It is faithful where the file is, counts its failures
/// from 0 or from a number that is given, and takes no memory but for what `read_all` answers.
#[derive(Drop)]
pub struct FileText<F: RandomAccess = SystemFile> {
    file: F,
    failures: u64,
}

impl<F: RandomAccess> FileText<F> {
    ghost use Rattle.bx_journal_store.specs.InFile.{text_file};

    /// The text that the file has.
    pub fn new(file: F) -> Self
        ensures file { text_file result ≡ file }
        ensures text { ⟦<FileText<F> as TextStore>⟧.text result ≡ F.content file }
        ensures faithful { ⟦<FileText<F> as TextStore>⟧.faithful result ↔ F.faithful file }
        ensures failures { ⟦<FileText<F> as TextStore>⟧.failures result ≡ 0 }
    {
        FileText { file, failures: 0 }
    }

    /// The text that the file has, whose failures count from `first` on. So a count tells two texts apart.
    pub fn counting_from(file: F, first: u64) -> Self
        ensures file { text_file result ≡ file }
        ensures text { ⟦<FileText<F> as TextStore>⟧.text result ≡ F.content file }
        ensures faithful { ⟦<FileText<F> as TextStore>⟧.faithful result ↔ F.faithful file }
        ensures failures { ⟦<FileText<F> as TextStore>⟧.failures result ≡ first }
    {
        FileText {
            file,
            failures: first,
        }
    }

    /// The file that has the text.
    pub fn file(&self) -> &F
        ensures text { F.content result.now ≡ ⟦<FileText<F> as TextStore>⟧.text self.now }
        ensures faithful { F.faithful result.now ↔ ⟦<FileText<F> as TextStore>⟧.faithful self.now }
    {
        &self.file
    }

    /// The file that had the text.
    pub fn into_file(self) -> F
        ensures file { result ≡ text_file self }
        ensures text { F.content result ≡ ⟦<FileText<F> as TextStore>⟧.text self }
        ensures faithful { F.faithful result ↔ ⟦<FileText<F> as TextStore>⟧.faithful self }
        ensures survives { NoMore (⟦<FileText<F> as TextStore>⟧.survives self) (F.survives result) }
    {
        self.file
    }
}

// The count of bytes that are filled with zeros and then read, while they are still at hand.
const PART: usize = 262_144;

// Reads `more` bytes, behind those that were read.
fn read_more<F: RandomAccess, A: Allocator>(
    file: &mut F,
    bytes: &mut Vec<u8, A>,
    more: usize,
) -> Result<(), TextFault>
    requires sum { vec_len bytes.old + more < 2 ^ 64 }
    requires range { F.faithful file.old → vec_len bytes.old + more ≤ length (F.content file.old) }
    ensures len { OnOk result (vec_len bytes.new ≡ vec_len bytes.old + more) }
    ensures bytes { F.faithful file.old → OnOk result (bytes.new.items ≡ bytes.old.items ++ take more (drop (vec_len bytes.old) (F.content file.old))) }
    ensures content { F.faithful file.old → F.content file.new ≡ F.content file.old }
    ensures survives { F.faithful file.old → NoMore (F.survives file.old) (F.survives file.new) }
    ensures faith { F.faithful file.new ↔ F.faithful file.old }
{
    let from = bytes.len();
    bytes.resize(from + more, 0)?;
    let (_, part) = bytes.as_mut_slice().split_at_mut(from);
    read_full(file, from as u64, part)?;
    Ok(())
}

// All the bytes that a file has.
fn read_whole<F: RandomAccess, A: Allocator>(
    file: &mut F,
    alloc: A,
) -> Result<Vec<u8, A>, TextFault>
    ensures bytes { F.faithful file.old → IfOk result (λ bytes. bytes.items ≡ F.content file.old) }
    ensures content { F.faithful file.old → F.content file.new ≡ F.content file.old }
    ensures survives { F.faithful file.old → NoMore (F.survives file.old) (F.survives file.new) }
    ensures faith { F.faithful file.new ↔ F.faithful file.old }
{
    let len = size_of(file)? as usize;
    let mut bytes = Vec::with_capacity(alloc, len)?;
    while bytes.len() < len {
        let more = PART.min(len - bytes.len());
        read_more(file, &mut bytes, more)?;
    }
    Ok(bytes)
}

// Adds bytes at the end of a file.
fn append_to<F: RandomAccess>(file: &mut F, bytes: &[u8]) -> Result<(), DeviceFailed>
    requires { F.faithful file.old → length (F.content file.old) + length bytes.now < 2 ^ 64 }
    ensures ok { F.faithful file.old → OnOk result (F.content file.new ≡ F.content file.old ++ bytes.now) }
    ensures failed { F.faithful file.old → OnErr result (IsPartlyAppended bytes.now (F.content file.old) (F.content file.new)) }
    ensures fades { F.faithful file.old → FadesBehind (F.content file.old) bytes.now (F.survives file.old) (F.survives file.new) }
    ensures faith { F.faithful file.new ↔ F.faithful file.old }
{
    let end = size_of(file)?;
    if bytes.len() as u64 > u64::MAX - end {
        return Err(DeviceFailed);
    }
    write_full(file, end, bytes)
}

impl<F: RandomAccess> TextStore for FileText<F> {
    ghost text = { λ f. F.content f.file };

    ghost faithful = { λ f. F.faithful f.file };

    ghost room = { λ _. 2 ^ 64 - 1 };

    ghost failures = { λ f. f.failures };

    ghost survives = { λ f. F.survives f.file };

    ghost empties_at_once = { ⊥ };

    ghost present = { λ f. F.present f.file };

    fn len(&mut self) -> Result<u64, DeviceFailed> {
        let outcome = size_of(&mut self.file);
        counted(&mut self.failures, outcome)
    }

    fn read_all<A: Allocator>(&mut self, alloc: A) -> Result<Vec<u8, A>, TextFault> {
        let outcome = read_whole(&mut self.file, alloc);
        if let Err(TextFault::DeviceFailed) = outcome {
            self.failures += 1;
        }
        outcome
    }

    fn read_at(&mut self, at: u64, buf: &mut [u8]) -> Result<(), DeviceFailed> {
        let outcome = read_full(&mut self.file, at, buf);
        counted(&mut self.failures, outcome)
    }

    fn append(&mut self, bytes: &[u8]) -> Result<(), DeviceFailed> {
        let outcome = append_to(&mut self.file, bytes);
        counted(&mut self.failures, outcome)
    }

    fn cut(&mut self, n: u64) -> Result<(), DeviceFailed> {
        let outcome = resize_to(&mut self.file, n);
        counted(&mut self.failures, outcome)
    }

    fn sync(&mut self) -> Result<(), DeviceFailed> {
        let outcome = sync_full(&mut self.file);
        counted(&mut self.failures, outcome)
    }

    fn reserve(&mut self, n: u64) -> Result<(), NoMemory>
        // It takes no memory, so it is refused only past the limit.
        ensures exact { IsOk result ↔ (n ≤ MOST) }
        ensures within { n ≤ 2 ^ 64 - 1 → n ≤ 2 ^ 62 → IsOk result }
        ensures ok { OnOk result (n ≤ 2 ^ 64 - 1) }
        ensures limit { OnOk result (n ≤ 2 ^ 62) }
        ensures err { OnErr result ((2 ^ 64 - 1) ≡ (2 ^ 64 - 1)) }
        ensures text { F.faithful self.old.file → F.content self.new.file ≡ F.content self.old.file }
        ensures survives { F.faithful self.old.file → NoMore (F.survives self.old.file) (F.survives self.new.file) }
        ensures goes_on { GoesOn (λ f. F.faithful f.file) (λ _. 2 ^ 64 - 1) (λ f. f.failures) false self.old self.new }
    {
        if n > MOST { Err(NoMemory) } else { Ok(()) }
    }

    fn reserved(&self) -> u64 {
        u64::MAX
    }

    fn faults(&self) -> u64 {
        self.failures
    }
}
