//! Texts that are counted and read in windows of any size, by the calls that take one window.
use crate::journal::reads::{PATCHED, UNDONE_TWO};
use bx_journal_format::{
    EntryRead, Front, LinesRead, count_lines, counted_by, no_entries, nothing_read, read_journal,
    read_lines,
};
use std::alloc::{AllocError, Global};
use std::process::Abort;
use std::test::Fail;

/// The journal of a patch of two bytes at 2 of `ABCDEFGH`, in the first form.
const PATCHED_FIRST: &[u8] =
    b"change 00000001 00000008\n00000002: 4344                                     CD\nsave 00000001\ndone 00000001\n";

// How many entries a text has, counted in windows of `size` bytes.
fn count_by(text: &[u8], size: usize, only_second: bool) -> Option<u32> {
    let mut tally = no_entries();
    let mut rest = text;
    for _ in 0..text.len() {
        let window = &rest[..size.min(rest.len())];
        let passed = count_lines(tally, window, only_second, u32::MAX)?;
        if passed.taken == 0 {
            break;
        }
        tally = passed.tally;
        let (_, behind) = rest.split_at(passed.taken);
        rest = behind;
    }
    if !rest.is_empty() {
        return None;
    }
    let counted = counted_by(tally)?;
    Some(counted.count)
}

// A window of fewer bytes than the longest line has isn't counted; any other is, wherever it cuts a line.
fn assert_windows(rt: &impl Abort, text: &[u8], longest: usize, count: u32) {
    for size in 1..text.len() + 2 {
        let counted = count_by(text, size, false);
        if size < longest {
            assert!(rt; counted.is_none());
        } else {
            assert!(rt; counted == Some(count));
        }
    }
}

// The last line has no newline, so it isn't counted in any window.
fn assert_unfinished(rt: &impl Abort, text: &[u8]) {
    let (front, _) = text.split_at(text.len().saturating_sub(1));
    for size in 1..text.len() + 2 {
        assert!(rt; count_by(front, size, false).is_none());
    }
}

#[test]
fn counted_in_small_windows(rt: HostRuntime) {
    assert_windows(&rt, PATCHED, 54, 1);
    assert_windows(&rt, PATCHED_FIRST, 54, 1);
    assert_windows(&rt, UNDONE_TWO, 53, 2);
    assert_unfinished(&rt, PATCHED);
    assert_unfinished(&rt, PATCHED_FIRST);
    assert!(rt; count_by(UNDONE_TWO, 60, true) == Some(2));
    assert!(rt; count_by(PATCHED_FIRST, 60, true).is_none());
}

/// An entry of a run of two full lines and a short one, of a full line apart, and of a run of three; and one of one byte.
const RUNS: &[u8] =
    b"change2 00000001 0000000000000050\n00000000: 6161 6161 6161 6161 6161 6161 6161 6161  aaaaaaaaaaaaaaaa\n00000010: 6262 6262 6262 6262 6262 6262 6262 6262  bbbbbbbbbbbbbbbb\n00000020: 6364 65                                  cde\n00000040: 6666 6666 6666 6666 6666 6666 6666 6666  ffffffffffffffff\n00000000: 6767 6767 6767 6767 6767 6767 6767 6767  gggggggggggggggg\n00000010: 6868 6868 6868 6868 6868 6868 6868 6868  hhhhhhhhhhhhhhhh\n00000020: 6969 6969 6969 6969 6969 6969 6969 6969  iiiiiiiiiiiiiiii\nsave 00000001\ndone2 00000001 0000000000000050\nchange2 00000002 0000000000000050\n00000007: 6a                                       j\nsave 00000002\ndone2 00000002 0000000000000050\n";

// What entries saved, one run after another, each with its address in front.
fn saved_in(alloc: Global, entries: &[EntryRead]) -> Result<Vec<u8>, AllocError> {
    let mut saved = Vec::new(alloc);
    for entry in entries {
        for run in entry.kept.runs.as_slice() {
            saved.extend_from_slice(&run.at.to_be_bytes())?;
            saved.extend_from_slice(run.bytes.as_slice())?;
        }
    }
    Ok(saved)
}

// What was read, and how many bytes of the text: those of the whole lines in a window of `size` bytes.
fn read_window(
    alloc: Global,
    front: Front,
    read: LinesRead,
    rest: &[u8],
    size: usize,
) -> Result<Option<LinesRead>, AllocError> {
    let (now, behind) = rest.split_at(size.min(rest.len()));
    let mut window = now.to_vec(alloc)?;
    if read.at > 65_535 || window.len() > 65_535 {
        return Ok(None);
    }
    let left = behind.len() as u64;
    match read_lines(&alloc, front, read, left, window.as_mut_slice()) {
        Ok(next) => Ok(next),
        Err(_) => Err(AllocError),
    }
}

// What a text's entries saved, read in windows of `size` bytes; nothing where they can't be read so.
fn read_by(alloc: Global, text: &[u8], size: usize) -> Result<Option<Vec<u8>>, AllocError> {
    let front = Front {
        count: 0,
        told: None,
        at: 0,
        lines: 0,
    };
    let Ok(nothing) = nothing_read(&alloc, front) else {
        return Err(AllocError);
    };
    let mut read = nothing;
    for _ in 0..text.len() {
        let at = (read.at as usize).min(text.len());
        let (_, rest) = text.split_at(at);
        if rest.is_empty() {
            break;
        }
        let Some(next) = read_window(alloc, front, read, rest, size)? else {
            return Ok(None);
        };
        read = next;
    }
    if read.at != text.len() as u64 {
        return Ok(None);
    }
    Ok(Some(saved_in(alloc, read.entries.as_slice())?))
}

// A window of fewer bytes than the longest line has isn't read; any other gives what the whole text does.
fn assert_read(alloc: Global, rt: &impl Abort, text: &[u8], longest: usize) -> Result<(), Fail> {
    let Ok(whole) = read_journal(&alloc, text.to_vec(alloc)?) else {
        return Ok(());
    };
    let saved = saved_in(alloc, whole.entries.as_slice())?;
    for size in 1..text.len() + 2 {
        let found = read_by(alloc, text, size)?;
        match found {
            Some(found) => assert!(rt; size >= longest && found.as_slice() == saved.as_slice()),
            None => assert!(rt; size < longest),
        }
    }
    Ok(())
}

#[test]
fn read_in_small_windows(rt: HostRuntime) -> Result<(), Fail> {
    let alloc = rt.alloc();
    assert_read(alloc, &rt, RUNS, 68)?;
    assert_read(alloc, &rt, PATCHED_FIRST, 54)?;
    assert_read(alloc, &rt, UNDONE_TWO, 53)?;
    let (front, _) = RUNS.split_at(RUNS.len().saturating_sub(1));
    for size in 1..RUNS.len() + 2 {
        assert!(rt; read_by(alloc, front, size)?.is_none());
    }
    Ok(())
}
