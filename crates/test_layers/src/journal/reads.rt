//! Which fault a read gives that fails: before the first write nothing was changed, and behind it opening recovers.
use crate::journal::rations::{LEN, LINE, long_entry};
use crate::journal::rows::{Calls, Left, Row, play};
use crate::journal::sessions::{ALL, Ask, Finds, Held, NO_STEP, WHOLE};
use crate::shared::front;
use bx_journal::SessionFault::{DeviceFailed, Interrupted};
use std::test::Fail;

/// The journal of a patch of two bytes at 2 of `ABCDEFGH`.
pub const PATCHED: &[u8] =
    b"change2 00000001 0000000000000008\n00000002: 4344                                     CD\nsave 00000001\ndone2 00000001 0000000000000008\n";

/// The redo text of the same patch, once it is taken back.
const UNDONE: &[u8] =
    b"change2 00000001 0000000000000008\n00000002: 7879                                     xy\nsave 00000001\ndone2 00000001 0000000000000008\n";

/// The journal of one byte at 0, from `A` over `a` to `b`.
pub const MADE_TWO: &[u8] =
    b"change2 00000001 0000000000000001\n00000000: 41                                       A\nsave 00000001\ndone2 00000001 0000000000000001\nchange2 00000002 0000000000000001\n00000000: 61                                       a\nsave 00000002\ndone2 00000002 0000000000000001\n";

/// The same, where a loss of power left zeros in the second entry's end line.
const FADED: &[u8] =
    b"change2 00000001 0000000000000001\n00000000: 41                                       A\nsave 00000001\ndone2 00000001 0000000000000001\nchange2 00000002 0000000000000001\n00000000: 61                                       a\nsave 00000002\ndone2 \0\0\0\0\0\0\0\0 0000000000000001\n";

/// The redo text of the same byte, once it is taken back from `d` over `c` to `b`.
pub const UNDONE_TWO: &[u8] =
    b"change2 00000001 0000000000000001\n00000000: 64                                       d\nsave 00000001\ndone2 00000001 0000000000000001\nchange2 00000002 0000000000000001\n00000000: 63                                       c\nsave 00000002\ndone2 00000002 0000000000000001\n";

/// The journal of a change of nothing on an image of `WHOLE` bytes.
const BEFORE: &[u8] =
    b"change2 00000001 0000000000010000\nsave 00000001\ndone2 00000001 0000000000010000\n";

const MAX: u64 = u64::MAX;

/// Opening fails.
const FAILS: Finds = Finds::Fails(DeviceFailed);

// The journal's length and a window of it are read first; then those of the redo text, where the journal is finished entries
// alone; and the image's length is asked for the journal, and once more for the redo text.
const OPENINGS: &[Row] = &[
    (Calls::Journal, (0, 2), ALL, FAILS, NO_STEP, Left::Same),
    (Calls::Redo, (0, 2), ALL, FAILS, NO_STEP, Left::Same),
    (Calls::Image, (0, 2), ALL, FAILS, NO_STEP, Left::Same),
];

// The redo text is read also where the image's length is another.
const OF_ANOTHER_LENGTH: &[Row] = &[(Calls::Redo, (0, 2), ALL, FAILS, NO_STEP, Left::Same)];

/// Two changes stand, and two were undone.
pub const HALF: Finds = Finds::Clean(2, 2);

// The length of the text that is moved from is read, then its last two entries, then the lengths of the image and of the
// other text, then the bytes that will be overwritten, by a redo twice: each is refused, and changes nothing. Between the two
// changes the image is read again. An undo restores each from the journal's text, which it reads twice, and asks for the journal's
// length once more before it empties it; a redo asks for it before each entry, whose first byte it puts on the disk by itself where the
// journal is empty. Opening asked for the image's length twice, and for that of each text, and read a window of each.
const UNDOS: &[Row] = &[
    (
        Calls::Image,
        (2, 4),
        ALL,
        HALF,
        (Ask::Undo(2), Err(DeviceFailed)),
        Left::Same,
    ),
    (
        Calls::Journal,
        (2, 4),
        ALL,
        HALF,
        (Ask::Undo(2), Err(DeviceFailed)),
        Left::Same,
    ),
    (
        Calls::Redo,
        (2, 3),
        ALL,
        HALF,
        (Ask::Undo(2), Err(DeviceFailed)),
        Left::Same,
    ),
    (
        Calls::Image,
        (4, 5),
        (0, 8, 3),
        HALF,
        (Ask::Undo(2), Err(Interrupted)),
        Left::Found(Finds::Clean(1, 3)),
    ),
    (
        Calls::Image,
        (5, 6),
        (0, 9, 3),
        HALF,
        (Ask::Undo(2), Ok(0)),
        Left::Found(Finds::Clean(0, 4)),
    ),
    (
        Calls::Journal,
        (8, 9),
        ALL,
        HALF,
        (Ask::Undo(2), Err(Interrupted)),
        Left::Found(Finds::Restored(1, 0)),
    ),
];

const REDOS: &[Row] = &[
    (
        Calls::Image,
        (2, 5),
        ALL,
        HALF,
        (Ask::Redo(2), Err(DeviceFailed)),
        Left::Same,
    ),
    (
        Calls::Journal,
        (2, 3),
        ALL,
        HALF,
        (Ask::Redo(2), Err(DeviceFailed)),
        Left::Same,
    ),
    (
        Calls::Redo,
        (2, 4),
        ALL,
        HALF,
        (Ask::Redo(2), Err(DeviceFailed)),
        Left::Same,
    ),
    (
        Calls::Image,
        (5, 7),
        (0, 4, 4),
        HALF,
        (Ask::Redo(2), Err(Interrupted)),
        Left::Found(Finds::Clean(3, 1)),
    ),
    (
        Calls::Image,
        (7, 8),
        (0, 5, 4),
        HALF,
        (Ask::Redo(2), Ok(4)),
        Left::Found(Finds::Clean(4, 0)),
    ),
    (
        Calls::Journal,
        (3, 4),
        ALL,
        HALF,
        (Ask::Redo(2), Err(Interrupted)),
        Left::Same,
    ),
    (
        Calls::Journal,
        (4, 5),
        ALL,
        HALF,
        (Ask::Redo(2), Err(Interrupted)),
        Left::Found(Finds::Clean(3, 1)),
    ),
    (
        Calls::Journal,
        (5, 6),
        ALL,
        HALF,
        (Ask::Redo(2), Ok(4)),
        Left::Found(Finds::Clean(4, 0)),
    ),
];

/// Nothing stands.
const NEW: Finds = Finds::Clean(0, 0);

// A change reads the length of the image, twice what it overwrites or cuts off, and the length of the journal: each is refused,
// and changes nothing. Opening asked for the length of both texts, which are empty. The journal's length is asked for once more where
// the entry's head is put, and once that is written the image's length, where its piece stands at its base.
const CHANGES: &[Row] = &[
    (
        Calls::Image,
        (0, 3),
        ALL,
        NEW,
        (Ask::Replace, Err(DeviceFailed)),
        Left::Same,
    ),
    (
        Calls::Journal,
        (1, 2),
        ALL,
        NEW,
        (Ask::Replace, Err(DeviceFailed)),
        Left::Same,
    ),
    (
        Calls::Image,
        (3, 4),
        (0, 3, 1),
        NEW,
        (Ask::Replace, Err(Interrupted)),
        Left::Found(Finds::Restored(1, 0)),
    ),
    (
        Calls::Image,
        (4, 5),
        (0, 3, 1),
        NEW,
        (Ask::Replace, Ok(1)),
        Left::Found(ONE),
    ),
    (
        Calls::Journal,
        (2, 3),
        ALL,
        NEW,
        (Ask::Replace, Err(Interrupted)),
        Left::Same,
    ),
    (
        Calls::Journal,
        (3, 4),
        ALL,
        NEW,
        (Ask::Replace, Ok(1)),
        Left::Found(ONE),
    ),
];

/// One change stands.
const ONE: Finds = Finds::Clean(1, 0);

// Behind an entry that records its length stands a front of a first line, a first line, or an entry up to its save line. The
// journal's length is read, its text in windows, what follows the last newline, the text up to what is unfinished once more,
// and that again for zeros. Of the first two the image's length is read, and of the last its first line.
const FIRST_LINE_CUT: &[Row] = &[
    (Calls::Journal, (0, 6), ALL, FAILS, NO_STEP, Left::Same),
    (Calls::Image, (0, 1), ALL, FAILS, NO_STEP, Left::Same),
    (
        Calls::Image,
        (1, 2),
        (0, 6, 0),
        Finds::Dropped(1),
        NO_STEP,
        Left::Found(ONE),
    ),
];

const FIRST_LINE: &[Row] = &[
    (Calls::Journal, (0, 5), ALL, FAILS, NO_STEP, Left::Same),
    (Calls::Image, (0, 1), ALL, FAILS, NO_STEP, Left::Same),
    (
        Calls::Image,
        (1, 2),
        (0, 5, 0),
        Finds::Dropped(1),
        NO_STEP,
        Left::Found(ONE),
    ),
];

/// The second change was taken back.
const RESTORED: Finds = Finds::Restored(2, 1);

// The saved lines of an entry are read once more while it is rolled back, here in two windows: where one of these reads fails the
// opening is interrupted, and the next one rolls the entry back.
const SAVE_LINE: &[Row] = &[
    (Calls::Journal, (0, 6), ALL, FAILS, NO_STEP, Left::Same),
    (
        Calls::Journal,
        (6, 8),
        (MAX, 0, 0),
        Finds::Fails(Interrupted),
        NO_STEP,
        Left::Found(RESTORED),
    ),
    (
        Calls::Image,
        (0, 1),
        (0, 8, 0),
        RESTORED,
        NO_STEP,
        Left::Found(ONE),
    ),
];

// The line with zeros is out of place, so the first zero is looked for, and what follows it is read; then the text before it is read as any
// other, up to its first line. Each of these reads is refused, and none comes behind them but those of the rollback.
const ZEROS: &[Row] = &[
    (Calls::Journal, (0, 9), ALL, FAILS, NO_STEP, Left::Same),
    (
        Calls::Image,
        (0, 1),
        (0, 11, 0),
        RESTORED,
        NO_STEP,
        Left::Found(ONE),
    ),
];

/// An image, a journal and how many of its first bytes there are, a redo text, and the rows on them.
type Start = (
    &'static [u8],
    &'static [u8],
    usize,
    &'static [u8],
    &'static [Row],
);

static STARTS: [Start; 9] = [
    (b"ABxyEFGH", PATCHED, PATCHED.len(), UNDONE, OPENINGS),
    (
        b"ABxyEFG",
        PATCHED,
        PATCHED.len(),
        UNDONE,
        OF_ANOTHER_LENGTH,
    ),
    (b"b", MADE_TWO, MADE_TWO.len(), UNDONE_TWO, UNDOS),
    (b"b", MADE_TWO, MADE_TWO.len(), UNDONE_TWO, REDOS),
    (b"ABCDEFGH", b"", 0, b"", CHANGES),
    (b"A", MADE_TWO, 150, UNDONE, FIRST_LINE_CUT),
    (b"A", MADE_TWO, 167, UNDONE, FIRST_LINE),
    (b"A", MADE_TWO, 234, UNDONE, SAVE_LINE),
    (b"A", FADED, FADED.len(), UNDONE, ZEROS),
];

#[test]
fn reads_fail(rt: HostRuntime) -> Result<(), Fail> {
    for (image, journal, len, redo, rows) in &STARTS {
        let start: Held<'_> = (image, front(journal, *len), redo);
        play(rt.alloc(), &rt, start, rows)?;
    }
    Ok(())
}

// Before its first write a change of two pages reads the image's length, all that it overwrites, and that again for the first page,
// each time as many lines as surely fit in what is left of it: 3,196, 546, 93, 16, 2 and 1. Each is refused, and changes nothing.
const BEFORE_PAGES: &[Row] = &[(
    Calls::Image,
    (0, 8),
    ALL,
    NEW,
    (Ask::Whole, Err(DeviceFailed)),
    Left::Same,
)];

// The next read is made between the two pages, and then the second can't be appended: the image stays, and opening drops the
// first one.
const BETWEEN_PAGES: &[Row] = &[
    (
        Calls::Image,
        (9, 10),
        ALL,
        ONE,
        (Ask::Whole, Err(Interrupted)),
        Left::Found(Finds::Dropped(1)),
    ),
    (
        Calls::Writes,
        (2, 3),
        ALL,
        ONE,
        (Ask::Whole, Err(Interrupted)),
        Left::Found(Finds::Dropped(1)),
    ),
];

#[test]
fn stopped_at_pages(rt: HostRuntime) -> Result<(), Fail> {
    let alloc = rt.alloc();
    let zeros = vec![in alloc; 0u8; WHOLE]?;
    play(alloc, &rt, (zeros.as_slice(), b"", b""), BEFORE_PAGES)?;
    play(alloc, &rt, (zeros.as_slice(), BEFORE, b""), BETWEEN_PAGES)?;
    Ok(())
}

// The length of a journal that is longer than two windows is read, and three windows; each is refused. A log reads them once more, and
// so does an undo. Behind its first write that restores from the three, reads the save line once more, and asks for the length before the
// journal becomes empty: each of these interrupts it.
const WINDOWS: &[Row] = &[
    (Calls::Journal, (0, 4), ALL, FAILS, NO_STEP, Left::Same),
    (Calls::Journal, (4, 5), ALL, ONE, NO_STEP, Left::Same),
    (
        Calls::Journal,
        (4, 8),
        ALL,
        ONE,
        (Ask::Log, Err(DeviceFailed)),
        Left::Same,
    ),
    (
        Calls::Journal,
        (8, 9),
        ALL,
        ONE,
        (Ask::Log, Ok(1)),
        Left::Same,
    ),
    (
        Calls::Journal,
        (4, 8),
        ALL,
        ONE,
        (Ask::Undo(1), Err(DeviceFailed)),
        Left::Same,
    ),
    (
        Calls::Journal,
        (8, 13),
        ALL,
        ONE,
        (Ask::Undo(1), Err(Interrupted)),
        Left::Found(Finds::Restored(1, 0)),
    ),
    (
        Calls::Journal,
        (13, 14),
        ALL,
        ONE,
        (Ask::Undo(1), Ok(0)),
        Left::Found(Finds::Clean(0, 1)),
    ),
];

// And so does a redo, of the redo text.
const REDO_WINDOWS: &[Row] = &[
    (
        Calls::Redo,
        (4, 8),
        ALL,
        Finds::Clean(0, 1),
        (Ask::Redo(1), Err(DeviceFailed)),
        Left::Same,
    ),
    (
        Calls::Redo,
        (8, 9),
        ALL,
        Finds::Clean(0, 1),
        (Ask::Redo(1), Ok(1)),
        Left::Found(ONE),
    ),
];

#[test]
fn each_window_fails(rt: HostRuntime) -> Result<(), Fail> {
    let alloc = rt.alloc();
    let text = long_entry(alloc, LEN, 0)?;
    let image = vec![in alloc; b'y'; LEN]?;
    play(
        alloc,
        &rt,
        (image.as_slice(), text.as_slice(), b""),
        WINDOWS,
    )?;
    play(
        alloc,
        &rt,
        (image.as_slice(), b"", text.as_slice()),
        REDO_WINDOWS,
    )?;
    Ok(())
}

// Each of the saved bytes moves the first window's end to another place in a full line: it is read in windows all the same.
const IN_WINDOWS: &[Row] = &[(
    Calls::Journal,
    (13, 14),
    ALL,
    ONE,
    (Ask::Undo(1), Ok(0)),
    Left::Found(Finds::Clean(0, 1)),
)];

#[test]
fn windows_cut_lines(rt: HostRuntime) -> Result<(), Fail> {
    let alloc = rt.alloc();
    let image = vec![in alloc; b'y'; LEN]?;
    for bytes in (1..LINE).step_by(8) {
        let text = long_entry(alloc, LEN, bytes)?;
        play(
            alloc,
            &rt,
            (image.as_slice(), text.as_slice(), b""),
            IN_WINDOWS,
        )?;
    }
    Ok(())
}
