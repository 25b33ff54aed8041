//! Dumps and plain hexadecimal in two windows, cut at each place, and from a source where memory runs out.
use bx_read::{DumpRead, PlainRead, ReadFault, read_plain_from, read_runs_from};
use bx_text::{IoFault, Piece, Source};
use std::alloc::Global;
use std::io::{self, ErrorKind, Read};
use std::process::Abort;
use std::test::Fail;
use test_arena::ration;

/// Whether these are runs at these addresses, of these lengths.
fn are(found: &[Piece], wanted: &[(u64, usize)]) -> bool {
    if found.len() != wanted.len() {
        return false;
    }
    for (run, wanted) in found.iter().zip(wanted.iter()) {
        if run.at != wanted.0 || run.bytes.as_slice().len() != wanted.1 {
            return false;
        }
    }
    true
}

/// What a dump reads as whose first window ends at a place.
fn dump_cut(alloc: Global, text: &[u8], place: usize) -> Result<Vec<Piece>, ReadFault> {
    let (front, rest) = text.split_at(place.min(text.len()));
    let mut read = DumpRead::new(&alloc)?;
    read.read_window(&alloc, front);
    read.read_window(&alloc, rest);
    read.finish(&alloc)
}

/// What plain hexadecimal reads as whose first window ends at a place.
fn plain_cut(alloc: Global, text: &[u8], place: usize) -> Result<Vec<u8>, ReadFault> {
    let (front, rest) = text.split_at(place.min(text.len()));
    let mut read = PlainRead::new(alloc);
    read.read_window(front);
    read.read_window(rest);
    read.finish()
}

/// The runs of a dump, as addresses and lengths, or its fault.
type Runs = Result<&'static [(u64, usize)], ReadFault>;

fn has_runs(alloc: Global, text: &[u8], place: usize, wanted: Runs) -> bool {
    let found = dump_cut(alloc, text, place);
    match (&found, wanted) {
        (Ok(found), Ok(wanted)) => are(found.as_slice(), wanted),
        (Err(found), Err(wanted)) => *found == wanted,
        _ => false,
    }
}

/// The bytes of plain hexadecimal, or its fault.
type Plain = Result<&'static [u8], ReadFault>;

fn has_bytes(alloc: Global, text: &[u8], place: usize, wanted: Plain) -> bool {
    let found = plain_cut(alloc, text, place);
    match (&found, wanted) {
        (Ok(found), Ok(wanted)) => found.as_slice() == wanted,
        (Err(found), Err(wanted)) => *found == wanted,
        _ => false,
    }
}

fn assert_runs(rt: &impl Abort, alloc: Global, text: &str, wanted: Runs) {
    for place in 0..text.len() + 1 {
        let right = has_runs(alloc, text.as_bytes(), place, wanted);
        assert!(rt; right, "of {text}");
    }
}

fn assert_bytes(rt: &impl Abort, alloc: Global, text: &str, wanted: Plain) {
    for place in 0..text.len() + 1 {
        let right = has_bytes(alloc, text.as_bytes(), place, wanted);
        assert!(rt; right, "of {text}");
    }
}

static DUMPS: [(&str, Runs); 5] = [
    ("0: 41\n1: 42 43\n\n*\n3: 44", Ok(&[(0, 4)])),
    ("8: 41\n0: 4142\n2: 43  x\n", Ok(&[(8, 1), (0, 3)])),
    ("0: 41\n1: 4g\n2 42\n", Err(ReadFault::BadPair { line: 2 })),
    ("0: 41\n1: 42\r\n", Err(ReadFault::BadPair { line: 2 })),
    ("0: 41\n\n5 42", Err(ReadFault::MissingColon { line: 3 })),
];

#[test]
fn dumps_cut_at_each_place(rt: HostRuntime) {
    for (text, wanted) in &DUMPS {
        assert_runs(&rt, rt.alloc(), text, *wanted);
    }
}

static DIGITS: [(&str, Plain); 3] = [
    ("4 1\r\n42\n4\n3", Ok(b"ABC")),
    ("41\n4\n\n", Err(ReadFault::OddDigits { line: 2 })),
    ("41\n4\nx4", Err(ReadFault::BadPair { line: 3 })),
];

#[test]
fn digits_cut_at_each_place(rt: HostRuntime) {
    for (text, wanted) in &DIGITS {
        assert_bytes(&rt, rt.alloc(), text, *wanted);
    }
}

/// A reader that gives a front and then a byte over and over, and then fails or ends.
#[derive(Drop)]
struct Long {
    front: &'static [u8],
    byte: u8,
    left: usize,
    fails: bool,
}

impl Read for Long {
    fn read(&mut self, buf: &mut [u8]) -> io::Result<usize> {
        if !self.front.is_empty() {
            return self.front.read(buf);
        }
        if self.left == 0 && self.fails {
            return Err(io::Error::from(ErrorKind::Other));
        }
        let count = buf.len().min(self.left);
        buf[..count].fill(self.byte);
        self.left -= count;
        Ok(count)
    }
}

/// A source of two windows of a digit, which then fails.
fn failing() -> Source<Long> {
    let long = Long {
        front: b"",
        byte: b'0',
        left: 131_072,
        fails: true,
    };
    Source::new(long, 1 << 40)
}

// Where memory is refused, that is answered, and a fault of the source behind it is never met.
#[test]
fn no_memory_ends_the_reading(rt: HostRuntime) -> Result<(), Fail> {
    let bump = ration(rt.alloc(), 1024)?;
    let dump = read_runs_from(&&bump, &mut failing());
    assert!(rt; matches!(dump, Err(IoFault::NoMemory)));
    let digits = read_plain_from(&bump, &mut failing(), 0);
    assert!(rt; matches!(digits, Err(IoFault::NoMemory)));
    Ok(())
}

// With memory enough the fault of the source is answered.
#[test]
fn a_failing_source_is_told(rt: HostRuntime) {
    let dump = read_runs_from(&rt.alloc(), &mut failing());
    assert!(rt; matches!(dump, Err(IoFault::ReadFailed)));
    let digits = read_plain_from(rt.alloc(), &mut failing(), 131_072);
    assert!(rt; matches!(digits, Err(IoFault::ReadFailed)));
}

/// Reads a line of 4 MiB without an end with 256 KiB of memory. Tells what stopped it.
fn long_line(alloc: Global, front: &'static [u8], byte: u8) -> Result<Option<ReadFault>, IoFault> {
    let bump = match ration(alloc, 262_144) {
        Ok(bump) => bump,
        Err(_) => return Err(IoFault::NoMemory),
    };
    let long = Long {
        front,
        byte,
        left: 4_194_304,
        fails: false,
    };
    match read_runs_from(&&bump, &mut Source::new(long, 1 << 40)) {
        Ok(Ok(_)) => Ok(None),
        Ok(Err(fault)) => Ok(Some(fault)),
        Err(fault) => Err(fault),
    }
}

// A text column without an end takes no memory, and nor does a line that can't be right any more.
#[test]
fn a_long_line_takes_little_memory(rt: HostRuntime) {
    let text = long_line(rt.alloc(), b"0: 41\n1: 42  ", b'x');
    assert!(rt; matches!(text, Ok(None)));
    let pair = long_line(rt.alloc(), b"0: 41\n1: 4g", b'4');
    assert!(rt; matches!(pair, Ok(Some(ReadFault::BadPair { line: 2 }))));
    let address = long_line(rt.alloc(), b"0", b'0');
    assert!(rt; matches!(address, Ok(Some(ReadFault::BadAddress { line: 1 }))));
}
