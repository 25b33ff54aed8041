//! dd with readers that give little or fail.
use crate::expected::{run_line, words};
use crate::sessions::{MemSession, open, run, trio};
use bx_cli::{Command, Fault, Reply};
use bx_dd::{Counts, DdFault};
use bx_journal::SessionFault;
use std::alloc::Global;
use std::io;
use std::io::{ErrorKind, Read};
use std::process::Abort;
use std::test::Fail;

/// A reader that is interrupted `interruptions` times before each read, gives at most `each` bytes a call, and fails once it has
/// given `fails_after`.
#[derive(Drop)]
pub struct Trickle<'a> {
    rest: &'a [u8],
    interruptions: u32,
    left: u32,
    each: usize,
    fails_after: usize,
}

impl<'a> Trickle<'a> {
    fn new(rest: &'a [u8], interruptions: u32, each: usize, fails_after: usize) -> Self {
        Trickle {
            rest,
            interruptions,
            left: interruptions,
            each,
            fails_after,
        }
    }
}

impl<'a> Read for Trickle<'a> {
    fn read(&mut self, buf: &mut [u8]) -> io::Result<usize> {
        if self.left > 0 {
            self.left -= 1;
            return Err(io::Error::from(ErrorKind::Interrupted));
        }
        self.left = self.interruptions;
        if self.fails_after == 0 {
            return Err(io::Error::from(ErrorKind::BrokenPipe));
        }
        let most = self.each.min(self.fails_after).min(buf.len());
        let count = self.rest.read(&mut buf[..most])?;
        self.fails_after = self.fails_after.saturating_sub(count);
        Ok(count)
    }
}

/// What dd has written of an input of eleven bytes, five at a time, when it fails.
fn written_by_fives(alloc: Global, line: &str, fails_after: usize) -> Vec<u8> {
    let mut from = Trickle::new(b"hello world", 0, 5, fails_after);
    let mut to = Vec::new(alloc);
    let _ = run_line(alloc, line, &mut from, &mut to);
    to
}

static WRITTEN: [(&str, usize, &str); 5] = [
    ("dd", 5, "hello"),
    ("dd conv=ucase", 10, "HELLO WORL"),
    ("dd skip=3 bs=1", 10, "lo worl"),
    ("dd bs=4 conv=swab", 5, "ehll"),
    ("dd bs=4 conv=swab", 10, "ehll oow"),
];

// What was read goes out before more is asked for: bytes, or whole blocks where their pairs matter.
#[test]
fn dd_writes_before_it_reads_on(rt: HostRuntime) {
    for (line, fails_after, wanted) in &WRITTEN {
        let written = written_by_fives(rt.alloc(), line, *fails_after);
        assert!(rt; written.as_slice() == wanted.as_bytes(), "not {wanted}");
    }
}

/// The interruptions before each of five bytes of input, the count of bytes behind which it fails, operands, and dd's reply.
type Copied = (u32, usize, &'static str, Reply);

const FAILED: Reply = Reply::Refused(Fault::Dd(DdFault::ReadFailed));

// A failed read refuses the command, and nothing was changed; the next command goes on: four bytes are enough for two blocks, behind
// which no byte is asked for; and a whole block and a part of one are copied. A thousand interruptions in a row are a failed read.
static COPIED: [Copied; 6] = [
    (1000, 100, "ibs=2", FAILED),
    (0, 0, "ibs=2", FAILED),
    (0, 3, "ibs=2", FAILED),
    (0, 5, "ibs=2", FAILED),
    (
        999,
        4,
        "bs=2 skip=1 count=1 seek=1 conv=notrunc",
        Reply::Copied {
            number: 1,
            counts: Counts {
                whole_in: 1,
                part_in: 0,
                whole_out: 1,
                part_out: 0,
                cut: 0,
            },
        },
    ),
    (
        999,
        100,
        "bs=4 conv=sync",
        Reply::Copied {
            number: 2,
            counts: Counts {
                whole_in: 1,
                part_in: 1,
                whole_out: 2,
                part_out: 0,
                cut: 0,
            },
        },
    ),
];

/// Runs dd on an image.
fn replied(
    alloc: Global,
    session: &mut MemSession,
    line: &str,
    input: Trickle<'_>,
) -> Result<Option<Reply>, Fault> {
    let operands = words(alloc, line)?;
    let replies = run(alloc, session, &mut [Command::Dd { operands, input }])?;
    Ok(replies.first().copied())
}

fn assert_copied(rt: &impl Abort, alloc: Global, session: &mut MemSession) {
    for (interruptions, fails_after, line, wanted) in &COPIED {
        let input = Trickle::new(b"abcde", *interruptions, 1, *fails_after);
        let reply = replied(alloc, session, line, input);
        assert!(rt; reply == Ok(Some(*wanted)), "of {line}");
    }
}

#[test]
fn slow_and_broken_inputs(rt: HostRuntime) -> Result<(), Fail> {
    let alloc = rt.alloc();
    let Ok((mut session, _)) = open(alloc, trio(alloc, (b"01234567", b"", b""))?) else {
        return Err(Fault::Session(SessionFault::Broken).into());
    };
    assert_copied(&rt, alloc, &mut session);
    let (image, _, _) = session.close();
    assert!(rt; image.as_slice() == b"abcde\0\0\0".as_slice());
    Ok(())
}
