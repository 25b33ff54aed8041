//! The numbers and texts of all faults.
use bx_cli::Fault;
use bx_dd::DdFault;
use bx_journal::SessionFault;
use bx_patch::{Other, PatchFault};
use bx_read::ReadFault;
use bx_text::IoFault;
use std::alloc::Global;

fn shows(alloc: Global, fault: Fault, text: &str) -> bool {
    match format!(in alloc; "{fault}") {
        Ok(shown) => shown.as_str() == text,
        Err(_) => false,
    }
}

// What several crates have has one number and one text.
static FAULTS: [(Fault, u8, &str); 51] = [
    (Fault::Io(IoFault::NoMemory), 1, "out of memory"),
    (Fault::Io(IoFault::ReadFailed), 2, "read failed"),
    (
        Fault::Io(IoFault::WriteFailed { written: 20 }),
        3,
        "write failed after 20 bytes",
    ),
    (Fault::Io(IoFault::InputTooLong), 4, "input too long"),
    (
        Fault::Io(IoFault::SkipPastEnd),
        5,
        "skip is past the end of the input",
    ),
    (Fault::Read(ReadFault::NoMemory), 1, "out of memory"),
    (Fault::Dd(DdFault::NoMemory), 1, "out of memory"),
    (Fault::Session(SessionFault::NoMemory), 1, "out of memory"),
    (Fault::Patch(PatchFault::NoMemory), 1, "out of memory"),
    (
        Fault::Patch(PatchFault::Line(ReadFault::BadPair { line: 2 })),
        12,
        "line 2: bad pair",
    ),
    (
        Fault::Patch(PatchFault::OfNoKind { line: 1 }),
        17,
        "line 1: not a line of a patch",
    ),
    (
        Fault::Patch(PatchFault::BadLength { line: 3 }),
        18,
        "line 3: bad length",
    ),
    (
        Fault::Patch(PatchFault::PastLength { line: 4 }),
        19,
        "line 4: past the length",
    ),
    (Fault::Patch(PatchFault::NoEnd), 28, "the patch has no end"),
    (
        Fault::Patch(PatchFault::BadCount { line: 5 }),
        35,
        "line 5: bad count of lines",
    ),
    (Fault::NotReversible, 29, "the patch can't be turned round"),
    (Fault::NothingToWrite, 32, "nothing to write"),
    (
        Fault::Disagrees(Other::Bytes {
            at: 18446744073709551615,
        }),
        34,
        "the image has other bytes at 18446744073709551615",
    ),
    (
        Fault::Disagrees(Other::Length { expected: 8 }),
        45,
        "image should have 8 bytes",
    ),
    (Fault::Dd(DdFault::ReadFailed), 2, "read failed"),
    (Fault::Dd(DdFault::InputTooLong), 4, "input too long"),
    (
        Fault::Read(ReadFault::BadAddress { line: 1 }),
        10,
        "line 1: bad address",
    ),
    (
        Fault::Read(ReadFault::MissingColon { line: 3 }),
        11,
        "line 3: missing colon",
    ),
    (
        Fault::Read(ReadFault::BadPair { line: 2 }),
        12,
        "line 2: bad pair",
    ),
    (
        Fault::Read(ReadFault::NoData { line: 4 }),
        13,
        "line 4: no bytes",
    ),
    (
        Fault::Read(ReadFault::TooWide {
            line: 18446744073709551615,
        }),
        14,
        "line 18446744073709551615: more than 256 bytes",
    ),
    (
        Fault::Read(ReadFault::AddressTooLarge { line: 10 }),
        15,
        "line 10: address too large",
    ),
    (
        Fault::Read(ReadFault::OddDigits { line: 7 }),
        16,
        "line 7: odd number of digits",
    ),
    (
        Fault::Behind { line: 4 },
        36,
        "line 4: goes back in a stream",
    ),
    (
        Fault::Dd(DdFault::UnknownOperand(1)),
        20,
        "operand 1: unknown",
    ),
    (
        Fault::Dd(DdFault::BadNumber(2)),
        21,
        "operand 2: bad number",
    ),
    (
        Fault::Dd(DdFault::NumberTooLarge(1)),
        22,
        "operand 1: number too large",
    ),
    (Fault::Dd(DdFault::ZeroSize(3)), 23, "operand 3: zero size"),
    (Fault::Dd(DdFault::Conflict), 24, "conflicting conversions"),
    (Fault::Dd(DdFault::MissingCbs), 25, "cbs is missing"),
    (
        Fault::Dd(DdFault::Repeated(2)),
        26,
        "operand 2: given twice",
    ),
    (
        Fault::Dd(DdFault::SeekWithoutOutput),
        27,
        "seek needs an output file",
    ),
    (
        Fault::Session(SessionFault::TooLarge),
        30,
        "image too large",
    ),
    (
        Fault::Session(SessionFault::DeviceFailed),
        31,
        "device failed",
    ),
    (
        Fault::Session(SessionFault::Damaged { line: 5 }),
        40,
        "journal line 5 is damaged",
    ),
    (
        Fault::Session(SessionFault::TooFew { have: 3 }),
        41,
        "only 3 changes to undo",
    ),
    (
        Fault::Session(SessionFault::JournalFull),
        42,
        "journal is full",
    ),
    (
        Fault::Session(SessionFault::Interrupted),
        43,
        "interrupted: open again to recover",
    ),
    (
        Fault::Session(SessionFault::Broken),
        44,
        "session is broken",
    ),
    (
        Fault::Session(SessionFault::LengthDiffers { expected: 8 }),
        45,
        "image should have 8 bytes",
    ),
    (
        Fault::Session(SessionFault::NothingToRedo { have: 3 }),
        46,
        "only 3 changes to redo",
    ),
    (
        Fault::Session(SessionFault::RedoDamaged { line: 5 }),
        47,
        "redo line 5 is damaged",
    ),
    (Fault::ChangedSince, 48, "the image was changed since"),
    (
        Fault::Grows { has: 8, wanted: 10 },
        49,
        "the image would get longer",
    ),
    (Fault::Usage, 50, "bad arguments"),
    (Fault::OpenFailed, 51, "cannot open file"),
];

#[test]
fn fault_texts(rt: HostRuntime) {
    for (fault, number, text) in &FAULTS {
        let right = fault.number() == *number && shows(rt.alloc(), *fault, text);
        assert!(rt; right, "no {text}");
    }
}
