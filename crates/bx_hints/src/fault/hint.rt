//! What a person can act on behind the text of a fault.
ghost use Rattle.std.specs.Prelude.{◌≡◌, [], OnOk, IfSome, string_bytes};
ghost use Rattle.bx_patch.specs.declared.read.fault.PatchFault.TheVariants as patch;
ghost use Rattle.bx_hints.specs.Hint.{advice_of, completed, hint_of, with_between, hint_rest};

use bx_cli_commands::Fault;
use bx_dd::DdFault;
use bx_journal::SessionFault;
use bx_patch::PatchFault;
use bx_read::ReadFault;
use bx_text::IoFault;
use std::alloc::{AllocError, Allocator};

/// What is known of a fault beside its text. Each is empty where nothing is known.
#[derive(Clone, Copy)]
pub struct Known<'a> {
    /// The word or the file at fault.
    pub subject: &'a str,
    /// Why it is at fault, as the system says.
    pub reason: &'a str,
    /// What stands behind the name of the command that is advised, a space before each word: of `truncate -s` the length and
    /// the image, of any other its options and the image.
    pub words: &'a str,
    /// How the command is called.
    pub usage: &'a str,
}

/// What can be done about a fault of its kind, up to the name of a command where it gives one; empty where there is nothing to
/// say.
fn advice(fault: Fault) -> &'static str
    ensures { result.now ≡ advice_of fault }
{
    match fault {
        Fault::Io(fault) => io_advice(fault),
        Fault::Read(fault) => read_advice(fault),
        Fault::Behind { .. } => {
            "a stream is written from front to end; onto a file lines may go back: bx xxd -r DUMP OUT"
        }
        Fault::Dd(fault) => dd_advice(fault),
        Fault::Patch(fault) => patch_advice(fault),
        Fault::Disagrees(_) => "the patch is of another image, or was applied before",
        Fault::NotReversible => {
            "each byte that it writes or cuts off has to stand in a '-' line too, and lines in the order of addresses"
        }
        Fault::NothingToWrite => "the input was read to its end, and has no byte",
        Fault::Session(fault) => session_advice(fault),
        Fault::Grows { .. } => "without --no-grow it may get longer",
        Fault::ChangedSince => {
            "--anyway goes on all the same, and --fresh of the command that writes it begins a new history; see bx show -d"
        }
        Fault::Usage | Fault::OpenFailed => "",
    }
}

fn io_advice(fault: IoFault) -> &'static str
    ensures { result.now ≡ advice_of (Fault.Io fault) }
{
    match fault {
        IoFault::InputTooLong => "at most 1099511627776 bytes are read",
        IoFault::SkipPastEnd => "give a smaller -j",
        _ => "",
    }
}

fn read_advice(fault: ReadFault) -> &'static str
    ensures { result.now ≡ advice_of (Fault.Read fault) }
{
    match fault {
        ReadFault::BadAddress { .. } | ReadFault::MissingColon { .. } => {
            "a line is like '00000002: 7879'; for digits alone give -p"
        }
        ReadFault::BadPair { .. } => {
            "bytes are pairs of digits, with at most one space between two; under -p there are digits and white space alone"
        }
        ReadFault::NoData { .. } => "digits follow the colon, behind at most one space",
        ReadFault::AddressTooLarge { .. } => "addresses are below 4611686018427387904",
        ReadFault::OddDigits { .. } => "each byte is two digits",
        _ => "",
    }
}

fn dd_advice(fault: DdFault) -> &'static str
    ensures { result.now ≡ advice_of (Fault.Dd fault) }
{
    match fault {
        DdFault::InputTooLong => "at most 1099511627776 bytes are read",
        DdFault::UnknownOperand(_) => "bx dd --help lists the operands and the conversions",
        DdFault::BadNumber(_) =>
            "a number is decimal; behind it b (512), k or K (1024), M, G or T may stand, and of BYTES kB (1000), KiB and so on",
        DdFault::ZeroSize(_) =>
            "a size is at least 1, and a product such as 0x4 is 0: give numbers in decimal",
        DdFault::Conflict => "give one of block and unblock, and one of lcase and ucase",
        DdFault::MissingCbs => "block and unblock want cbs=BYTES",
        DdFault::SeekWithoutOutput => "give of=IMAGE too",
        _ => "",
    }
}

fn patch_advice(fault: PatchFault) -> &'static str
    ensures { result.now ≡ advice_of (Fault.Patch fault) }
{
    match fault {
        PatchFault::Line(fault) => patch_line_advice(fault),
        PatchFault::OfNoKind { .. } => {
            "bx patch reads what bx diff writes: 'length 8 to 10' before all other lines, and lines like '+00000002: 7879'"
        }
        PatchFault::NoEnd => {
            "bx diff writes 'end N' last: what stops before that isn't whole; by hand a line 'end' will do"
        }
        PatchFault::BadCount { .. } => {
            "the last line counts those before it: one was lost or put in; by hand 'end' alone will do"
        }
        PatchFault::BadLength { .. } => "it is like 'length 8 to 10', in decimal",
        PatchFault::PastLength { .. } =>
            "the first line says how long the image is before and after",
        PatchFault::NoMemory => "",
    }
}

fn patch_line_advice(fault: ReadFault) -> &'static str
    ensures { result.now ≡ advice_of (Fault.Patch (patch.Line fault)) }
{
    match fault {
        ReadFault::BadAddress { .. } | ReadFault::MissingColon { .. } => {
            "a line is like '+00000002: 7879'"
        }
        ReadFault::BadPair { .. } => {
            "bytes are pairs of digits, with at most one space between two"
        }
        ReadFault::NoData { .. } => "digits follow the colon, behind at most one space",
        ReadFault::AddressTooLarge { .. } => "addresses are below 4611686018427387904",
        ReadFault::NoMemory | ReadFault::TooWide { .. } | ReadFault::OddDigits { .. } => "",
    }
}

fn session_advice(fault: SessionFault) -> &'static str
    ensures { result.now ≡ advice_of (Fault.Session fault) }
{
    match fault {
        SessionFault::NoMemory => {
            "a change, and what an undo or a redo takes back, are held in memory: CAVEATS in man bx has a way without"
        }
        SessionFault::TooLarge => "an image has at most 281474976710655 bytes",
        SessionFault::DeviceFailed => "nothing was changed",
        SessionFault::Damaged { .. } => {
            "repair that line, or move the journal and the redo file away (their undo history is lost)"
        }
        SessionFault::TooFew { .. } => "bx log",
        SessionFault::JournalFull =>
            "bx forget accepts all changes, and nothing can be undone then",
        SessionFault::Interrupted =>
            "each command on the image but bx show first takes back or drops what was begun; look by bx show",
        SessionFault::LengthDiffers { .. } => {
            "it may have another journal; where its length alone was changed, truncate -s"
        }
        SessionFault::NothingToRedo { .. } => {
            "a change that is no redo gives up what was undone, and a journal that is moved takes its redo file along"
        }
        SessionFault::RedoDamaged { .. } =>
            "move the redo file away to go on (what was undone is lost)",
        _ => "",
    }
}

/// What stands behind the words of the command that is advised; empty where none is.
fn rest(fault: Fault) -> &'static str
    ensures { result.now ≡ hint_rest fault }
{
    match fault {
        Fault::Session(SessionFault::TooFew { .. }) => " lists the changes",
        Fault::Session(SessionFault::Interrupted) => ", which writes nothing",
        Fault::ChangedSince => ", which writes nothing",
        Fault::Session(SessionFault::LengthDiffers { .. }) => {
            " gives that back; or bx forget accepts it as it is (the undo history is lost)"
        }
        _ => "",
    }
}

/// Puts the words of a command behind its name, and then the rest.
fn push_rest<A: Allocator>(text: &mut String<A>, words: &str, rest: &str) -> Result<(), AllocError>
    ensures { OnOk result (string_bytes text.new ≡ completed (string_bytes text.old) words.now rest.now) }
{
    if rest.is_empty() {
        return Ok(());
    }
    text.push_str(words)?;
    text.push_str(rest)
}

/// Puts a part behind those before it.
fn push_part<A: Allocator>(
    text: &mut String<A>,
    between: &str,
    part: &str,
) -> Result<(), AllocError>
    ensures { OnOk result (string_bytes text.new ≡ with_between (string_bytes text.old) between.now part.now) }
{
    if part.is_empty() {
        return Ok(());
    }
    if !text.is_empty() {
        text.push_str(between)?;
    }
    text.push_str(part)
}

/// All parts of a hint.
fn push_parts<A: Allocator>(
    text: &mut String<A>,
    fault: Fault,
    known: &Known<'_>,
) -> Result<(), AllocError>
    requires { string_bytes text.old ≡ [] }
    ensures { OnOk result (string_bytes text.new ≡ hint_of fault known.now) }
{
    push_part(text, "", known.subject)?;
    push_part(text, ": ", known.reason)?;
    push_part(text, "; ", advice(fault))?;
    push_rest(text, known.words, rest(fault))?;
    push_part(text, "; ", known.usage)
}

/// What a person can act on behind the text of a fault: what is at fault and why, what can be done, and how the command is
/// called. None where there is nothing to say, or no memory for it.
pub fn hint_text<A: Allocator>(alloc: A, fault: Fault, known: &Known<'_>) -> Option<String<A>>
    ensures text { IfSome result (λ text. string_bytes text ≡ hint_of fault known.now) }
    ensures none { hint_of fault known.now ≡ [] → result ≡ None }
{
    let mut text = String::new(alloc);
    match push_parts(&mut text, fault, known) {
        Ok(()) if !text.is_empty() => Some(text),
        _ => None,
    }
}
