//! What the dumps ask for: jobs that read one input and write one output.
ghost use Rattle.std.specs.Prelude.{◌≡◌, ◌≤◌, ◌^◌, None};
ghost use Rattle.bx_dd.specs.Parsing.{IsPlanOf};

use crate::Skip;
use bx_dd::Plan;
use bx_dump::hexdump::HexdumpOptions;
use bx_dump::od::OdOptions;
use bx_dump::strings::StringsOptions;
use bx_dump::xxd::XxdOptions;
use bx_text::{Name, Words};

/// The style of an `xxd` dump.
#[derive(Clone, Copy, Debug, PartialEq, Eq)]
pub enum XxdLook {
    /// Hexadecimal digits in groups, and the characters beside them.
    Normal,
    /// Hexadecimal digits alone.
    Plain,
    /// Binary digits, and the characters beside them.
    Bits,
    /// An array of C.
    Include,
    /// Hexadecimal digits alone, all on one line.
    Unbroken,
    /// As `Normal`, or as `Bits`, with addresses in decimal.
    Decimal {
        /// Whether bytes are binary digits.
        bits: bool,
    },
    /// As `Normal`, with each group as a little-endian number.
    Words {
        /// Whether addresses are decimal.
        decimal: bool,
    },
}

/// `od`: how and what it dumps.
#[derive(Drop)]
pub struct OdJob {
    /// How values and addresses are written, and the bytes that are dumped.
    pub options: OdOptions,
    /// The input's name; none is standard input.
    pub file: Option<Name>,
    /// The names of the files that are read behind it, as one input with it; `-` is standard input.
    pub more: Words,
}

/// `xxd`: how and what it dumps.
#[derive(Drop)]
pub struct XxdJob {
    /// The style of the dump.
    pub look: XxdLook,
    /// The columns, and the bytes that are dumped. At most 2^62 is added to an address.
    pub options: XxdOptions,
    /// How many bytes there are behind the place to begin at, where that counts from the end; the options then skip none.
    pub from_end: Option<u64>,
    /// The name of an array of C; none is that of the input.
    pub array: Option<Name>,
    /// The input's name; none is standard input.
    pub file: Option<Name>,
    ghost near: { options.shift ≤ 2 ^ 62 },
}

/// `hexdump -C`: what it dumps.
#[derive(Drop)]
pub struct HexdumpJob {
    /// The bytes that are dumped, and whether equal lines are folded.
    pub options: HexdumpOptions,
    /// The input's name; none is standard input.
    pub file: Option<Name>,
    /// The names of the files that are read behind it, as one input with it; `-` is standard input.
    pub more: Words,
}

/// `strings`: which runs it shows, and how.
#[derive(Drop)]
pub struct StringsJob {
    /// The fewest bytes of a run, and how its place is written.
    pub options: StringsOptions,
    /// Whether each line begins with the name of its file, a colon and a space.
    pub named: bool,
    /// The input's name; none is standard input.
    pub file: Option<Name>,
    /// The names of the files that are read behind it, each for itself; `-` is standard input.
    pub more: Words,
}

/// `dd` without `of=`: what its operands ask for, and the operands themselves. The output is a stream.
#[derive(Drop)]
pub struct DdJob {
    /// What the operands ask for.
    pub plan: Plan,
    /// The operands as they were given.
    pub operands: Words,
    ghost planned: { IsPlanOf operands plan },
    ghost streams: { plan.output ≡ None },
}

/// A job that reads one input and writes one output.
#[derive(Drop)]
pub enum DumpJob {
    /// Dumps as `od` does.
    Od(OdJob),
    /// Dumps as `xxd` does.
    Xxd(XxdJob),
    /// Dumps as `hexdump` does.
    Hexdump(HexdumpJob),
    /// Shows the printable runs.
    Strings(StringsJob),
    /// Copies to a stream.
    Dd(DdJob),
}

impl DumpJob {
    ghost use Rattle.bx_cli_commands.specs.jobs.Passing.{input_of, skip_of};

    /// The input's name; none is standard input.
    pub fn input(&self) -> &Option<Name>
        ensures { result.now ≡ input_of self.now }
    {
        match self {
            DumpJob::Od(job) => &job.file,
            DumpJob::Xxd(job) => &job.file,
            DumpJob::Hexdump(job) => &job.file,
            DumpJob::Strings(job) => &job.file,
            DumpJob::Dd(job) => &job.plan.input,
        }
    }

    /// What it skips of its input.
    pub fn skip(&self) -> Skip
        ensures { result ≡ skip_of self.now }
    {
        match self {
            DumpJob::Od(job) => Skip::Bytes {
                count: job.options.skip,
                first: job.options.first,
            },
            DumpJob::Xxd(job) => Skip::Bytes {
                count: job.options.seek,
                first: 0,
            },
            DumpJob::Hexdump(job) => Skip::Bytes {
                count: job.options.skip,
                first: job.options.first,
            },
            DumpJob::Strings(_) => Skip::Bytes { count: 0, first: 0 },
            DumpJob::Dd(job) => Skip::Blocks {
                count: job.plan.skip,
                size: job.plan.ibs,
            },
        }
    }
}
