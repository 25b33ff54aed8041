//! What a dump or a copy reads: FILE, moved by a seek past bytes that are skipped, or standard input.
ghost use Rattle.std.specs.Prelude.{◌≡◌, IfOk};
ghost use Rattle.bx_cli_commands.specs.jobs.Passing.{CanPass};

use bx_cli::{Fault, Skip};
use bx_hints::{STANDARD_INPUT, Stopped};
use bx_system::{System, fixed_length, open_there};
use bx_text::{IoFault, Name};
use std::fs::{File, Metadata};
use std::io::{self, Read, Seek, SeekFrom};
use std::os::unix::fs::FileTypeExt;

/// The most bytes of a dump or a patch that is read.
pub const MOST_INPUT: u64 = 1 << 40;

/// Whether a file has a place for each of its bytes: a regular file or a block device.
fn has_places(file: io::Result<Metadata>) -> bool {
    match file {
        Ok(file) => file.file_type().is_file() || file.file_type().is_block_device(),
        Err(_) => false,
    }
}

/// FILE, or standard input.
#[derive(Drop)]
pub enum Reader<S: Drop> {
    /// FILE, which is open.
    File(File),
    /// Standard input.
    Standard(S),
}

impl<S: Read + Drop> Read for Reader<S> {
    fn read(&mut self, buf: &mut [u8]) -> io::Result<usize> {
        match self {
            Reader::File(file) => file.read(buf),
            Reader::Standard(reader) => reader.read(buf),
        }
    }
}

/// An input, and how many of its bytes a seek passed.
#[derive(Drop)]
pub struct Placed<'a, R: System> {
    /// What is said of it: its name, or what stands for one.
    pub name: &'a str,
    /// What gives the bytes behind them.
    pub reader: Reader<R::Reader>,
    /// How many were passed: some of those that are skipped.
    pub passed: u64,
    /// How many are left behind them, where that is known.
    pub left: Option<u64>,
}

impl<R: System> Placed<'_, R> {
    /// How many bytes are read where a job reads at most `limit`, as far as either is known.
    pub fn most(&self, limit: Option<u64>) -> Option<u64> {
        match (limit, self.left) {
            (Some(limit), Some(left)) => Some(limit.min(left)),
            (limit, left) => limit.or(left),
        }
    }
}

/// Standard input, from where it stands; `passed` bytes count as passed.
fn standard<R: System>(rt: &R, passed: u64) -> Placed<'static, R>
    ensures { result.passed ≡ passed }
{
    Placed {
        name: STANDARD_INPUT,
        reader: Reader::Standard(rt.reader()),
        passed,
        left: None,
    }
}

/// The whole of FILE, or of standard input where none is named.
pub fn whole<'a, R: System>(rt: &R, name: &'a Option<Name>) -> Result<Placed<'a, R>, Stopped<'a>> {
    match name {
        Some(name) => whole_file(rt, name),
        None => Ok(standard(rt, 0)),
    }
}

/// The whole of FILE.
pub fn whole_file<'a, R: System>(rt: &R, name: &'a Name) -> Result<Placed<'a, R>, Stopped<'a>> {
    let file = open(rt, name)?;
    let left = size_of(rt, name.as_str(), &file);
    Ok(Placed {
        name: name.as_str(),
        reader: Reader::File(file),
        passed: 0,
        left,
    })
}

/// A file that is only read, from its first byte on.
fn open<'a, R: System>(rt: &R, name: &'a Name) -> Result<File, Stopped<'a>> {
    match File::open(rt, name.as_str()) {
        Ok(file) => Ok(file),
        Err(error) => Err(Stopped::unopened(name.as_str(), error)),
    }
}

/// FILE behind the bytes that are skipped and a seek can pass; or where none is named standard input, which has no seek: what is
/// skipped is read.
pub fn behind_skip<'a, R: System>(
    rt: &R,
    skip: Skip,
    name: &'a Option<Name>,
) -> Result<Placed<'a, R>, Stopped<'a>>
    ensures { IfOk result (λ input. CanPass input.passed skip) }
{
    let Some(name) = name else {
        // The kit has no seek for it, a file there too; `/dev/stdin` opened anew would begin at its first byte.
        return Ok(standard(rt, skip.seekable(0)));
    };
    let file = open(rt, name)?;
    let movable = has_places(file.metadata());
    let length = size_of(rt, name.as_str(), &file);
    place(file, skip, name.as_str(), movable, length)
}

/// How many bytes a regular file or a block device of this name has; none of another one, or where it doesn't tell. The file
/// stays where it stands: a device is opened once more, since only a seek tells its length.
fn size_of<R: System>(rt: &R, name: &str, file: &File) -> Option<u64> {
    let found = file.metadata().ok()?;
    let kind = found.file_type();
    if kind.is_file() {
        Some(found.len())
    } else if kind.is_block_device() {
        fixed_length(&open_there(rt, name, false).ok()?).ok()?
    } else {
        None
    }
}

/// Places a file, where it can be moved. A seek that fails on the way is a read that does.
fn place<'a, R: System>(
    mut file: File,
    skip: Skip,
    name: &'a str,
    movable: bool,
    length: Option<u64>,
) -> Result<Placed<'a, R>, Stopped<'a>>
    ensures { IfOk result (λ input. CanPass input.passed skip) }
{
    if !movable || skip.seekable(u64::MAX) == 0 {
        return Ok(Placed {
            name,
            reader: Reader::File(file),
            passed: skip.seekable(0),
            left: length,
        });
    }
    match pass(&mut file, skip) {
        Ok(passed) => Ok(Placed {
            name,
            reader: Reader::File(file),
            passed,
            left: length.map(|length| length.saturating_sub(passed)),
        }),
        Err(error) => {
            let stopped = Stopped::from(Fault::Io(IoFault::ReadFailed));
            Err(stopped.on_input(name, error.raw_os_error()))
        }
    }
}

/// Moves a reader behind the bytes that are skipped, as far as its input goes, and answers how many it passed. One that
/// can't be moved stays where it stands, and passes none.
fn pass<S: Seek>(reader: &mut S, skip: Skip) -> io::Result<u64>
    ensures { IfOk result (λ passed. CanPass passed skip) }
{
    let Ok(at) = reader.seek(SeekFrom::Current(0)) else {
        return Ok(skip.seekable(0));
    };
    let Ok(end) = reader.seek(SeekFrom::End(0)) else {
        return Ok(skip.seekable(0));
    };
    let passed = skip.seekable(end.saturating_sub(at));
    reader.seek(SeekFrom::Start(at.saturating_add(passed)))?;
    Ok(passed)
}
