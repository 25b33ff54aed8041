//! Files of the system, read and written at addresses.
ghost use Rattle.std.specs.Prelude.{◌≡◌, [], IfErr, IfOk, OnOk, OnErr, Ok, None, Some, is_err, true};
ghost use Rattle.std.specs.IoError.{raw_os_error};
ghost use Rattle.bx_image.specs.System.{name_of};

use crate::device::access::{RandomAccess, Stop};
use std::fs::File;
use std::io::{self, Seek, SeekFrom};
use std::os::unix::fs::FileExt;

/// What the system is asked for by a call of a file.
#[derive(Clone, Copy, Debug, PartialEq, Eq)]
pub enum Operation {
    /// How long the file is, by a seek to its end.
    Size,
    /// Some of its bytes.
    Read,
    /// To take some bytes.
    Write,
    /// To have another length.
    Resize,
    /// To put all that was written on the disk.
    Sync,
}

impl Operation {
    /// What the system calls it.
    pub fn name(self) -> &'static str
        ensures { result.now ≡ name_of self }
    {
        match self {
            Operation::Size => "lseek",
            Operation::Read => "pread",
            Operation::Write => "pwrite",
            Operation::Resize => "ftruncate",
            Operation::Sync => "fsync",
        }
    }
}

/// A call of a file that the system refused.
#[derive(Clone, Copy, Debug, PartialEq, Eq)]
pub struct FailedCall {
    /// What was asked for.
    pub operation: Operation,
    /// The system's number of the error; none where it has no number.
    pub error: Option<i32>,
}

/// A file of the system, or a block device, with its last call that failed.
#[derive(Drop)]
pub struct SystemFile {
    /// The file.
    pub file: File,
    /// The last call that failed; none where none did.
    pub failed: Option<FailedCall>,
    /// Whether `sync` waits until the disk has all; else it does nothing.
    pub waits: bool,
}

impl SystemFile {
    /// The file; no call of it has failed yet.
    pub fn new(file: File) -> Self
        ensures { result ≡ record { file = file; failed = None; waits = true } }
    {
        SystemFile {
            file,
            failed: None,
            waits: true,
        }
    }

    // The outcome of a call. One that failed is kept.
    fn kept<T>(&mut self, operation: Operation, outcome: io::Result<T>) -> Result<T, Stop>
        ensures value { IfOk outcome (λ v. result ≡ Ok v) }
        ensures stop { OnErr outcome (is_err result ≡ true) }
        ensures failed { IfErr outcome (λ e. self.new.failed ≡ Some (record { operation = operation; error = raw_os_error e })) }
        ensures stays { OnOk outcome (self.new ≡ self.old) }
    {
        match outcome {
            Ok(value) => Ok(value),
            Err(error) => {
                self.failed = Some(FailedCall {
                    operation,
                    error: error.raw_os_error(),
                });
                Err(Stop::from(error))
            }
        }
    }
}

/// Its length is where a seek to its end comes to, and bringing it to the length that it has does nothing: so a block device
/// serves, which has no other length. What a file gives back is known to no proof, so it never counts as faithful here.
impl RandomAccess for SystemFile {
    ghost content = { λ _. [] };

    ghost faithful = { λ _. ⊥ };

    ghost survives = { λ _ _. ⊥ };

    ghost within = { λ f faithful. absurd faithful };

    ghost present = { λ f faithful. absurd faithful };

    fn size(&mut self) -> Result<u64, Stop> {
        let outcome = self.file.seek(SeekFrom::End(0));
        self.kept(Operation::Size, outcome)
    }

    fn read_some(&mut self, at: u64, buf: &mut [u8]) -> Result<usize, Stop> {
        let outcome = self.file.read_at(buf, at);
        self.kept(Operation::Read, outcome)
    }

    fn write_some(&mut self, at: u64, bytes: &[u8]) -> Result<usize, Stop> {
        let outcome = self.file.write_at(bytes, at);
        self.kept(Operation::Write, outcome)
    }

    fn resize(&mut self, n: u64) -> Result<(), Stop> {
        if RandomAccess::size(self)? == n {
            return Ok(());
        }
        let outcome = self.file.set_len(n);
        self.kept(Operation::Resize, outcome)
    }

    fn sync(&mut self) -> Result<(), Stop> {
        if !self.waits {
            return Ok(());
        }
        let outcome = self.file.sync_all();
        self.kept(Operation::Sync, outcome)
    }
}
