//! The standard streams that were closed.
use bx_cli::Fault;
use bx_system::System;
use std::fs::File;
use std::os::fd::AsRawFd;

/// The highest number of a standard stream.
const LAST: i32 = 2;

/// What holds the numbers of the standard streams that were closed, so that no other file gets one of them: the null device,
/// for writing alone in the place of standard input and for reading alone in the place of the outputs. So each use of such a
/// stream fails, as on a closed one.
#[derive(Drop)]
pub struct Held {
    input: Option<File>,
    output: Option<File>,
    errors: Option<File>,
}

/// The null device, where it takes this number. A file that is opened takes the least number that is free.
fn hold<R: System>(rt: &R, number: i32) -> Result<Option<File>, Fault> {
    let mut how = File::options();
    if number == 0 {
        how.write(true);
    } else {
        how.read(true);
    }
    match how.open(rt, "/dev/null") {
        Ok(file) => Ok((file.as_raw_fd() == number).then_some(file)),
        Err(_) => Err(Fault::OpenFailed),
    }
}

/// Whether all three are open, asked by another file.
fn are_open<R: System>(rt: &R) -> bool {
    // A file that is opened takes the least number that is free, so one call tells of all three; a folder is always there.
    File::open(rt, "/").is_ok_and(|file| file.as_raw_fd() > LAST)
}

impl Held {
    /// Holds the number of each standard stream that is closed. It comes before any other file is opened.
    ///
    /// # Errors
    /// `OpenFailed` where one is closed and the null device can't be opened.
    pub fn new<R: System>(rt: &R) -> Result<Held, Fault> {
        if are_open(rt) {
            return Ok(Held {
                input: None,
                output: None,
                errors: None,
            });
        }
        let input = hold(rt, 0)?;
        let output = hold(rt, 1)?;
        let errors = hold(rt, LAST)?;
        Ok(Held {
            input,
            output,
            errors,
        })
    }
}
