//! What the system said as it refused a call.
use bx_world::Refusal;
use std::io::{self, ErrorKind};

/// The refusal of a call of a file that is there, by the system's number.
pub fn refused(error: io::Error) -> Refusal {
    Refusal::Other(error.raw_os_error())
}

/// The refusal of an opening, which may be that no file has the name.
pub fn unopened(error: io::Error) -> Refusal {
    match error.kind() {
        ErrorKind::NotFound => Refusal::Missing,
        _ => refused(error),
    }
}

/// The refusal of a making, which may be that the name is taken.
pub fn unmade(error: io::Error) -> Refusal {
    match error.kind() {
        ErrorKind::AlreadyExists => Refusal::Taken,
        _ => refused(error),
    }
}
