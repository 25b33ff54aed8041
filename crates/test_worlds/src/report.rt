//! What a play that isn't right tells.
use std::alloc::AllocError;

/// Why a play can't be called right.
#[derive(Clone, Copy, Debug, PartialEq, Eq)]
pub enum Wrong {
    /// A growth was refused.
    NoMemory,
    /// The cases can't be read, or ask for what can't be played.
    Unknown,
    /// The command ended otherwise than the case tells, or than may be where a call fails.
    Outcome,
    /// Something else was written to standard output or standard error.
    Streams,
    /// One of the three files, or the other one, holds something else.
    Files,
    /// Files weren't opened, and the system had refused nothing.
    Unopened,
    /// What was left opens to another image, or not at all.
    Found,
    /// A command that was refused for a call that failed isn't done where it is asked for again.
    Again,
    /// A call fails still behind the most that a case makes.
    Calls,
}

impl Wrong {
    pub fn text(self) -> &'static str {
        match self {
            Wrong::NoMemory => "out of memory",
            Wrong::Unknown => "can't be played",
            Wrong::Outcome => "another outcome",
            Wrong::Streams => "other bytes on a stream",
            Wrong::Files => "other files",
            Wrong::Unopened => "not opened, and nothing refused",
            Wrong::Found => "opens to another image",
            Wrong::Again => "not done when asked again",
            Wrong::Calls => "too many calls",
        }
    }
}

impl From<AllocError> for Wrong {
    fn from(_: AllocError) -> Self {
        Wrong::NoMemory
    }
}

impl From<bx_text::NoMemory> for Wrong {
    fn from(_: bx_text::NoMemory) -> Self {
        Wrong::NoMemory
    }
}

/// A play that isn't right: in which way calls fail, from which one on, and why.
#[derive(Clone, Copy, Debug, PartialEq, Eq)]
pub struct Failure {
    pub way: u32,
    pub call: u64,
    pub wrong: Wrong,
}
