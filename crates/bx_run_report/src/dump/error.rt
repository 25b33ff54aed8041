//! Why a dump of a named file is not whole.
use bx_cli_commands::Fault;
use bx_world::Refusal;

/// Why a dump of a named file is not whole.
#[derive(Clone, Copy, Debug, PartialEq, Eq)]
pub enum DumpError {
    /// The file was not opened.
    Unopened(Refusal),
    /// The file was opened, and could not be placed behind the bytes that are skipped.
    Unplaced(Refusal),
    /// The dump stopped.
    Stopped(Fault),
}
