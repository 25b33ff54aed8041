//! Why the patch that a change would be is not whole.
use bx_cli_commands::Fault;
use bx_patch::DiffFault;
use bx_world::OpenFailure;

/// Why the patch that a change would be is not whole.
#[derive(Clone, Copy, Debug, PartialEq, Eq)]
pub enum PreviewError {
    /// The image was not opened.
    Unopened(OpenFailure),
    /// The change is refused.
    Refused(Fault),
    /// The image is a block device, which keeps its length, and the change makes it longer.
    Unfitting {
        /// Its length.
        has: u64,
        /// The length that the change wants.
        wanted: u64,
    },
    /// The comparison stopped.
    Stopped(DiffFault),
}
