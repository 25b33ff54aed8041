//! What is asked for: a command on named files.
use bx_cli_commands::DumpJob;
use bx_journal::Direction;
use bx_patch::Extent;
use bx_run_report::Report;
use bx_run_session::Edit;
use bx_world::{Guard, Names};
use std::io::Empty;

/// A command on named files. `R` is what dd reads, and a dump of no named file.
pub enum Request<'a, R = Empty> {
    /// Takes the last changes back, or makes those undone last again: `undo`, `redo`.
    Move {
        /// The files of the image.
        names: &'a Names,
        /// What it may do.
        guard: Guard,
        /// Back or again.
        way: Direction,
        /// How many changes are moved.
        count: u32,
    },
    /// Changes an image, which is made where it is missing, as its texts are: `revert`, `patch`, `dd of=`.
    Change {
        /// The files of the image.
        names: &'a Names,
        /// What it may do.
        guard: Guard,
        /// What is asked of the image.
        edit: Edit<R>,
    },
    /// Recovers what is unfinished of an image, which is an undo of no change that writes no number. Texts that were missing stay so.
    Recover {
        /// The files of the image.
        names: &'a Names,
        /// What it may do.
        guard: Guard,
    },
    /// Writes what a job makes of a file: `od`, `xxd`, `hexdump`, `strings`, `dd`.
    Dump {
        /// The job.
        job: &'a DumpJob,
        /// The file.
        name: &'a str,
    },
    /// The same of an input, from where it stands: it has no seek, and what is skipped is read.
    DumpInput {
        /// The job.
        job: &'a DumpJob,
        /// The input.
        input: R,
    },
    /// Writes the patch from one file to another: `diff`.
    Diff {
        /// The file that the patch is for.
        old: &'a str,
        /// What the patch makes of it.
        new: &'a str,
        /// What of a row has lines.
        extent: Extent,
    },
    /// Writes the patch that a change would be, and makes none: `-n` of `revert`, `patch` and `dd of=`.
    Preview {
        /// The image.
        name: &'a str,
        /// What is asked of the image.
        edit: Edit<R>,
    },
    /// Writes a report of the changes of an image: `log`, `show`.
    Look {
        /// The files of the image.
        names: &'a Names,
        /// What is reported.
        report: Report,
    },
    /// Drops the history of an image, which is only read: `forget`.
    Forget {
        /// The files of the image.
        names: &'a Names,
        /// What it may do.
        guard: Guard,
    },
    /// Changes an image with whose change the history begins anew: what is unfinished is recovered onto an image that the note tells to be
    /// the one, the history is dropped, and the change is made on the image alone: `--fresh`. Where both texts are missing, there is none
    /// to drop, and it is refused.
    Renew {
        /// The files of the image.
        names: &'a Names,
        /// What it may do.
        guard: Guard,
        /// What is asked of the image.
        edit: Edit<R>,
    },
}
