//! The line on how far work is, where it has a place beside what a person types and reads.
use bx_hints::{Remarks, Terminals};
use bx_system::{Progress, System};
use bx_text::Name;

/// Whether such a line has a place on standard error, beside an output that may be a terminal.
fn has_place(remarks: &Remarks) -> bool {
    let Terminals { output, errors, .. } = remarks.audience.terminals;
    errors && !output
}

/// A line on how much is read, for work whose output may be a terminal, where it has no place.
pub fn progress_of_dump<'r, R: System>(rt: &'r R, remarks: &Remarks) -> Progress<'r, R> {
    Progress::new(rt, has_place(remarks), None)
}

/// The same of standard input, of `total` bytes, where a line has no place in what a person types.
pub fn progress_of_dumped<'r, R: System>(
    rt: &'r R,
    remarks: &Remarks,
    total: Option<u64>,
) -> Progress<'r, R> {
    let shows = has_place(remarks) && !remarks.audience.terminals.input;
    Progress::new(rt, shows, total)
}

/// The same, for work that writes nothing to standard output while it reads.
pub fn progress_of_input<'r, R: System>(rt: &'r R, remarks: &Remarks) -> Progress<'r, R> {
    Progress::new(rt, remarks.audience.terminals.errors, None)
}

/// The same of the file of this name, or of standard input where there is none and nobody types it.
pub fn progress_of_reading<'r, R: System>(
    rt: &'r R,
    remarks: &Remarks,
    name: &Option<Name>,
    total: Option<u64>,
) -> Progress<'r, R> {
    let Terminals { input, errors, .. } = remarks.audience.terminals;
    Progress::new(rt, errors && (name.is_some() || !input), total)
}
