//! Standard input that a person types.
use bx_cli_commands::{ChangeJob, Job};

/// Says that a job reads a change or a dump that is typed, before it does.
pub fn tell_of_typing<R: Eprint>(rt: &R, job: &Job) {
    let Some((what, other)) = typed(job) else {
        return;
    };
    let _ = eprintln!(rt;
        "hint: {what} is read from the terminal, up to control-D at the start of a line; {other} names a file"
    );
}

/// What a job reads from standard input that is a change or a dump, and how a file is named in its place.
fn typed(job: &Job) -> Option<(&'static str, &'static str)> {
    match job {
        Job::Change(ChangeJob::Revert(job)) if job.dump.is_none() => Some(("a dump", "-f DUMP")),
        Job::Change(ChangeJob::Patch(job)) if job.patch.is_none() => Some(("a patch", "-f PATCH")),
        Job::Change(ChangeJob::Dd(job)) if job.plan.input.is_none() => {
            Some(("the input", "if=FILE"))
        }
        Job::Lay(job) if job.dump.is_none() => Some(("a dump", "DUMP")),
        Job::Change(_)
        | Job::Dump(_)
        | Job::Lay(_)
        | Job::Look(_)
        | Job::Diff(_)
        | Job::Help { .. } => None,
    }
}
