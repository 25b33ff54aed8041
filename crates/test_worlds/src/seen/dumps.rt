//! Plays dumps of an image: of a regular file, of one without a length, as a pipe, and of one that is missing; and of an input.
use crate::oddities::{Odd, Oddity};
use crate::report::Wrong;
use crate::seen::asked::Asked;
use crate::seen::told::Told;
use crate::seen::{Asking, play_each};
use crate::setting::{Held, names};
use crate::sweeps::Failing;
use bx_cli::plan_words;
use bx_cli_commands::{Done, DumpJob, Job};
use bx_dd::Counts;
use bx_world::{FileRole, Names, OpenError, OpenFailure, Refusal, Unfit};
use std::alloc::Global;
use test_case_files::{Case, Records, Test, WordsCase};

/// What fails in turn.
const EACH: [Failing; 3] = [Failing::World, Failing::Input, Failing::Output];

/// A file of no length, which a text may not be.
const PIPE: Odd = (
    "a pipe",
    FileRole::Image,
    Oddity::Folder,
    OpenFailure::Unfit(Unfit::Kind),
);

/// None.
const MISSING: Odd = (
    "missing",
    FileRole::Image,
    Oddity::Missing,
    OpenFailure::System(Refusal::Missing),
);

/// The job that the words ask for.
fn job_of(alloc: Global, case: &WordsCase) -> Result<DumpJob, Wrong> {
    match plan_words(alloc, &case.words) {
        Ok(Job::Dump(job)) => Ok(job),
        Ok(_) | Err(_) => Err(Wrong::Unknown),
    }
}

/// What a dump counts, as dd's records or its bytes.
fn done_of(case: &WordsCase) -> Option<Done> {
    match (case.records, case.count) {
        (Some(records), _) => Some(Done::Copied(counts_of(records))),
        (None, Some(count)) => Some(Done::Dumped(count)),
        (None, None) => None,
    }
}

fn counts_of(records: Records) -> Counts {
    Counts {
        whole_in: records.whole_in,
        part_in: records.part_in,
        whole_out: records.whole_out,
        part_out: records.part_out,
        cut: records.cut,
    }
}

/// What has to come of the dump of a file that is there.
fn told_of(case: &WordsCase) -> Told<'_> {
    match &case.fault {
        Some(refusal) => Told::Fault(refusal.text.as_str()),
        None => Told::Text(case.output.as_slice(), done_of(case)),
    }
}

/// Plays a dump of an image that holds the case's input. Tells whether all are right.
fn play_job<'a>(
    rt: &HostRuntime,
    name: &str,
    words: &'a WordsCase,
    names: &'a Names,
    job: &'a DumpJob,
) -> bool {
    let image: &[u8] = match &words.input {
        Some(input) => input.as_slice(),
        None => b"",
    };
    let whole = Asking {
        alloc: rt.alloc(),
        names,
        held: Held {
            image,
            journal: b"",
            redo: b"",
        },
        odd: None,
        asked: Asked::Dump(job),
        told: told_of(words),
    };
    let _ = print!(rt; "{name}");
    let mut right = play_each(rt, &whole, &EACH);
    let _ = print!(rt; "{name}, a pipe");
    right = play_each(rt, &whole.of_odd(&PIPE, whole.told), &EACH) && right;
    let (_, which, _, why) = MISSING;
    let told = Told::Unopened(OpenError { which, why });
    let _ = print!(rt; "{name}, missing");
    right = play_each(rt, &whole.of_odd(&MISSING, told), &EACH) && right;
    let _ = print!(rt; "{name}, an input");
    let asked = Asked::Input(job, image);
    play_each(rt, &Asking { asked, ..whole }, &EACH) && right
}

/// Plays these cases. Tells whether all are right.
pub fn play_dumps(rt: &HostRuntime, cases: &[Case]) -> Result<bool, Wrong> {
    let names = names(rt.alloc())?;
    let mut right = true;
    for case in cases {
        let Test::Words(words) = &case.test else {
            return Err(Wrong::Unknown);
        };
        let job = job_of(rt.alloc(), words)?;
        right = play_job(rt, case.name.as_str(), words, &names, &job) && right;
    }
    Ok(right)
}
