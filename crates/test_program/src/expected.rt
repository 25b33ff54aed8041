//! The words of a line, and what is run of the job that they ask for.
use bx_cli::{Done, Fault, Job, plan_words, run_dump};
use bx_text::{NoMemory, Words};
use std::alloc::{Allocator, Global};
use std::io::{Read, Write};

/// The words of a line, with a space between two of them.
pub fn words<A: Allocator + Clone>(alloc: A, line: &str) -> Result<Words<A>, NoMemory> {
    let mut words = Words::new(alloc);
    for word in line.split(' ') {
        words.push(word)?;
    }
    Ok(words)
}

/// Runs the job that the words of a line ask for, which dumps or copies.
pub fn run_line<R: Read, W: Write>(
    alloc: Global,
    line: &str,
    from: &mut R,
    to: &mut W,
) -> Result<Done, Fault> {
    match plan_words(alloc, &words(alloc, line)?)? {
        Job::Dump(job) => run_dump(alloc, &job, job.skip().seekable(0), from, to),
        Job::Lay(_) | Job::Change(_) | Job::Look(_) | Job::Diff(_) | Job::Help { .. } => {
            Err(Fault::Usage)
        }
    }
}
