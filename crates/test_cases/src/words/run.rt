//! Runs of a job, between a reader and a writer that may do something at one of their calls.
use crate::words::streams::{Input, Output, Turn};
use bx_cli::{Done, DumpJob, Fault, run_dump};
use std::alloc::{Allocator, Global};
use std::io::{Read, Write};
use test_case_files::WordsCase;

/// The most bytes that a reader gives, and that a writer takes, in one call; of long ones more, so that the calls stay few.
const EACH_READ: usize = 50;

const EACH_WRITE: usize = 61;

const FEW_CALLS: usize = 400;

/// A run of the job that the words of a case ask for.
#[derive(Clone, Copy)]
pub struct RunOf<'a> {
    pub case: &'a WordsCase,
    pub job: &'a DumpJob,
    /// What is read: what stands behind the bytes that a seek passes.
    pub input: &'a [u8],
    /// How long the whole input is, where there is a seek; else 0.
    pub length: u64,
}

/// What a run came to.
#[derive(Drop)]
pub struct Ran {
    pub done: Result<Done, Fault>,
    pub output: Vec<u8>,
    /// How many bytes of the input were given.
    pub given: usize,
    /// Whether the call came at which something happens.
    pub came: bool,
}

/// Runs a job as the program does, behind what a seek passes of an input of this length.
pub fn dumped<R: Read, W: Write, A: Allocator + Clone>(
    alloc: A,
    job: &DumpJob,
    length: u64,
    from: &mut R,
    to: &mut W,
) -> Result<Done, Fault> {
    let passed = job.skip().seekable(length);
    run_dump(alloc, job, passed, from, to)
}

/// Runs a job.
fn run(alloc: Global, job: RunOf<'_>, from: Input<'_>, to: Output) -> Ran {
    let mut from = from;
    let mut to = to;
    let done = dumped(alloc, job.job, job.length, &mut from, &mut to);
    let Output { taken, turn, .. } = to;
    Ran {
        done,
        output: taken,
        given: from.given,
        came: from.turn.is_over && turn.is_over,
    }
}

/// Runs a job with nothing in its way.
pub fn run_freely(alloc: Global, job: RunOf<'_>, each: usize) -> Ran {
    let from = Input::new(job.input, each, Turn::never());
    let to = Output::new(alloc, each, Turn::never());
    run(alloc, job, from, to)
}

/// How many bytes of `len` go through in one call.
fn each_of(len: usize, least: usize) -> usize {
    least.max(len / FEW_CALLS)
}

/// Runs a job with something that happens at one read or write.
pub fn run_turned(alloc: Global, job: RunOf<'_>, turn: Turn, reads: bool) -> Ran {
    let (reading, writing) = if reads {
        (turn, Turn::never())
    } else {
        (Turn::never(), turn)
    };
    let from = Input::new(job.input, each_of(job.input.len(), EACH_READ), reading);
    let to = Output::new(alloc, each_of(job.case.output.len(), EACH_WRITE), writing);
    run(alloc, job, from, to)
}
