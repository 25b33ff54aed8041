//! What is counted and reported.
use crate::report::compare::Wrong;
use std::alloc::{AllocError, Global};
use test_case_files::Case;

/// A play that isn't right: the call and its sweep.
#[derive(Drop)]
pub struct Failure {
    pub call: u32,
    pub wrong: Wrong,
}

/// A call of a sweep that isn't right.
pub fn at(call: u32, wrong: Wrong) -> Failure {
    Failure { call, wrong }
}

/// The first call, or all that a sweep makes.
impl From<Wrong> for Failure {
    fn from(wrong: Wrong) -> Self {
        at(0, wrong)
    }
}

/// The front of a line: which case.
fn tell_case(rt: &HostRuntime, file: &str, line: u64, name: &str) {
    let _ = print!(rt; "{file}:{line}: {name}: ");
}

/// Behind it: the call and its sweep.
fn tell_call(rt: &HostRuntime, sweep: &str, call: u32) {
    let _ = print!(rt; "{sweep} {call}: ");
}

/// The end of the line: what is wrong.
fn tell_wrong(rt: &HostRuntime, wrong: &Wrong) {
    let text = match wrong {
        Wrong::NoMemory => "out of memory",
        Wrong::Unknown => "can't be played",
        Wrong::Differs(text) => text.as_str(),
    };
    let _ = println!(rt; "{text}");
}

/// How many plays each sweep of a file made, and how many cases failed.
#[derive(Drop)]
pub struct Tally<'a> {
    pub file: &'a str,
    pub sweeps: &'static [&'static str],
    pub plays: Vec<u64>,
    pub cases: u64,
    pub failed: u64,
}

impl<'a> Tally<'a> {
    /// Nothing was played yet.
    pub fn new(
        alloc: Global,
        file: &'a str,
        sweeps: &'static [&'static str],
    ) -> Result<Self, AllocError> {
        Ok(Tally {
            file,
            sweeps,
            plays: vec![in alloc; 0u64; sweeps.len()]?,
            cases: 0,
            failed: 0,
        })
    }

    /// `plays` plays of a sweep were right.
    pub fn add(&mut self, sweep: usize, plays: u32) {
        if let Some(count) = self.plays.get_mut(sweep) {
            *count = count.saturating_add(plays as u64);
        }
    }

    /// Tells a failure, on a line.
    pub fn tell(&self, rt: &HostRuntime, case: &Case, sweep: &str, failure: &Failure) {
        tell_case(rt, self.file, case.line, case.name.as_str());
        tell_call(rt, sweep, failure.call);
        tell_wrong(rt, &failure.wrong);
    }

    /// Tells the counts, a line for each sweep.
    pub fn tell_counts(&self, rt: &HostRuntime) {
        let file = self.file;
        let cases = self.cases;
        let failed = self.failed;
        let _ = println!(rt; "{file}: {cases} cases, {failed} failed");
        for (sweep, plays) in self.sweeps.iter().zip(self.plays.iter()) {
            let _ = println!(rt; "{file}: {sweep}: {plays}");
        }
    }
}
