//! Numbers of dd that are 0 as products, where hexadecimal may be meant.
use crate::text::quoted::printed;
use bx_cli_commands::{ChangeJob, DumpJob, Job};
use bx_text::Words;
use std::alloc::{AllocError, Global};

/// Says of each operand whose number is a product with the factor 0 that it is 0, before anything is opened: in the words of dd,
/// and as a hint with the number that may be meant.
pub fn tell_of_products<R: Eprint + AllocGlobal>(rt: &R, job: &Job, hints: bool) {
    let Some(operands) = operands_of_dd(job) else {
        return;
    };
    for i in 0..operands.len() {
        if let Some(word) = operands.get(i) {
            tell_of_product(rt, word, hints);
        }
    }
}

/// The operands of a job of dd; none of another job.
fn operands_of_dd(job: &Job) -> Option<&Words> {
    match job {
        Job::Dump(DumpJob::Dd(dd)) => Some(&dd.operands),
        Job::Change(ChangeJob::Dd(dd)) => Some(&dd.operands),
        Job::Dump(_)
        | Job::Lay(_)
        | Job::Change(_)
        | Job::Look(_)
        | Job::Diff(_)
        | Job::Help { .. } => None,
    }
}

/// Says it of one operand, where it is so.
fn tell_of_product<R: Eprint + AllocGlobal>(rt: &R, word: &str, hints: bool) {
    let Some((name, value)) = word.split_once('=') else {
        return;
    };
    if !matches!(name, "skip" | "seek" | "count") || !has_zero(value) {
        return;
    }
    let _ = eprintln!(rt; "bx: warning: '0x' is a zero multiplier; use '00x' if that is intended");
    if hints {
        tell_of_number(rt, name, value);
    }
}

/// The hint on it.
fn tell_of_number<R: Eprint + AllocGlobal>(rt: &R, name: &str, value: &str) {
    if let Ok(text) = product_text(rt.alloc(), name, value) {
        let _ = eprintln!(rt; "hint: {text}");
    }
}

/// Whether a factor of a product is a single 0, other than the last.
fn has_zero(value: &str) -> bool {
    match value.rsplit_once('x') {
        Some((front, _)) => front.split('x').any(|factor| factor == "0"),
        None => false,
    }
}

/// What is said of a product: that it is 0, and the operand for the number that has these digits in hexadecimal.
fn product_text(alloc: Global, name: &str, value: &str) -> Result<String, AllocError> {
    let word = printed(alloc, value)?;
    match value.strip_prefix("0x").and_then(hexadecimal) {
        Some(number) => format!(in alloc;
            "{name}={word}: x multiplies, so this is 0; for {word} in hexadecimal give {name}={number}"
        ),
        None => format!(in alloc; "{name}={word}: x multiplies, so this is 0"),
    }
}

/// The number of these digits in hexadecimal.
fn hexadecimal(digits: &str) -> Option<u64> {
    u64::from_str_radix(digits, 16).ok()
}
