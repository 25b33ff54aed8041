//! Cases of words.
use crate::cursor::Cursor;
use crate::fault::{CaseFault, Trouble};
use crate::kinds::told::some_bytes;
use crate::outcome::Records;
use crate::values::{number, records, split_space, text};
use bx_text::Words;
use std::alloc::Global;

/// A fault by its text, and the exit status beside it.
#[derive(Drop)]
pub struct Refusal {
    pub text: String,
    pub status: u8,
}

/// How long an output is, and its MD5 digest in 32 digits.
#[derive(Drop)]
pub struct Sum {
    pub len: u64,
    pub md5: String,
}

/// The words of a command line, and what comes of them.
#[derive(Drop)]
pub struct WordsCase {
    /// The words behind the program's name.
    pub words: Words,
    /// What is read; without it the words are only planned.
    pub input: Option<Vec<u8>>,
    /// The length of the whole input, where a seek passed what it could of the bytes to skip. `input` is what stands behind.
    pub length: Option<u64>,
    /// What is written; empty where its sum is given.
    pub output: Vec<u8>,
    /// The sum of what is written, in its place.
    pub sum: Option<Sum>,
    /// How many bytes are dumped, where the case says it.
    pub count: Option<u64>,
    /// What dd counts, where the case says it.
    pub records: Option<Records>,
    /// What stops it, if anything does.
    pub fault: Option<Refusal>,
    /// The name of the job, and fields of it, where the case says them.
    pub job: Option<Words>,
}

/// The words, what is read, and the length of the whole input.
fn given(
    alloc: Global,
    cursor: &mut Cursor<'_>,
) -> Result<(Words, Option<Vec<u8>>, Option<u64>), CaseFault> {
    let Some(words) = cursor.words(alloc, "words")? else {
        return Err(cursor.next_trouble(Trouble::MissingLine("words")));
    };
    let input = cursor.bytes(alloc, "input")?;
    Ok((words, input, cursor.number("length")?))
}

/// The sum of what is written, if the next line gives it.
fn sum_of(alloc: Global, cursor: &mut Cursor<'_>) -> Result<Option<Sum>, CaseFault> {
    let Some(value) = cursor.value("sum")? else {
        return Ok(None);
    };
    let (len, md5) = split_space(value);
    match (number(len), md5) {
        (Some(len), Some(md5)) => Ok(Some(Sum {
            len,
            md5: text(alloc, cursor.line(), md5)?,
        })),
        _ => Err(cursor.trouble(Trouble::BadNumber)),
    }
}

/// What is written, or its sum.
pub fn written(
    alloc: Global,
    cursor: &mut Cursor<'_>,
) -> Result<(Vec<u8>, Option<Sum>), CaseFault> {
    match sum_of(alloc, cursor)? {
        Some(sum) => Ok((Vec::new(alloc), Some(sum))),
        None => Ok((some_bytes(alloc, cursor, "output")?, None)),
    }
}

/// How many bytes are dumped, and what dd counts.
fn counts(cursor: &mut Cursor<'_>) -> Result<(Option<u64>, Option<Records>), CaseFault> {
    let count = cursor.number("count")?;
    Ok((count, counted(cursor)?))
}

/// What stops it, and what is planned.
fn planned(
    alloc: Global,
    cursor: &mut Cursor<'_>,
) -> Result<(Option<Refusal>, Option<Words>), CaseFault> {
    let fault = refusal_of(alloc, cursor)?;
    Ok((fault, cursor.words(alloc, "job")?))
}

/// The case whose lines follow.
pub fn words_case(alloc: Global, cursor: &mut Cursor<'_>) -> Result<WordsCase, CaseFault> {
    let (words, input, length) = given(alloc, cursor)?;
    let (output, sum) = written(alloc, cursor)?;
    let (count, records) = counts(cursor)?;
    let (fault, job) = planned(alloc, cursor)?;
    Ok(WordsCase {
        words,
        input,
        length,
        output,
        sum,
        count,
        records,
        fault,
        job,
    })
}

/// What dd counts, if the next line tells it.
fn counted(cursor: &mut Cursor<'_>) -> Result<Option<Records>, CaseFault> {
    let Some(value) = cursor.value("records")? else {
        return Ok(None);
    };
    match records(value) {
        Some(records) => Ok(Some(records)),
        None => Err(cursor.trouble(Trouble::BadAnswer)),
    }
}

/// A fault and its status, if the next lines tell them.
fn refusal_of(alloc: Global, cursor: &mut Cursor<'_>) -> Result<Option<Refusal>, CaseFault> {
    let Some(text) = cursor.text(alloc, "fault")? else {
        return Ok(None);
    };
    let status = match cursor.number("status")? {
        Some(status) => u8::try_from(status).ok(),
        None => return Err(cursor.next_trouble(Trouble::MissingLine("status"))),
    };
    match status {
        Some(status) => Ok(Some(Refusal { text, status })),
        None => Err(cursor.trouble(Trouble::BadNumber)),
    }
}
