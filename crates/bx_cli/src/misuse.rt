//! What is wrong with words that were refused.
use crate::given::Given;
use crate::instead::{
    has_negative, instead, is_negative, is_unexpected, negative, no_negative, similar,
};
use crate::options::program;
use crate::plan::{beside_back, is_onto_itself, look, words_of};
use crate::types::{Types, wrong_type};
use bx_cli_commands::{
    Fault, MOST_LEAST, MOST_STEPS, bytes, count_or, encoding, endian, number, radix,
};
use bx_dd::DdFault;
use bx_dump::od::Address;
use bx_text::{SizeFault, SizeStyle, Words, read_size};
use clap::ArgMatches;
use std::alloc::{AllocError, Global};

/// The word at fault among those of a command line, why it is, and how the command is called. Each is empty where none is
/// known.
#[derive(Drop)]
pub struct Misuse {
    /// The word, or what is said of it.
    pub word: String,
    /// What is to stand there.
    pub reason: &'static str,
    /// How the command is called.
    pub usage: String,
}

/// What is wrong with the words, where they were refused for this fault; the words are those behind the program's name.
pub fn misuse_of(alloc: Global, words: &Words, fault: Fault) -> Result<Misuse, Fault> {
    let texts = words_of(alloc, words)?;
    match program(alloc)?.try_get_matches_from(texts.as_slice()) {
        Ok(matches) => refused_later(alloc, fault, &matches),
        Err(error) => {
            let text = error.to_string(alloc)?;
            let found = told(alloc, text.as_str())?;
            corrected(alloc, words, found)
        }
    }
}

/// What clap says, with what to give instead of the word; of a negative number the whole of it, since clap takes it for an
/// option of its first digit. Of a word that it doesn't know the usage names no option that it finds similar.
fn corrected(alloc: Global, words: &Words, said: Misuse) -> Result<Misuse, Fault> {
    let mut found = said;
    let name = words.get(0).unwrap_or("");
    if is_unexpected(found.word.as_str()) {
        if let Ok(plain) = usage_of(alloc, name) {
            found.usage = plain.usage;
        }
    }
    found.reason = instead(name, found.word.as_str());
    if found.reason.is_empty() {
        if let Some(word) = negative(words, found.word.as_str()) {
            found.word = String::from_str(alloc, word)?;
            found.reason = if name == "strings" {
                "give -n COUNT for the minimum run length"
            } else {
                no_negative(true)
            };
        }
    }
    Ok(found)
}

/// What clap says of words that it refuses: its first lines, the names that it finds similar, and the usage.
fn told(alloc: Global, text: &str) -> Result<Misuse, AllocError> {
    let text = text.strip_prefix("error: ").unwrap_or(text);
    let (word, rest) = text.split_once("\n\n").unwrap_or((text, ""));
    let mut word = lines_with(alloc, word, "")?;
    push_behind(&mut word, ": did you mean ", similar(rest))?;
    Ok(Misuse {
        word,
        reason: "",
        usage: lines_with(alloc, rest, "Usage: ")?,
    })
}

/// Puts a part behind those before it; nothing where it is empty.
fn push_behind(text: &mut String, between: &str, part: &str) -> Result<(), AllocError> {
    if part.is_empty() {
        return Ok(());
    }
    if !text.is_empty() {
        text.push_str(between)?;
    }
    text.push_str(part)
}

/// The lines that begin so, with spaces between them.
fn lines_with(alloc: Global, text: &str, front: &str) -> Result<String, AllocError> {
    let mut all = String::new(alloc);
    for line in text.lines() {
        if line.starts_with(front) {
            push_behind(&mut all, " ", line.trim())?;
        }
    }
    Ok(all)
}

/// What is wrong with words that clap took.
fn refused_later(alloc: Global, fault: Fault, matches: &ArgMatches<'_>) -> Result<Misuse, Fault> {
    let Some((name, inner)) = matches.subcommand() else {
        return Err(Fault::Usage);
    };
    let mut found = usage_of(alloc, name)?;
    let (word, reason) = wrong_word(fault, name, inner);
    found.word = String::from_str(alloc, word)?;
    found.reason = reason;
    Ok(found)
}

/// How a subcommand is called, as clap says where a word is refused.
fn usage_of(alloc: Global, name: &str) -> Result<Misuse, Fault> {
    match program(alloc)?.try_get_matches_from(&["bx", name, "--?"]) {
        Ok(_) => Err(Fault::Usage),
        Err(error) => {
            let text = error.to_string(alloc)?;
            Ok(told(alloc, text.as_str())?)
        }
    }
}

/// The operand that a fault counts, or the first value that isn't one of its option, or what is missing; and what is to
/// stand there.
fn wrong_word<'a>(fault: Fault, name: &str, m: &ArgMatches<'a>) -> (&'a str, &'static str) {
    match fault {
        Fault::Dd(
            fault @ (DdFault::UnknownOperand(place)
            | DdFault::BadNumber(place)
            | DdFault::NumberTooLarge(place)
            | DdFault::ZeroSize(place)
            | DdFault::Repeated(place)),
        ) => {
            let word = operand(m, place).unwrap_or("");
            (word, operand_reason(fault, word))
        }
        Fault::Usage => match wrong_value(name, m).or(wrong_back(name, m)) {
            Some(found) => found,
            None => missing(name),
        },
        _ => ("", ""),
    }
}

/// What is wrong with the way back of a dump, or with a second file without it.
fn wrong_back<'a>(name: &str, m: &ArgMatches<'a>) -> Option<(&'a str, &'static str)> {
    if name != "xxd" {
        return None;
    }
    let given = Given::Read(m);
    if !m.get_flag("revert") {
        let out = m.get_str("out")?;
        return Some((
            out,
            "one word is the file that is read, and with -r another the file that is written",
        ));
    }
    if let Some(option) = beside_back(&given) {
        return Some((option, "beside -r there are -p and -s alone"));
    }
    if is_onto_itself(&given) {
        let out = m.get_str("out")?;
        return Some((out, "it is the dump itself: give another file to write"));
    }
    match m.get_str("seek") {
        Some(seek) if is_negative(seek) => Some((seek, "under -r a place counts from the start")),
        Some(_) | None => None,
    }
}

/// What is wrong with an operand of dd.
fn operand_reason(fault: DdFault, operand: &str) -> &'static str {
    match fault {
        _ if has_negative(operand) => no_negative(is_place_operand(operand)),
        DdFault::BadNumber(_) if operand.contains("=0x") => {
            "0x begins no hexadecimal number here, since x multiplies: give it in decimal"
        }
        DdFault::NumberTooLarge(_) if is_block_operand(operand) => {
            "at most 16777216 bytes, which is 16M; bs= takes more"
        }
        DdFault::NumberTooLarge(_) if is_place_operand(operand) => {
            "a number is at most 1099511627775, and a place at most 281474976710656 bytes from the start"
        }
        DdFault::NumberTooLarge(_) => "a number is at most 1099511627775",
        _ => "",
    }
}

/// The operand at a place, from 1 on.
fn operand<'a>(m: &ArgMatches<'a>, place: u64) -> Option<&'a str> {
    m.get_strs("operand")?
        .get(place.checked_sub(1)? as usize)
        .copied()
}

/// What is wrong where each value is one of its option.
fn missing(name: &str) -> (&'static str, &'static str) {
    match name {
        "hexdump" => ("-C", "it has to be given, since there is no other form"),
        "xxd" => (
            "-e",
            "-g has to be a power of 2, which is 4 without it, and -c a multiple of that",
        ),
        _ => (
            "-J",
            "the journal is a file of its own: neither the image nor another text beside it",
        ),
    }
}

static VALUES: [&str; 15] = [
    "radix", "kind", "endian", "width", "offsets", "least", "encoding", "count", "cols", "group",
    "seek", "shift", "offset", "skip", "limit",
];

/// The first value that isn't one of its option, and what those are.
fn wrong_value<'a>(name: &str, m: &ArgMatches<'a>) -> Option<(&'a str, &'static str)> {
    let style = match name {
        "od" | "hexdump" => SizeStyle::Count,
        _ => SizeStyle::Bare,
    };
    for id in &VALUES {
        if !is_value(name, m, id, style) {
            let value = match *id {
                "kind" => wrong_type(m.get_strs(id)?),
                _ => m.get_str(id)?,
            };
            let form = form_of(name, id, style);
            return Some((
                value,
                if is_negative(value) && *id != "seek" {
                    no_negative(is_place(id))
                } else if is_large(id, value, style) {
                    "a number is at most 4611686018427387904"
                } else {
                    form
                },
            ));
        }
    }
    None
}

/// Whether it is a number of its option but for being too large.
fn is_large(id: &str, value: &str, style: SizeStyle) -> bool {
    (matches!(id, "group" | "limit") || is_place(id))
        && read_size(value.as_bytes(), style) == Err(SizeFault::TooLarge)
}

/// Whether the values of an option are places.
fn is_place(id: &str) -> bool {
    matches!(id, "seek" | "skip" | "shift" | "offset")
}

/// Whether the value of an operand is a place.
fn is_place_operand(operand: &str) -> bool {
    operand.starts_with("skip=") || operand.starts_with("seek=")
}

/// Whether it is the size of a block or a record.
fn is_block_operand(operand: &str) -> bool {
    operand.starts_with("ibs=") || operand.starts_with("cbs=")
}

/// What the values of an option are.
fn form_of(name: &str, id: &str, style: SizeStyle) -> &'static str {
    match id {
        "radix" => "one of d, o, x and n",
        "offsets" => "one of d, o and x",
        "encoding" => "one of s, S, b, l, B and L",
        "kind" => {
            "c, or one of d, o, u and x with one of 1, 2, 4 and 8, or C, S, I and L, and perhaps z; at most 16 in all"
        }
        "endian" => "big or little",
        "width" => "a decimal number from 1 to 256, and a multiple of the bytes of each value",
        "least" => "a decimal number from 1 to 4096",
        "count" => "a decimal number from 0 to 65535",
        "cols" => "a number from 1 to 256",
        "seek" =>
            "a number as 512, 0x200 or 01000, with nothing behind it, and - before it where it counts from the end",
        _ if name == "od" => {
            "a number as 512, 0x200 or 01000, with b, k or m behind it, or K, M, G, T, P, kB or KiB"
        }
        _ => match style {
            SizeStyle::Count => "a number as 512, 0x200 or 01000, with b, k or m behind it",
            _ => "a number as 512, 0x200 or 01000, with nothing behind it",
        },
    }
}

/// Whether an option has a value of its own, or none was given.
fn is_value(name: &str, m: &ArgMatches<'_>, id: &str, style: SizeStyle) -> bool {
    let text = m.get_str(id);
    match id {
        "radix" => radix(text, Address::Octal, true).is_ok(),
        "offsets" => radix(text, Address::Without, false).is_ok(),
        "encoding" => encoding(text).is_ok(),
        "kind" => Types::of(&Given::Read(m)).is_ok(),
        "endian" => endian(text).is_ok(),
        "width" => Types::of(&Given::Read(m)).is_ok_and(|types| types.width(text).is_ok()),
        "least" => count_or(text, 1, MOST_LEAST).is_ok_and(|n| n > 0),
        "count" => count_or(text, 1, MOST_STEPS).is_ok(),
        "cols" => look(&Given::Read(m)).is_ok(),
        "seek" => {
            let back = text.and_then(|text| text.strip_prefix('-'));
            number(back.or(text), style).is_ok()
        }
        _ if name == "od" => bytes(text).is_ok(),
        _ => number(text, style).is_ok(),
    }
}
