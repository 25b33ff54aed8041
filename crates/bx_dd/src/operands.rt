//! The operands of dd.
ghost use Rattle.std.specs.Prelude.{◌≡◌, ℕ, ◌+◌, ◌-◌, ◌*◌, ◌^◌, ◌<◌, ◌≤◌, List, [], length, take, slice_get, true, false, None, Some, MatchOption, nat_lt, if◌then◌else◌};
ghost use Rattle.std.specs.Option.{option_copied};
ghost use Rattle.std.specs.List.{list_all, list_any, position_or_len};
ghost use Rattle.std.specs.Str.{bytes_eq};
ghost use Rattle.bx_dd.specs.Number.{has_bytes, product_number};
ghost use Rattle.bx_dd.specs.Operands.{is_operand, operand_name, operand_value, kind_of, is_conversion, is_flag, is_quiet, is_report, value_fault, operand_fault, first_fault, given, number_given, converts, block_size, number_or, is_given, operand_place, operands_fault};
ghost use Rattle.bx_dd.specs.private.Operands.{parts_of, is_named, is_conflict, is_cbs_missing, later_fault, letters_of, shape_of, number_fault, size_fault};

mod number;
pub(crate) mod parse;
pub(crate) mod plan;

use crate::fault::DdFault;
use crate::form::{Letters, Shape};
use crate::operands::number::{has_bytes, read_number};
use bx_text::{SizeFault, Words};
use std::alloc::Allocator;

/// What the value of an operand is.
#[derive(Clone, Copy)]
enum Kind {
    File,
    /// A number from 1 to the one that is named.
    Size(u64),
    Number,
    Conversions,
    /// How the input is read.
    Flags,
    /// What is reported.
    Reports,
}

/// What the value of an operand of this name is.
fn kind_of(name: &str) -> Option<Kind>
    ensures { result ≡ kind_of name.now }
{
    match name {
        "if" | "of" => Some(Kind::File),
        "ibs" | "cbs" => Some(Kind::Size(16_777_216)),
        "obs" | "bs" => Some(Kind::Size(1_099_511_627_775)),
        "skip" | "seek" | "count" => Some(Kind::Number),
        "conv" => Some(Kind::Conversions),
        "iflag" => Some(Kind::Flags),
        "status" => Some(Kind::Reports),
        _ => None,
    }
}

/// Whether this is a word of `conv`. All that is written is put on the disk, so nothing is left to do for the last two.
fn is_conversion(part: &str) -> bool
    ensures { result ≡ is_conversion part.now }
{
    matches!(
        part,
        "block"
            | "unblock"
            | "lcase"
            | "ucase"
            | "swab"
            | "sync"
            | "notrunc"
            | "fsync"
            | "fdatasync"
    )
}

/// Whether this is a word of `iflag`. Input blocks are always filled, so nothing is left to do for it.
fn is_flag(part: &str) -> bool
    ensures { result ≡ is_flag part.now }
{
    part == "fullblock"
}

/// Whether this is a value of `status`. The speed of a transfer is never reported, and how far it is on a terminal alone.
fn is_report(value: &str) -> bool
    ensures { result ≡ is_report value.now }
{
    matches!(value, "none" | "noxfer" | "progress")
}

/// Whether all words of the value of `conv` are known.
fn are_conversions(value: &str) -> bool
    ensures { result ≡ list_all is_conversion (parts_of value.now) }
{
    value.split(',').all(|part| is_conversion(part))
}

/// Whether all words of the value of `iflag` are known.
fn are_flags(value: &str) -> bool
    ensures { result ≡ list_all is_flag (parts_of value.now) }
{
    value.split(',').all(|part| is_flag(part))
}

/// Whether the value of `conv` has this word.
fn has_part(value: &str, part: &str) -> bool
    ensures { result ≡ list_any (λ p. bytes_eq p part.now) (parts_of value.now) }
{
    value.split(',').any(|p| p == part)
}

/// The name and the value.
fn name_and_value(word: &str) -> Option<(&str, &str)>
    ensures { MatchOption result (is_operand word.now ≡ false) (λ x.
        (is_operand word.now ≡ true) × (x.0.now ≡ operand_name word.now) × (x.1.now ≡ operand_value word.now)) }
{
    word.split_once('=')
}

/// The value, or nothing where there is no `=`.
fn value_of(word: &str) -> &str
    ensures { result.now ≡ operand_value word.now }
{
    match word.split_once('=') {
        Some((_, value)) => value,
        None => "",
    }
}

/// Whether the word is an operand of this name.
fn is_named(word: &str, name: &str) -> bool
    ensures { result ≡ is_named name.now word.now }
{
    match name_and_value(word) {
        Some((found, _)) => found == name,
        None => false,
    }
}

/// The fault of a number of blocks.
fn number_fault(at: u64, value: &str) -> Option<DdFault>
    ensures { result ≡ number_fault at (has_bytes value.now) (product_number value.now) }
{
    if has_bytes(value.as_bytes()) {
        return Some(DdFault::BadNumber(at));
    }
    match read_number(value.as_bytes()) {
        Ok(_) => None,
        Err(SizeFault::Bad) => Some(DdFault::BadNumber(at)),
        Err(SizeFault::TooLarge) => Some(DdFault::NumberTooLarge(at)),
    }
}

/// The fault of a size.
fn size_fault(at: u64, most: u64, value: &str) -> Option<DdFault>
    ensures { result ≡ size_fault at most (product_number value.now) }
{
    match read_number(value.as_bytes()) {
        Ok(n) => {
            if most < n {
                Some(DdFault::NumberTooLarge(at))
            } else if n == 0 {
                Some(DdFault::ZeroSize(at))
            } else {
                None
            }
        }
        Err(SizeFault::Bad) => Some(DdFault::BadNumber(at)),
        Err(SizeFault::TooLarge) => Some(DdFault::NumberTooLarge(at)),
    }
}

/// The fault of a value that isn't known.
fn unknown_unless(at: u64, is_known: bool) -> Option<DdFault>
    ensures { result ≡ (if is_known then None else Some (DdFault.UnknownOperand at)) }
{
    if is_known {
        None
    } else {
        Some(DdFault::UnknownOperand(at))
    }
}

/// The fault of a value.
fn value_fault(at: u64, kind: Kind, value: &str) -> Option<DdFault>
    ensures { result ≡ value_fault at kind value.now }
{
    match kind {
        Kind::File => {
            if value.is_empty() {
                Some(DdFault::UnknownOperand(at))
            } else {
                None
            }
        }
        Kind::Size(most) => size_fault(at, most, value),
        Kind::Number => number_fault(at, value),
        Kind::Conversions => unknown_unless(at, are_conversions(value)),
        Kind::Flags => unknown_unless(at, are_flags(value)),
        Kind::Reports => unknown_unless(at, is_report(value)),
    }
}

/// The word at a place.
fn word_at<W: Allocator>(words: &Words<W>, i: usize) -> &str
    requires { i < length words.now }
    ensures { slice_get words.now i ≡ Some result.now }
{
    words.get(i).unwrap()
}

/// The place of the operand of this name among the first words, or how many these are.
fn place_of<W: Allocator>(words: &Words<W>, count: usize, name: &str) -> usize
    requires { count ≤ length words.now }
    ensures { result ≡ position_or_len (is_named name.now) (take count words.now) }
{
    for i in 0..count {
        if is_named(word_at(words, i), name) {
            return i;
        }
    }
    count
}

/// The fault of the word at a place, among those before it.
fn operand_fault<W: Allocator>(words: &Words<W>, i: usize) -> Option<DdFault>
    requires inside { i < length words.now }
    requires few { i + 1 < 2 ^ 64 }
    ensures { (word : List ℕ) → slice_get words.now i ≡ Some word → result ≡ operand_fault (take i words.now) word }
{
    let at = i as u64 + 1;
    let Some((name, value)) = name_and_value(word_at(words, i)) else {
        return Some(DdFault::UnknownOperand(at));
    };
    let Some(kind) = kind_of(name) else {
        return Some(DdFault::UnknownOperand(at));
    };
    if place_of(words, i, name) < i {
        return Some(DdFault::Repeated(at));
    }
    value_fault(at, kind, value)
}

/// The fault of the first faulty word.
fn first_fault<W: Allocator>(words: &Words<W>) -> Option<DdFault>
    ensures { result ≡ first_fault [] words.now }
{
    for i in 0..words.len() {
        match operand_fault(words, i) {
            Some(fault) => return Some(fault),
            None => {}
        }
    }
    None
}

/// The value of the operand of this name.
pub fn given<'a, W: Allocator>(words: &'a Words<W>, name: &str) -> Option<&'a str>
    ensures { option_copied result ≡ given name.now words.now }
{
    let word = words.get(place_of(words, words.len(), name))?;
    Some(value_of(word))
}

/// The number of the operand of this name.
pub fn number_given<W: Allocator>(words: &Words<W>, name: &str) -> Option<u64>
    ensures { result ≡ number_given name.now words.now }
{
    let value = given(words, name)?;
    read_number(value.as_bytes()).ok()
}

/// Whether `conv` has this word.
pub fn converts<W: Allocator>(words: &Words<W>, part: &str) -> bool
    ensures { result ≡ converts part.now words.now }
{
    has_part(given(words, "conv").unwrap_or(""), part)
}

/// Whether nothing is to be reported.
pub fn is_quiet<W: Allocator>(words: &Words<W>) -> bool
    ensures { result ≡ is_quiet words.now }
{
    given(words, "status").unwrap_or("") == "none"
}

/// The size of blocks: `bs` supersedes the operand of this name.
pub fn block_size<W: Allocator>(words: &Words<W>, name: &str) -> u64
    ensures { result ≡ block_size name.now words.now }
{
    number_given(words, "bs").unwrap_or(number_given(words, name).unwrap_or(512))
}

/// The number of the operand of this name, or another.
pub fn number_or<W: Allocator>(words: &Words<W>, name: &str, other: u64) -> u64
    ensures { result ≡ number_or other name.now words.now }
{
    number_given(words, name).unwrap_or(other)
}

/// Whether there is an operand of this name.
fn is_given<W: Allocator>(words: &Words<W>, name: &str) -> bool
    ensures { result ≡ is_given name.now words.now }
{
    place_of(words, words.len(), name) < words.len()
}

/// Whether two conversions exclude each other.
fn is_conflict<W: Allocator>(words: &Words<W>) -> bool
    ensures { result ≡ is_conflict words.now }
{
    (converts(words, "lcase") && converts(words, "ucase"))
        || (converts(words, "block") && converts(words, "unblock"))
}

/// Whether records are wanted, and their size is missing.
fn is_cbs_missing<W: Allocator>(words: &Words<W>) -> bool
    ensures { result ≡ is_cbs_missing words.now }
{
    (converts(words, "block") || converts(words, "unblock")) && !is_given(words, "cbs")
}

/// Whether `count` blocks of `size` bytes are more than 2^48 bytes.
fn is_too_far(count: u64, size: u64) -> bool
    ensures { result ≡ nat_lt (2 ^ 48) (count * size) }
{
    count as u128 * size as u128 > 1 << 48
}

/// The fault of operands that each are sound.
#[tactic(auto, using(crate::proofs::PlanLemmas::far_given))]
fn later_fault<W: Allocator>(words: &Words<W>) -> Option<DdFault>
    ensures { result ≡ later_fault words.now }
{
    if is_conflict(words) {
        return Some(DdFault::Conflict);
    }
    if is_cbs_missing(words) {
        return Some(DdFault::MissingCbs);
    }
    if is_too_far(number_or(words, "skip", 0), block_size(words, "ibs")) {
        return Some(too_large(words, "skip"));
    }
    if is_too_far(number_or(words, "seek", 0), block_size(words, "obs")) {
        return Some(too_large(words, "seek"));
    }
    None
}

/// The fault of an operand that goes too far.
fn too_large<W: Allocator>(words: &Words<W>, name: &str) -> DdFault
    requires { is_given name.now words.now ≡ true }
    ensures { result ≡ DdFault.NumberTooLarge (operand_place name.now words.now + 1) }
{
    DdFault::NumberTooLarge(place_of(words, words.len(), name) as u64 + 1)
}

/// The fault of dd's operands.
pub fn fault_of<W: Allocator>(words: &Words<W>) -> Option<DdFault>
    ensures { result ≡ operands_fault words.now }
{
    match first_fault(words) {
        Some(fault) => Some(fault),
        None => later_fault(words),
    }
}

/// The case of letters.
pub fn letters_of<W: Allocator>(words: &Words<W>) -> Letters
    ensures { result ≡ letters_of words.now }
{
    if converts(words, "ucase") {
        Letters::Upper
    } else if converts(words, "lcase") {
        Letters::Lower
    } else {
        Letters::Keep
    }
}

/// Between lines and records.
pub fn shape_of<W: Allocator>(words: &Words<W>) -> Shape
    ensures { result ≡ shape_of words.now }
{
    if converts(words, "block") {
        Shape::Block
    } else if converts(words, "unblock") {
        Shape::Unblock
    } else {
        Shape::Flat
    }
}
