//! The values of options, read from their words.
ghost use Rattle.std.specs.Prelude.{◌≡◌, ◌⊎◌, ◌<◌, ◌≤◌, ◌^◌, ◌%◌, IfOk, IfErr, IfSome, IsErrOf, length, string_bytes};
ghost use Rattle.std.specs.Option.{option_copied};
ghost use Rattle.bx_cli_commands.specs.jobs.Values.{IsApart, IsCountOf, IsLineWidthOf, base_in, encoding_in, bytes_in, bytes_value, columns_of, digits_len, endian_in, journal_of, kind_in, option_value, option_value_or, power_of, unit_in, units, word_len};
ghost use Rattle.bx_dump.specs.Values.{width_of};
ghost use Rattle.bx_text.specs.Number.{read_size};
ghost use Rattle.bx_text.specs.declared.fault.IoFault.{IoFault};

use crate::{Fault, Texts};
use bx_dump::od::{Address, Endian, Kind, NumForm, Size};
use bx_dump::strings::Encoding;
use bx_text::{Name, SizeStyle, read_size};
use std::alloc::{AllocError, Global};

/// The most bytes on a line of `xxd`.
pub const MOST_COLUMNS: u64 = 256;

const MOST_NUMBER: u64 = 1 << 62;

/// The largest minimum length of a run of `strings`.
pub const MOST_LEAST: u64 = 4096;

/// The most changes that `undo`, `redo` and `show` take at once.
pub const MOST_STEPS: u64 = 65_535;

/// The number that a text is, at most 2^62; none where there is no text.
pub fn number(text: Option<&str>, style: SizeStyle) -> Result<Option<u64>, Fault>
    ensures value { result ≡ option_value style (option_copied text.entry) }
    ensures most { IfOk result (λ o. IfSome o (λ n. n ≤ 2 ^ 62)) }
{
    match text {
        None => Ok(None),
        Some(text) => match read_size(text.as_bytes(), style) {
            Ok(n) if n <= MOST_NUMBER => Ok(Some(n)),
            Ok(_) | Err(_) => Err(Fault::Usage),
        },
    }
}

/// The number that a text is, at most 2^62; the default where there is no text.
pub fn number_or(text: Option<&str>, style: SizeStyle, default: u64) -> Result<u64, Fault>
    requires { default ≤ 2 ^ 62 }
    ensures value { result ≡ option_value_or style default (option_copied text.entry) }
    ensures most { IfOk result (λ n. n ≤ 2 ^ 62) }
{
    match number(text, style)? {
        Some(n) => Ok(n),
        None => Ok(default),
    }
}

/// A number of decimal digits alone, at most `most`; the default where there is no text.
pub fn count_or(text: Option<&str>, default: u64, most: u64) -> Result<u64, Fault>
    requires { default ≤ most }
    ensures value { IsCountOf default most (option_copied text.entry) result }
    ensures most { IfOk result (λ n. n ≤ most) }
{
    let Some(text) = text else {
        return Ok(default);
    };
    if let [b'+', ..] = text.as_bytes() {
        return Err(Fault::Usage);
    }
    match text.parse::<u64>() {
        Ok(n) if n <= most => Ok(n),
        _ => Err(Fault::Usage),
    }
}

/// The bytes on a line, 1 to 256; the default where there is no text.
pub fn columns(text: Option<&str>, default: u64) -> Result<u16, Fault>
    requires least { 1 ≤ default }
    requires most { default ≤ 256 }
    ensures value { result ≡ columns_of default (option_copied text.entry) }
    ensures range { IfOk result (λ n. (1 ≤ n) × (n ≤ 256)) }
{
    match number_or(text, SizeStyle::Bare, default)? {
        n @ 1..=MOST_COLUMNS => Ok(n as u16),
        _ => Err(Fault::Usage),
    }
}

/// The bytes of a little-endian number in a line of `cols` bytes: those of a group, or all of the line where it has no more.
/// They are a power of 2, and the line is a multiple of them.
pub fn word_len(cols: u16, group: u16) -> Result<u16, Fault>
    requires some { 0 < cols }
    ensures value { result ≡ word_len cols group }
    ensures range { IfOk result (λ n. (1 ≤ n) × (n ≤ 256)) }
{
    let size = if group == 0 || cols < group {
        cols
    } else {
        group
    };
    match size {
        1 | 2 | 4 | 8 | 16 | 32 | 64 | 128 | 256 if cols % size == 0 => Ok(size),
        _ => Err(Fault::Usage),
    }
}

/// The number of bytes that a text is, at most 2^62: as POSIX has it, or with a unit of GNU's od, as K, kB or KiB; none where
/// there is no text.
pub fn bytes(text: Option<&str>) -> Result<Option<u64>, Fault>
    ensures value { result ≡ bytes_value (option_copied text.entry) }
    ensures most { IfOk result (λ o. IfSome o (λ n. n ≤ 2 ^ 62)) }
{
    match text {
        None => Ok(None),
        Some(text) => bytes_in(text),
    }
}

/// The number of bytes that a word writes.
fn bytes_in(text: &str) -> Result<Option<u64>, Fault>
    ensures value { result ≡ bytes_in text.now }
    ensures most { IfOk result (λ o. IfSome o (λ n. n ≤ 2 ^ 62)) }
{
    let all = text.as_bytes();
    let count = digits_len(all);
    if count == all.len() {
        return number(Some(text), SizeStyle::Count);
    }
    units(&all[..count], unit_in(&all[count..]))
}

/// How many bytes stand in front of the letter of a unit.
fn digits_len(text: &[u8]) -> usize
    ensures value { result ≡ digits_len text.now }
    ensures within { result ≤ length text.now }
{
    text.iter().take_while(|byte| power_of(**byte) == 0).count()
}

/// The number that digits write of a unit.
fn units(digits: &[u8], unit: Option<u64>) -> Result<Option<u64>, Fault>
    ensures value { result ≡ units unit (read_size SizeStyle.Bare digits.now) }
    ensures most { IfOk result (λ o. IfSome o (λ n. n ≤ 2 ^ 62)) }
{
    let Some(unit) = unit else {
        return Err(Fault::Usage);
    };
    match read_size(digits, SizeStyle::Bare) {
        Ok(n) => match n.checked_mul(unit) {
            Some(all) if all <= MOST_NUMBER => Ok(Some(all)),
            _ => Err(Fault::Usage),
        },
        Err(_) => Err(Fault::Usage),
    }
}

/// What a unit counts: a letter, and perhaps B or iB.
fn unit_in(text: &[u8]) -> Option<u64>
    ensures { result ≡ unit_in text.now }
{
    match text {
        [letter] | [letter, b'i', b'B'] => Some(binary_unit(*letter)),
        [letter, b'B'] => Some(decimal_unit(*letter)),
        _ => None,
    }
}

/// The power of 1024 that the letter of a unit stands for.
fn binary_unit(letter: u8) -> u64
    ensures { result ≡ 1024 ^ power_of letter }
{
    match power_of(letter) {
        0 => 1,
        1 => 1 << 10,
        2 => 1 << 20,
        3 => 1 << 30,
        4 => 1 << 40,
        _ => 1 << 50,
    }
}

/// The power of 1000 that the letter of a unit stands for.
fn decimal_unit(letter: u8) -> u64
    ensures { result ≡ 1000 ^ power_of letter }
{
    match power_of(letter) {
        0 => 1,
        1 => 1_000,
        2 => 1_000_000,
        3 => 1_000_000_000,
        4 => 1_000_000_000_000,
        _ => 1_000_000_000_000_000,
    }
}

/// Which power the letter of a unit stands for; 0 for another byte.
fn power_of(letter: u8) -> u8
    ensures value { result ≡ power_of letter }
    ensures most { result ≤ 5 }
{
    match letter {
        b'k' | b'K' => 1,
        b'm' | b'M' => 2,
        b'G' => 3,
        b'T' => 4,
        b'P' => 5,
        _ => 0,
    }
}

/// The bytes on a line of `od`, 1 to 256 and a multiple of a value's; 16 where there is no text.
pub fn line_width(text: Option<&str>, kind: Kind) -> Result<u16, Fault>
    ensures value { IsLineWidthOf (width_of kind) (option_copied text.entry) result }
    ensures range { IfOk result (λ n. (1 ≤ n) × (n ≤ 256)) }
{
    if text.is_none() {
        return Ok(16);
    }
    let n = count_or(text, 16, MOST_COLUMNS)?;
    if n == 0 || n % kind.width() as u64 != 0 {
        return Err(Fault::Usage);
    }
    Ok(n as u16)
}

/// The base of a letter, d, o or x, or with `with_n` n for no numbers; `none` where there is no text.
pub fn radix(text: Option<&str>, none: Address, with_n: bool) -> Result<Address, Fault>
    ensures { result ≡ base_in none with_n (option_copied text.entry) }
{
    let Some(text) = text else {
        return Ok(none);
    };
    match text.as_bytes() {
        [b'd'] => Ok(Address::Decimal),
        [b'o'] => Ok(Address::Octal),
        [b'x'] => Ok(Address::Hexadecimal),
        [b'n'] if with_n => Ok(Address::Without),
        _ => Err(Fault::Usage),
    }
}

/// The characters of a letter, s, S, b, l, B or L; seven bits where there is no text.
pub fn encoding(text: Option<&str>) -> Result<Encoding, Fault>
    ensures { result ≡ encoding_in (option_copied text.entry) }
{
    let Some(text) = text else {
        return Ok(Encoding::SevenBits);
    };
    match text.as_bytes() {
        [b's'] => Ok(Encoding::SevenBits),
        [b'S'] => Ok(Encoding::EightBits),
        [b'b'] => Ok(Encoding::SixteenBits { big: true }),
        [b'l'] => Ok(Encoding::SixteenBits { big: false }),
        [b'B'] => Ok(Encoding::ThirtyTwoBits { big: true }),
        [b'L'] => Ok(Encoding::ThirtyTwoBits { big: false }),
        _ => Err(Fault::Usage),
    }
}

/// The order of a number's bytes, big or little; little where there is no text.
pub fn endian(text: Option<&str>) -> Result<Endian, Fault>
    ensures { result ≡ endian_in (option_copied text.entry) }
{
    let Some(text) = text else {
        return Ok(Endian::Little);
    };
    match text.as_bytes() {
        b"little" => Ok(Endian::Little),
        b"big" => Ok(Endian::Big),
        _ => Err(Fault::Usage),
    }
}

/// The values that the word of a type names, as c, x1 or dL; a letter alone has numbers of 4 bytes.
pub fn kind_word(text: &str) -> Result<Kind, Fault>
    ensures { result ≡ kind_in text.now }
{
    let (form, size) = match text.as_bytes() {
        [b'c'] => return Ok(Kind::Chars),
        [form] => (*form, b'I'),
        [form, size] => (*form, *size),
        _ => return Err(Fault::Usage),
    };
    let form = match form {
        b'd' => NumForm::Signed,
        b'o' => NumForm::Octal,
        b'u' => NumForm::Unsigned,
        b'x' => NumForm::Hexadecimal,
        _ => return Err(Fault::Usage),
    };
    let size = match size {
        b'1' | b'C' => Size::One,
        b'2' | b'S' => Size::Two,
        b'4' | b'I' => Size::Four,
        b'8' | b'L' => Size::Eight,
        _ => return Err(Fault::Usage),
    };
    Ok(Kind::Number { form, size })
}

/// The name that a text is.
pub fn name_of(alloc: Global, text: &str) -> Result<Name, Fault>
    ensures name { IfOk result (λ n. n ≡ text.now) }
    ensures fault { IfErr result (λ e. e ≡ Fault.Io IoFault.NoMemory) }
{
    Ok(Name::from_string(String::from_str(alloc, text)?))
}

/// The journal of an image, by its own name or else by the image's.
fn journal_name(alloc: Global, journal: Option<&str>, image: &str) -> Result<String, AllocError>
    ensures { IfOk result (λ name. string_bytes name ≡ journal_of image.now (option_copied journal.entry)) }
{
    match journal {
        Some(journal) => String::from_str(alloc, journal),
        None => format!(in alloc; "{image}.bxj"),
    }
}

/// The journal of an image, by its own name or else by the image's, and the redo file beside it: neither is the image.
pub fn texts_of(alloc: Global, journal: Option<&str>, image: &str) -> Result<Texts, Fault>
    ensures journal { IfOk result (λ t. t.journal ≡ journal_of image.now (option_copied journal.entry)) }
    ensures apart { IfOk result (λ t. IsApart image.now t.journal) }
    ensures fault { IfErr result (λ e. (e ≡ Fault.Io IoFault.NoMemory) ⊎ (e ≡ Fault.Usage)) }
    ensures refused { IsErrOf result Fault.Usage → IsApart image.now (journal_of image.now (option_copied journal.entry)) → ⊥ }
{
    let journal = journal_name(alloc, journal, image)?;
    if journal.as_str() == image {
        return Err(Fault::Usage);
    }
    let redo = format!(in alloc; "{journal}.redo")?;
    if redo.as_str() == image {
        return Err(Fault::Usage);
    }
    Ok(Texts {
        journal: Name::from_string(journal),
        redo: Name::from_string(redo),
    })
}
