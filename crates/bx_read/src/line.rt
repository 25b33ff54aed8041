//! One line of a dump.
ghost use Rattle.std.specs.Prelude.{◌≡◌, ◌+◌, ◌<◌, ◌≤◌, ◌&&◌, length, take, drop, slice_index, Some, None, Ok, Err, IsTrue, IfOk, MatchResult, ℕ, nat_le, false};
ghost use Rattle.std.specs.Option.{option_map, option_map_or};
ghost use Rattle.bx_read.specs.Digits.{is_hex, pair_value, pairs_of, data_of};
ghost use Rattle.bx_read.specs.private.Digits.{pair_count, few_pairs};

use crate::digits::{front_digits, is_pair, number_of};
use crate::fault::ReadFault;
use hex::decode_to_slice;

/// A line of a dump: its address, its text from the first digit of the pairs to the last, and its number from 1.
/// It has 1 to 256 pairs.
#[derive(Drop)]
pub struct Line<'a> {
    pub at: u64,
    pub hex: &'a [u8],
    pub number: u64,
    ghost few: { IsTrue (option_map_or (λ count. nat_le count 256) (option_map length (pairs_of hex.now)) false) },
}

impl<'a> Line<'a> {
    ghost use Rattle.bx_read.specs.Line.{read_line, read_data, line_piece};

    /// Reads a line, which is given without its newline. Nothing is skipped: an empty line and `*` have no address.
    ///
    /// A line is 1 to 16 hexadecimal digits in either case, whose number is below 2^62; `: `; 1 to 256 pairs of
    /// hexadecimal digits with no space or one between two; then its end, or one space and its end, or two spaces and
    /// anything.
    pub fn parse(line: &'a [u8], number: u64) -> Result<Line<'a>, ReadFault>
        // What is read is what the grammar gives, by `line_has_form`, and a fault is the line's, by `fault_is_of_line`.
        ensures exact { MatchResult result (λ l. read_line number line.now ≡ Ok (l.at, l.hex.now)) (λ e. read_line number line.now ≡ Err e) }
        ensures number { IfOk result (λ l. l.number ≡ number) }
        // With the bytes of its pairs, what is read is the line's address and bytes.
        ensures piece { MatchResult result (λ l. line_piece line.now ≡ option_map (λ bytes. (l.at, bytes)) (pairs_of l.hex.now))
            (λ e. line_piece line.now ≡ None) }
    {
        Line::parse_parts(line, number)
    }

    /// Puts the line's bytes at the front of `out` and answers how many they are, 1 to 256. The rest of `out` stays.
    pub fn decode(&self, out: &mut [u8; 256]) -> usize
        ensures bytes { pairs_of self.now.hex.now ≡ Some (take result out.new) }
        ensures rest { drop result out.new ≡ drop result out.old }
        ensures some { 0 < result }
        ensures most { result ≤ 256 }
    {
        decode_pairs(self.hex, out)
    }

    /// The parts of a line, one after the other.
    fn parse_parts(line: &'a [u8], number: u64) -> Result<Line<'a>, ReadFault>
        ensures exact { MatchResult result (λ l. read_line number line.now ≡ Ok (l.at, l.hex.now)) (λ e. read_line number line.now ≡ Err e) }
        ensures number { IfOk result (λ l. l.number ≡ number) }
    {
        let count = front_digits(line);
        if count == 0 || count > 16 {
            return Err(ReadFault::BadAddress { line: number });
        }
        if count == line.len() || line[count] != b':' {
            return Err(ReadFault::MissingColon { line: number });
        }
        Line::parse_data(number_of(&line[..count]), &line[count + 1..], number)
    }

    /// The line with this address and what stands after its colon.
    fn parse_data(at: u64, text: &'a [u8], number: u64) -> Result<Line<'a>, ReadFault>
        ensures read { MatchResult result (λ l. read_data number at text.now ≡ Ok (l.at, l.hex.now)) (λ e. read_data number at text.now ≡ Err e) }
        ensures number { IfOk result (λ l. l.number ≡ number) }
    {
        if text.is_empty() {
            return Err(ReadFault::NoData { line: number });
        }
        if text[0] != b' ' {
            return Err(ReadFault::BadPair { line: number });
        }
        if text.len() == 1 || text[1] == b' ' {
            return Err(ReadFault::NoData { line: number });
        }
        let body = &text[1..];
        let hex = &body[..data_len(body)];
        match count_pairs(hex) {
            None => Err(ReadFault::BadPair { line: number }),
            Some(count) if count > 256 => Err(ReadFault::TooWide { line: number }),
            Some(_) if at >= 1 << 62 => Err(ReadFault::AddressTooLarge { line: number }),
            Some(_) => Ok(Line { at, hex, number }),
        }
    }
}

/// How long the front is up to two spaces, or up to the end without one last space.
pub(crate) fn data_len(body: &[u8]) -> usize
    ensures within { result ≤ length body.now }
    ensures front { take result body.now ≡ data_of body.now }
{
    for (i, byte) in body.iter().enumerate() {
        if *byte == b' ' && (i + 1 == body.len() || body[i + 1] == b' ') {
            return i;
        }
    }
    body.len()
}

/// How many pairs of digits the text is.
fn count_pairs(hex: &[u8]) -> Option<usize>
    ensures { result ≡ pair_count hex.now }
{
    let mut at = 0;
    let mut count = 0;
    while hex.len() - at >= 2 {
        if !is_pair(hex[at], hex[at + 1]) {
            return None;
        }
        count += 1;
        at += 2;
        if at == hex.len() {
            return Some(count);
        }
        if hex[at] == b' ' {
            at += 1;
        }
    }
    None
}

/// Puts the bytes of the pairs at the front of `out`, and answers how many they are.
fn decode_pairs(hex: &[u8], out: &mut [u8]) -> usize
    requires few { IsTrue (few_pairs hex.now) }
    requires room { length out.old ≡ 256 }
    ensures bytes { pairs_of hex.now ≡ Some (take result out.new) }
    ensures rest { drop result out.new ≡ drop result out.old }
    ensures some { 0 < result }
    ensures most { result ≤ 256 }
{
    let mut at = 0;
    let mut count = 0;
    loop {
        out[count] = decoded(hex, at);
        count += 1;
        at += 2;
        if at == hex.len() {
            return count;
        }
        if hex[at] == b' ' {
            at += 1;
        }
    }
}

/// The byte of the two digits at a place.
fn decoded(text: &[u8], at: usize) -> u8
    requires within { at + 2 ≤ length text.now }
    requires digits { IsTrue (is_hex (slice_index text.now at) && is_hex (slice_index text.now (at + 1))) }
    ensures { result ≡ pair_value (slice_index text.now at) (slice_index text.now (at + 1)) }
{
    let mut byte = [0u8];
    let _ = decode_to_slice(&text[at..at + 2], &mut byte);
    byte[0]
}
