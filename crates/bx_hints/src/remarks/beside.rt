//! The characters beside the digits of a dump, which a revert doesn't read.
ghost use Rattle.std.specs.Prelude.{◌≡◌, ◌*◌, ◌≤◌, length, max, nat_lt};
ghost use Rattle.bx_hints.specs.private.Beside.{agreeing};

use bx_read::Line;

/// The number, from 1, of the first line of a dump whose characters mostly aren't those of its bytes, as in dumps of `xxd -b`
/// and `xxd -e`. The characters are what stands after two spaces, without white space at its ends; a line without any is
/// passed over, and so is one that is no line of a dump.
pub fn unlike_line(dump: &[u8]) -> Option<u64> {
    let mut number = 0u64;
    for line in dump.split(|byte| *byte == b'\n') {
        number = number.saturating_add(1);
        if is_unlike(line, number) {
            return Some(number);
        }
    }
    None
}

/// Whether the line with this number has characters, and most of them aren't those of its bytes.
fn is_unlike(line: &[u8], number: u64) -> bool {
    let text = text_beside(line);
    if text.is_empty() {
        return false;
    }
    match Line::parse(line, number) {
        Ok(line) => {
            let mut bytes = [0u8; 256];
            let count = line.decode(&mut bytes);
            show(&mut bytes);
            agree_seldom(bytes[..count].trim_ascii(), text)
        }
        Err(_) => false,
    }
}

/// Puts a dot in the place of each byte that doesn't print in ASCII, as dumps do.
fn show(bytes: &mut [u8]) {
    for byte in bytes.iter_mut() {
        if !(0x20..=0x7e).contains(byte) {
            *byte = b'.';
        }
    }
}

/// What stands behind the first two spaces of a line, without white space at its ends.
fn text_beside(line: &[u8]) -> &[u8] {
    match line
        .windows(2)
        .position(|pair| matches!(pair, [b' ', b' ']))
    {
        Some(at) => line[at..].trim_ascii(),
        None => b"",
    }
}

/// Whether fewer than half of the places hold one character in both.
fn agree_seldom(shown: &[u8], text: &[u8]) -> bool
    ensures { result ≡ nat_lt (2 * agreeing shown.now text.now) (max (length shown.now) (length text.now)) }
{
    2 * agreeing(shown, text) < shown.len().max(text.len())
}

/// How many places hold one character in both.
#[tactic(auto, using(crate::proofs::AgreeingLemmas::agreeing_same, crate::proofs::AgreeingLemmas::agreeing_other, crate::proofs::AgreeingLemmas::agreeing_none, crate::proofs::AgreeingLemmas::agreeing_no_text))]
fn agreeing(shown: &[u8], text: &[u8]) -> usize
    ensures count { result ≡ agreeing shown.now text.now }
    ensures bound { result ≤ length shown.now }
{
    if shown.is_empty() || text.is_empty() {
        return 0;
    }
    // At most 256 deep, as many bytes as a line has; the lemmas are its equations, and a loop would need an invariant.
    let behind = agreeing(&shown[1..], &text[1..]);
    if shown[0] == text[0] {
        behind + 1
    } else {
        behind
    }
}
