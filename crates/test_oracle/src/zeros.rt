//! How much of a journal is read, where a loss of power may have left zeros in it.

/// Whether a byte may stand behind the first zero: one of a text, or another zero.
fn is_zero_or_text(byte: u8) -> bool {
    byte == 0 || byte == b'\n' || (byte >= 0x20 && byte <= 0x7e)
}

/// Whether a whole line is one that ends an entry, or was one in an older form.
fn is_end_line(line: &[u8]) -> bool {
    line.starts_with(b"done") && line.iter().all(|b| *b != 0)
}

/// Whether a whole line that ends an entry stands behind a newline of this text.
fn has_end_line(text: &[u8]) -> bool {
    let mut is_behind_newline = false;
    let mut line = b"".as_slice();
    for part in text.split(|b| *b == b'\n') {
        // (the part before is whole, since a newline follows it)
        if is_end_line(line) {
            return true;
        }
        if is_behind_newline {
            line = part;
        }
        is_behind_newline = true;
    }
    false
}

/// The front of a journal that is read: what stands before its first zero, where all from there on are zeros or text, and no
/// entry ends there; else all of it. The first byte is on the disk before any other, so a longer text that begins with a zero is
/// none.
pub fn read_front(journal: &[u8]) -> &[u8] {
    let Some(first) = journal.iter().position(|b| *b == 0) else {
        return journal;
    };
    let (front, rest) = journal.split_at(first.min(journal.len()));
    if front.is_empty() && rest.len() > 1 {
        return journal;
    }
    if rest.iter().all(|b| is_zero_or_text(*b)) && !has_end_line(rest) {
        front
    } else {
        journal
    }
}
