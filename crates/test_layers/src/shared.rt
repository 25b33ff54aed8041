//! What the tests of several layers use.

/// The first `count` bytes, or all.
pub fn front(bytes: &[u8], count: usize) -> &[u8] {
    &bytes[..count.min(bytes.len())]
}

/// One line of a script: a word, what stands behind it, and whether the call fails, as a `!` in front says. The number and the text
/// are what stands on both sides of a space, or what stands there where it is one of both alone.
#[derive(Clone, Copy)]
pub struct Step<'a> {
    pub fails: bool,
    pub word: &'a str,
    pub value: &'a str,
    pub number: u64,
    pub text: &'a str,
}

/// The step that a line tells.
pub fn step_of(line: &str) -> Step<'_> {
    let call = line.strip_prefix('!').unwrap_or(line);
    let (word, value) = call.split_once(' ').unwrap_or((call, ""));
    let (first, text) = value.split_once(' ').unwrap_or((value, value));
    Step {
        fails: call.len() < line.len(),
        word,
        value,
        number: first.parse::<u64>().unwrap_or(0),
        text,
    }
}

/// Whether these are the bytes; `~` stands for a zero.
pub fn are_told(found: &[u8], told: &str) -> bool {
    if found.len() != told.len() {
        return false;
    }
    for (byte, told) in found.iter().zip(told.as_bytes().iter()) {
        if *byte != *told && (*byte != 0 || *told != b'~') {
            return false;
        }
    }
    true
}
