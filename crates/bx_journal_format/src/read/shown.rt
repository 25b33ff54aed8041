//! How much of a text is read, where a loss of power may have torn its end into zeros.
ghost use Rattle.std.specs.Prelude.{◌≡◌, ◌≤◌, ◌++◌, ◌∷◌, List, ℕ, length, take};
ghost use Rattle.bx_journal_format.specs.Shown.{before_zero, shown};
ghost use Rattle.bx_journal_format.specs.read.Faded.{FadedIsFront};
ghost use Rattle.bx_journal_format.specs.read.Left.{IsTornAs, is_torn};

/// The word that an end line begins with.
const DONE: [u8; 4] = [b'd', b'o', b'n', b'e'];

/// The last line of what was looked at from a zero on.
#[derive(Clone, Copy)]
pub enum LastLine {
    /// It has a zero, or no line behind a newline begins so.
    Other,
    /// Behind a newline stand the first `letters` letters of `done`, and all of the word where they are four or more.
    End { letters: usize },
}

/// What is left of a text is read as a front of it.
pub fn faded_is_front()
    ensures { FadedIsFront }
{}

/// Where the first zero stands, or else how long the text is.
pub fn zero_at(text: &[u8]) -> usize
    ensures { result ≡ length (before_zero text.now) }
{
    for i in 0..text.len() {
        if text[i] == 0 {
            return i;
        }
    }
    text.len()
}

/// The last line with one printing byte more.
fn with_byte(line: LastLine, b: u8) -> LastLine
    requires { (32 ≤ b) × (b ≤ 126) }
    ensures { (rest : List ℕ) → is_torn line (b ∷ rest) ≡ is_torn result rest }
{
    match line {
        LastLine::Other => LastLine::Other,
        LastLine::End { letters } => {
            if letters >= DONE.len() {
                return LastLine::End { letters };
            }
            if DONE[letters] != b {
                return LastLine::Other;
            }
            LastLine::End {
                letters: letters + 1,
            }
        }
    }
}

/// The last line behind a newline more. It answers none where the newline ends an end line.
fn with_newline(line: LastLine) -> Option<LastLine>
    ensures { (rest : List ℕ) → IsTornAs result (is_torn line (10 ∷ rest)) rest }
{
    if let LastLine::End { letters } = line {
        if letters >= DONE.len() {
            return None;
        }
    }
    Some(LastLine::End { letters: 0 })
}

/// The last line with one byte more. It answers none where no loss of power leaves the byte, and where it ends an end line.
fn with_any(line: LastLine, b: u8) -> Option<LastLine>
    ensures { (rest : List ℕ) → IsTornAs result (is_torn line (b ∷ rest)) rest }
{
    if b == b'\n' {
        return with_newline(line);
    }
    if b == 0 {
        return Some(LastLine::Other);
    }
    if b < b' ' {
        return None;
    }
    if b > b'~' {
        return None;
    }
    Some(with_byte(line, b))
}

/// The last line with more bytes. It answers none where a loss of power doesn't leave them: where one is of another file, and where an end
/// line ends among them.
pub fn follow_zero(line: LastLine, bytes: &[u8]) -> Option<LastLine>
    ensures { (rest : List ℕ) → IsTornAs result (is_torn line (bytes.now ++ rest)) rest }
{
    let mut now = line;
    for byte in bytes {
        now = with_any(now, *byte)?;
    }
    Some(now)
}

/// How many of the text's bytes are read.
pub fn shown_len(text: &[u8]) -> usize
    ensures { take result text.now ≡ shown text.now }
{
    let n = zero_at(text);
    if n == 0 {
        if text.len() > 1 {
            return text.len();
        }
    }
    let rest = &text[n..];
    match follow_zero(LastLine::Other, rest) {
        Some(_) => n,
        None => text.len(),
    }
}
