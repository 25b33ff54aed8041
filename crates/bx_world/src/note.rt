//! What a note is: the text whose place a later one may take.
ghost use Rattle.std.specs.Prelude.{◌≡◌};
ghost use Rattle.std.specs.List.{list_all};
ghost use Rattle.bx_world.specs.Note.{is_front_behind, is_note, is_note_byte, is_zeros};

/// How many bytes a note has at most.
pub const MOST_NOTE: usize = 439;

/// Whether a byte stands in a note, or is the zero that a loss of power may leave there.
fn is_note_byte(b: u8) -> bool
    ensures { result ≡ is_note_byte b }
{
    matches!(b, b'0'..=b'9' | b'a'..=b'f' | b' ' | b'-' | b'\n' | 0)
}

/// Whether all bytes of a text are such.
fn are_note_bytes(text: &[u8]) -> bool
    ensures { result ≡ list_all is_note_byte text.now }
{
    for b in text {
        if !is_note_byte(*b) {
            return false;
        }
    }
    true
}

/// Whether a text begins with a word, behind which all are such bytes.
fn is_front_behind(word: &[u8], text: &[u8]) -> bool
    ensures { result ≡ is_front_behind word.now text.now }
{
    if !text.starts_with(word) {
        return false;
    }
    let (_, rest) = text.split_at(word.len());
    are_note_bytes(rest)
}

/// Whether a text is zeros, which a loss of power may leave.
fn is_zeros(text: &[u8]) -> bool
    ensures { result ≡ is_zeros text.now }
{
    let zeros = [0u8; MOST_NOTE];
    !text.is_empty() && zeros.starts_with(text)
}

/// Whether a text is one whose place a note may take: it has the whole first word of a note, of an older version too, and behind it bytes
/// that a note has; or zeros; and no more than a note. Of the empty text it says no: its caller knows whether that is one of its own.
pub fn is_note(text: &[u8]) -> bool
    ensures { result ≡ is_note text.now }
{
    text.len() <= MOST_NOTE
        && (is_front_behind(b"image3 ", text)
            || is_front_behind(b"image2 ", text)
            || is_front_behind(b"image1 ", text)
            || is_zeros(text))
}
