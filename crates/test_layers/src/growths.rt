//! Words that are pushed, with each growth refused in turn, and pushed again with room enough.
use bumpalo::Bump;
use bx_text::Words;
use std::alloc::{AllocError, Global};
use std::process::Abort;
use std::test::Fail;
use test_arena::{ration, used};

/// The words take no more words of eight bytes.
const MOST_WORDS: usize = 600;

static TEXTS: [&str; 5] = [
    "one",
    "a second word",
    "three",
    "a fourth word of more",
    "five",
];

/// How many bytes were handed out when memory was refused; nothing where all were pushed.
type Refused = Option<usize>;

/// Pushes a word. Where that is refused the words stay, and with more memory the same call goes through.
fn push_one<'a>(
    rt: &impl Abort,
    bump: &'a Bump,
    words: &mut Words<&'a Bump>,
    text: &str,
    bytes: usize,
) -> Refused {
    let count = words.len();
    if words.push(text).is_ok() {
        return None;
    }
    let taken = used(bump, bytes);
    assert!(rt; words.len() == count);
    bump.set_allocation_limit(None);
    assert!(rt; words.push(text).is_ok());
    Some(taken)
}

fn pushes<'a>(rt: &impl Abort, bump: &'a Bump, bytes: usize) -> Refused {
    let mut words = Words::new(bump);
    let mut refused = None;
    for (place, text) in TEXTS.iter().enumerate() {
        if let Some(taken) = push_one(rt, bump, &mut words, text, bytes) {
            assert!(rt; refused.is_none());
            refused = Some(taken);
        }
        assert!(rt; words.get(place) == Some(text));
    }
    assert!(rt; words.get(0) == Some("one"));
    refused
}

/// Pushes the words in an arena of their own.
fn pushes_in(rt: &impl Abort, alloc: Global, bytes: usize) -> Result<Refused, AllocError> {
    let bump = ration(alloc, bytes)?;
    Ok(pushes(rt, &bump, bytes))
}

// Each of at least seven growths is the first to be refused with some bytes.
#[test]
fn growths_of_words(rt: HostRuntime) -> Result<(), Fail> {
    let mut count = 0u32;
    let mut last = usize::MAX;
    for words in 0..MOST_WORDS {
        let Some(taken) = pushes_in(&rt, rt.alloc(), words * 8)? else {
            assert!(rt; count >= 7);
            return Ok(());
        };
        if taken != last {
            last = taken;
            count = count.saturating_add(1);
        }
    }
    Err("no arena had room")?
}
