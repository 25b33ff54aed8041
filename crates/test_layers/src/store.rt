//! Texts behind fuses: which calls fail, and what a failed call leaves.
//!
//! A script has a call on each line: `reserve N`, `append TEXT`, `cut N`, `sync`, and what is looked at: `len N`, `read N TEXT` (two
//! bytes), `text TEXT`, `faults N`. A `!` in front says that the call fails.
use crate::shared::{Step, step_of};
use bx_image::Part;
use bx_journal_store::{FuseText, MemText, TextStore};
use std::alloc::{AllocError, Global};
use std::process::Abort;
use std::test::Fail;

fn reads<T: TextStore>(rt: &impl Abort, alloc: Global, store: &mut T, wanted: &str) -> bool {
    assert!(rt; store.faults() < u64::MAX);
    match store.read_all(alloc) {
        Ok(text) => text.as_slice() == wanted.as_bytes(),
        Err(_) => false,
    }
}

fn has_len<T: TextStore>(rt: &impl Abort, store: &mut T, wanted: u64) -> bool {
    assert!(rt; store.faults() < u64::MAX);
    store.len() == Ok(wanted)
}

// The two bytes from a place on.
fn reads_two<T: TextStore>(rt: &impl Abort, store: &mut T, at: u64, wanted: &str) -> bool {
    assert!(rt; store.faults() < u64::MAX);
    let Ok(len) = store.len() else {
        return false;
    };
    assert!(rt; len >= 2);
    assert!(rt; at <= len - 2);
    let mut bytes = [0; 2];
    store.read_at(at, &mut bytes).is_ok() && bytes.as_slice() == wanted.as_bytes()
}

fn appends<T: TextStore>(rt: &impl Abort, store: &mut T, bytes: &[u8]) -> bool {
    assert!(rt; store.faults() < u64::MAX);
    let Ok(len) = store.len() else {
        return false;
    };
    let room = store.reserved();
    assert!(rt; len <= room);
    assert!(rt; bytes.len() as u64 <= room - len);
    store.append(bytes).is_ok()
}

fn cuts<T: TextStore>(rt: &impl Abort, store: &mut T, len: u64) -> bool {
    assert!(rt; store.faults() < u64::MAX);
    let Ok(old) = store.len() else {
        return false;
    };
    assert!(rt; len <= old);
    store.cut(len).is_ok()
}

fn syncs<T: TextStore>(rt: &impl Abort, store: &mut T) -> bool {
    assert!(rt; store.faults() < u64::MAX);
    store.sync().is_ok()
}

// Makes a call, or looks. Whether it succeeds.
fn succeeds<T: TextStore>(rt: &impl Abort, alloc: Global, store: &mut T, step: Step<'_>) -> bool {
    match step.word {
        "reserve" => store.reserve(step.number).is_ok(),
        "append" => appends(rt, store, step.value.as_bytes()),
        "cut" => cuts(rt, store, step.number),
        "sync" => syncs(rt, store),
        "len" => has_len(rt, store, step.number),
        "read" => reads_two(rt, store, step.number, step.text),
        "text" => reads(rt, alloc, store, step.value),
        _ => store.faults() == step.number,
    }
}

fn play<T: TextStore>(rt: &impl Abort, alloc: Global, store: &mut T, script: &str) {
    for line in script.lines() {
        let step = step_of(line);
        let right = succeeds(rt, alloc, store, step) != step.fails;
        assert!(rt; right, "{line}");
    }
}

// A text, how many calls that write pass, which part of a failed one takes effect, whether it fails once, and a script: appends,
// cuts, and syncs, which fail as appends do.
static WRITES: [(&str, u64, Part, bool, &str); 9] = [
    (
        "",
        2,
        Part::Nothing,
        true,
        "reserve 9\nappend AB\nappend C\n!append xyzuv\nappend !\ntext ABC!\nfaults 1",
    ),
    (
        "",
        2,
        Part::Half,
        true,
        "reserve 9\nappend AB\nappend C\n!append xyzuv\nappend !\ntext ABCxy!\nfaults 1",
    ),
    (
        "",
        2,
        Part::All,
        true,
        "reserve 9\nappend AB\nappend C\n!append xyzuv\nappend !\ntext ABCxyzuv!\nfaults 1",
    ),
    (
        "ABCDEF",
        0,
        Part::Nothing,
        false,
        "!cut 1\nlen 6\n!append \nfaults 2",
    ),
    (
        "ABCDEF",
        0,
        Part::Half,
        false,
        "!cut 1\nlen 4\n!append \nfaults 2",
    ),
    (
        "ABCDEF",
        0,
        Part::All,
        false,
        "!cut 1\nlen 1\n!append \nfaults 2",
    ),
    (
        "",
        1,
        Part::All,
        true,
        "reserve 9\nappend AB\n!sync\ntext AB\nsync\nappend C\nfaults 1",
    ),
    (
        "",
        1,
        Part::All,
        false,
        "reserve 9\nappend AB\n!sync\ntext AB\n!sync\n!append C\nfaults 3",
    ),
    (
        "",
        2,
        Part::Nothing,
        true,
        "reserve 9\nsync\nsync\n!append AB\nlen 0\nsync\nfaults 1",
    ),
];

fn text_of(alloc: Global, text: &str) -> Result<MemText, AllocError> {
    Ok(MemText::from_vec(text.as_bytes().to_vec(alloc)?))
}

#[test]
fn text_writes_fail(rt: HostRuntime) -> Result<(), Fail> {
    for (text, pass, part, once, script) in &WRITES {
        let text = text_of(rt.alloc(), text)?;
        let mut text = FuseText::new(text, *pass, *part, *once);
        play(&rt, rt.alloc(), &mut text, script);
    }
    Ok(())
}

// How many reads of four bytes pass, and a script; the reading of two bytes asks for the length first.
static READS: [(u64, &str); 2] = [
    (2, "len 4\ntext ABCD\n!text ABCD\n!len 4\nsync\nfaults 2"),
    (3, "read 1 BC\n!read 1 BC\nfaults 1"),
];

// Where reading fails a text can be cut.
#[test]
fn text_reads_fail(rt: HostRuntime) -> Result<(), Fail> {
    for (pass, script) in &READS {
        let mut text = FuseText::on_reads(text_of(rt.alloc(), "ABCD")?, *pass);
        play(&rt, rt.alloc(), &mut text, script);
        assert!(rt; text.faults() < u64::MAX);
        assert!(rt; text.cut(0) == Ok(()));
        assert!(rt; text.into_inner().as_slice().is_empty());
    }
    Ok(())
}
