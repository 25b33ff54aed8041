//! Fuses: what a failed call leaves, and which calls a change and its saving make.
use crate::image::guarded::{change, play};
use bx_image::{Change, Device, FuseImage, MemImage, Part, apply, check, save};
use std::alloc::{AllocError, Global};
use std::process::Abort;
use std::test::Fail;

fn memory(alloc: Global, bytes: &[u8]) -> Result<MemImage, AllocError> {
    Ok(MemImage::from_vec(bytes.to_vec(alloc)?))
}

// Of six bytes: how many calls that write pass, which part of a failed one takes effect, whether it fails once, and a script: writes,
// changes of the length, and syncs, which fail as writes do.
static WRITES: [(u64, Part, bool, &str); 12] = [
    (
        1,
        Part::Nothing,
        true,
        "reserve 6\nwrite 0 x\n!write 2 yzw\nlen 6\nwrite 5 !\nread 0 xBCDE!\nfaults 1",
    ),
    (
        1,
        Part::Half,
        true,
        "reserve 6\nwrite 0 x\n!write 2 yzw\nlen 6\nwrite 5 !\nread 0 xByDE!\nfaults 1",
    ),
    (
        1,
        Part::All,
        true,
        "reserve 6\nwrite 0 x\n!write 2 yzw\nlen 6\nwrite 5 !\nread 0 xByzw!\nfaults 1",
    ),
    (
        0,
        Part::Nothing,
        false,
        "!cut 1\nlen 6\n!write 0 ?\nfaults 2",
    ),
    (0, Part::Half, false, "!cut 1\nlen 4\n!write 0 ?\nfaults 2"),
    (0, Part::All, false, "!cut 1\nlen 1\n!write 0 ?\nfaults 2"),
    (
        0,
        Part::Nothing,
        false,
        "reserve 9\n!cut 9\nlen 6\n!write 0 ?\nfaults 2",
    ),
    (
        0,
        Part::Half,
        false,
        "reserve 9\n!cut 9\nlen 7\n!write 0 ?\nfaults 2",
    ),
    (
        0,
        Part::All,
        false,
        "reserve 9\n!cut 9\nlen 9\n!write 0 ?\nfaults 2",
    ),
    (
        1,
        Part::All,
        true,
        "reserve 6\nwrite 0 x\n!sync\nread 0 xB\nsync\nwrite 1 y\nfaults 1",
    ),
    (
        1,
        Part::All,
        false,
        "reserve 6\nwrite 0 x\n!sync\nread 0 xB\n!sync\n!write 1 y\nfaults 3",
    ),
    (
        2,
        Part::Nothing,
        true,
        "reserve 6\nsync\nsync\n!write 0 x\nread 0 AB\nsync\nfaults 1",
    ),
];

#[test]
fn image_writes_fail(rt: HostRuntime) -> Result<(), Fail> {
    for (pass, part, once, script) in &WRITES {
        let image = memory(rt.alloc(), b"ABCDEF")?;
        let mut image = FuseImage::new(image, *pass, *part, *once);
        play(&rt, &mut image, script);
    }
    Ok(())
}

// The second of two bytes that are read fails, or the length before them. Calls that write pass where reads fail.
#[test]
fn image_reads_fail(rt: HostRuntime) -> Result<(), Fail> {
    for pass in [2, 3] {
        let mut image = FuseImage::on_reads(memory(rt.alloc(), b"ABCD")?, pass);
        let script = "read 1 BC\n!read 0 AB\nreserve 4\nwrite 0 x\nsync\ncut 3\n!len 3\nfaults 2";
        play(&rt, &mut image, script);
        assert!(rt; image.into_inner().as_slice() == b"xBC".as_slice());
    }
    Ok(())
}

// Does the change go through where the first `pass` calls that write pass?
fn applies(rt: &impl Abort, alloc: Global, change: &Change, pass: u64) -> Result<bool, Fail> {
    let mut image = FuseImage::new(memory(alloc, b"ABCDEF")?, pass, Part::Nothing, false);
    image.reserve(check(change, 6)?)?;
    assert!(rt; image.faults() < u64::MAX);
    Ok(apply(&mut image, change).is_ok())
}

/// Where a change cuts the image, its writes, and how many calls it makes.
type Calls = (Option<u64>, &'static [(u64, &'static [u8])], u64);

// `apply` makes one `set_len` where there is a base, and one `write_at` for each write that isn't empty. A first write at the base that
// goes up to the image's end, or past it, makes the `set_len` needless.
static APPLIED: [Calls; 8] = [
    (None, &[(1, b"x"), (100, b""), (3, b"yz")], 2),
    (Some(4), &[(1, b"x"), (100, b""), (3, b"yz")], 3),
    (Some(4), &[(4, b"yz")], 1),
    (Some(4), &[(4, b"xyz")], 1),
    (Some(6), &[(6, b"")], 0),
    (Some(4), &[(4, b"y")], 2),
    (Some(5), &[(5, b"")], 1),
    (Some(7), &[(7, b"x")], 2),
];

#[test]
fn calls_of_apply(rt: HostRuntime) -> Result<(), Fail> {
    for (base, writes, calls) in &APPLIED {
        let change = change(rt.alloc(), *base, writes)?;
        for pass in 0..5u64 {
            assert!(rt; applies(&rt, rt.alloc(), &change, pass)? == (pass >= *calls));
        }
    }
    Ok(())
}

// Is all saved where the first `pass` calls that read pass?
fn saves(rt: &impl Abort, alloc: Global, change: &Change, pass: u64) -> Result<bool, Fail> {
    let mut image = FuseImage::on_reads(memory(alloc, b"ABCDEFGHIJ")?, pass);
    assert!(rt; image.faults() < u64::MAX);
    Ok(save(alloc, &mut image, change).is_ok())
}

// `save` asks for the length once, and reads each of three runs once.
#[test]
fn calls_of_save(rt: HostRuntime) -> Result<(), Fail> {
    let writes: [(u64, &[u8]); 4] = [(8, b"X"), (2, b"XY"), (3, b"Z"), (6, b"[")];
    let change = change(rt.alloc(), Some(9), &writes)?;
    for pass in 0..6u64 {
        assert!(rt; saves(&rt, rt.alloc(), &change, pass)? == (pass >= 4));
    }
    Ok(())
}
