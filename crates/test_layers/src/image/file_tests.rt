//! Images in files: short and interrupted calls, files open for reading alone, and addresses past 4 GiB.
use crate::image::guarded::play;
use crate::slow::Slow;
use bx_image::{Device, FileImage, Operation, RandomAccess, Stop, SystemFile};
use std::fs::{self, File};
use std::process::Abort;
use std::test::Fail;

// How often each call of a file of 16 bytes is interrupted, and a script. The calls go through, but no step goes past the end, and the
// file keeps its length; or a call is interrupted a thousand times.
static INTERRUPTED: [(u32, &str); 5] = [
    (
        999,
        "len 16\nwrite 4 ABCDEFGH\nread 3 3ABCDEFGHc\nsync\ncut 16\nsync\nfaults 0\n!write 14 xyz\n!cut 3\nfaults 2",
    ),
    (1000, "!len 16\nfaults 1"),
    (1000, "!write 0 x"),
    (1000, "!cut 16"),
    (1000, "!sync\nfaults 1"),
];

// Whether ten bytes from a place on can be read.
fn reads_ten(rt: &impl Abort, interruptions: u32, at: u64) -> bool {
    let mut image = FileImage::new(Slow::new(interruptions));
    assert!(rt; image.faults() < u64::MAX);
    image.read_at(at, &mut [0; 10]).is_ok()
}

#[test]
fn short_and_interrupted_calls(rt: HostRuntime) {
    for (interruptions, script) in &INTERRUPTED {
        play(&rt, &mut FileImage::new(Slow::new(*interruptions)), script);
    }
    assert!(rt; reads_ten(&rt, 999, 6) && !reads_ten(&rt, 999, 10) && !reads_ten(&rt, 1000, 0));
}

// The bytes stay, and each sync that fails is counted.
#[test]
fn a_sync_that_fails(rt: HostRuntime) {
    let mut image = FileImage::new(Slow::full());
    let script = "write 4 ABC\n!sync\nread 3 3ABC7\n!sync\nfaults 2";
    play(&rt, &mut image, script);
}

// A write at 5 GiB; then the file is cut behind its first byte, and made to end a byte behind 8 GiB. In the end it is only open to be
// read.
#[test]
fn image_in_a_file(rt: HostRuntime) -> Result<(), Fail> {
    let name = "bx_image_in_a_file.tmp";
    let mut how = File::options();
    how.read(true).write(true).create(true).truncate(true);
    let mut image = FileImage::new(SystemFile::new(how.open(&rt, name)?));
    let script = "\
len 0
reserve 9223372036854775808
write 2 xyz
sync
read 0 ~~xyz
cut 3
cut 5
sync
read 0 ~~x~~
write 5368709120 far
len 5368709123
read 5368709119 ~far
cut 5368709121
cut 8589934593
len 8589934593
read 5368709120 f~~~
faults 0";
    play(&rt, &mut image, script);
    assert!(rt; image.faults() < u64::MAX);
    assert!(rt; image.read_at(8_589_934_590, &mut [0; 5]).is_err());
    let mut closed = FileImage::new(SystemFile::new(File::open(&rt, name)?));
    play(&rt, &mut closed, "!write 0 A\n!cut 0\nfaults 2");
    fs::remove_file(&rt, name)?;
    Ok(())
}

// A file of 16 bytes that may have 20: no call makes more room.
#[test]
fn a_fixed_image_stays_fixed(rt: HostRuntime) {
    let mut image = FileImage::fixed(Slow::new(0), 20);
    let script = "\
!reserve 21
len 16
!reserve 21
read 3 3456
!reserve 21
write 4 ABC
!reserve 21
cut 16
!reserve 21
!cut 5
!reserve 21
sync
!reserve 22
reserve 20";
    play(&rt, &mut image, script);
    assert!(rt; image.reserved() == 20 && image.refused() == Some(22));
}

// The last call of a file that failed.
fn failed(file: &SystemFile) -> Option<Operation> {
    file.failed.map(|call| call.operation)
}

// The system can't sync what is no file, and is only asked where the file waits for it.
#[test]
fn a_sync_reaches_the_system(rt: HostRuntime) -> Result<(), Fail> {
    let mut null = SystemFile::new(File::open(&rt, "/dev/null")?);
    assert!(rt; null.sync() == Err(Stop::Failed));
    assert!(rt; failed(&null) == Some(Operation::Sync));
    null.waits = false;
    assert!(rt; null.sync() == Ok(()));
    Ok(())
}

// Of a file that may only be read or written, and that has no other length.
#[test]
fn a_failed_call_is_kept(rt: HostRuntime) -> Result<(), Fail> {
    let mut null = SystemFile::new(File::open(&rt, "/dev/null")?);
    assert!(rt; null.write_some(0, b"A") == Err(Stop::Failed));
    assert!(rt; failed(&null) == Some(Operation::Write));
    assert!(rt; null.resize(1) == Err(Stop::Failed));
    assert!(rt; failed(&null) == Some(Operation::Resize));
    let mut written = SystemFile::new(File::options().write(true).open(&rt, "/dev/null")?);
    assert!(rt; written.read_some(0, &mut [0]) == Err(Stop::Failed));
    assert!(rt; failed(&written) == Some(Operation::Read));
    Ok(())
}
