//! Dumps of every length.
use crate::expected::run_line;
use bx_cli::{Done, Fault};
use std::alloc::Global;
use std::process::Abort;

/// Bytes with equal rows, text and other bytes in them.
fn sample() -> [u8; 600] {
    let mut bytes = [0; 600];
    let mut next = 11u8;
    for (i, byte) in bytes.iter_mut().enumerate() {
        next = next.wrapping_mul(5).wrapping_add(37);
        if i >= 100 {
            *byte = if i < 250 { b'a' + next % 16 } else { next };
        }
    }
    bytes
}

/// What a dump of these bytes answers.
fn dumped(alloc: Global, line: &str, bytes: &[u8]) -> Result<Done, Fault> {
    let mut from = bytes;
    run_line(alloc, line, &mut from, &mut Vec::new(alloc))
}

// Each front of the bytes is dumped to its end.
fn assert_fronts(rt: &impl Abort, alloc: Global, line: &str, bytes: &[u8]) {
    for n in 0..=bytes.len() {
        let front = &bytes[..n.min(bytes.len())];
        assert!(rt; dumped(alloc, line, front) == Ok(Done::Dumped(n as u64)));
    }
}

#[test]
fn every_length(rt: HostRuntime) {
    let bytes = sample();
    let lines = "xxd,od,hexdump -C,strings,od -b,od -tx1,od -tx2,od -tx4,od -tx8";
    for line in lines.split(',') {
        assert_fronts(&rt, rt.alloc(), line, &bytes);
    }
}
