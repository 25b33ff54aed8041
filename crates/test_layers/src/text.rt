//! Sources: what is read to its end, the byte past the limit, and refused growths.
use bx_text::{IoFault, Source};
use linked_list_allocator::LocalHeap;
use std::alloc::{Allocator, Global};
use std::process::Abort;
use std::test::Fail;

// Whether what is left is these bytes.
fn has_rest<A: Allocator>(
    alloc: A,
    source: &mut Source<&[u8]>,
    bytes: &[u8],
) -> Result<bool, IoFault> {
    match source.rest(alloc) {
        Ok(rest) => Ok(rest.as_slice() == bytes),
        Err(fault) => Err(fault),
    }
}

#[test]
fn source_limit(rt: HostRuntime) {
    for (limit, answer) in [(3, Ok(true)), (2, Err(IoFault::InputTooLong))] {
        let mut source = Source::new(b"abc".as_slice(), limit);
        assert!(rt; has_rest(rt.alloc(), &mut source, b"abc") == answer);
    }
}

// How much was read when a heap of `room` bytes had no more, which has all back then; nothing where all was read.
fn refused_in(
    rt: &impl Abort,
    alloc: Global,
    bytes: &[u8],
    room: usize,
) -> Result<Option<u64>, Fail> {
    let heap = LocalHeap::new(alloc, room)?;
    let mut source = Source::new(bytes, 1 << 20);
    let outcome = has_rest(&heap, &mut source, bytes);
    assert!(rt; heap.used() == 0);
    if outcome == Ok(true) {
        return Ok(None);
    }
    assert!(rt; outcome == Err(IoFault::NoMemory));
    Ok(Some(source.taken()))
}

// Each growth of `rest` is the first to be refused in some heap: for one page, for two, and for the end.
#[test]
fn growths_of_rest(rt: HostRuntime) -> Result<(), Fail> {
    let bytes = vec![in rt.alloc(); 7u8; 150_000]?;
    let mut seen = 0u8;
    for parts in 1..32usize {
        seen |= match refused_in(&rt, rt.alloc(), bytes.as_slice(), parts * 16_384)? {
            Some(65_536) => 1,
            Some(131_072) => 2,
            Some(150_000) => 4,
            Some(_) => 0,
            None => 8,
        };
    }
    assert!(rt; seen == 15);
    Ok(())
}
