//! Images in pages: pages that are refused.
use crate::image::guarded::play;
use bx_image::{Device, PagedImage};
use linked_list_allocator::LocalHeap;
use std::alloc::Global;
use std::process::Abort;
use std::test::Fail;

// Whether a heap of `bytes` bytes has two pages more behind one. Where it hasn't the room stays, and the page goes on.
fn has_three(rt: &impl Abort, alloc: Global, bytes: usize) -> Result<bool, Fail> {
    let heap = LocalHeap::new(alloc, bytes)?;
    let mut image = PagedImage::new(&heap);
    play(rt, &mut image, "reserve 4096\nwrite 0 kept");
    let room = image.reserved();
    let grown = image.reserve(3 * 4096).is_ok();
    assert!(rt; grown || image.reserved() == room);
    play(rt, &mut image, "write 4092 more\nlen 4096\nread 0 kept");
    Ok(grown)
}

#[test]
fn each_page_refused(rt: HostRuntime) -> Result<(), Fail> {
    let mut refused = 0u32;
    for units in 10..40 {
        if !has_three(&rt, rt.alloc(), units * 512)? {
            refused = refused.saturating_add(1);
        }
    }
    assert!(rt; refused > 8 && refused < 30);
    Ok(())
}
