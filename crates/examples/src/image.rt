//! A change of an image, and the record that takes it back: bx_image.
ghost use Rattle.std.specs.Prelude.{◌≡◌, ◌+◌, ◌<◌, OnOk};

use anyhow::Result;
use bx_image::{Change, Device, ImageFault, MemImage, apply, check, save};
use bx_text::{Bytes, Piece, Pieces};
use std::alloc::{AllocError, Allocator};
use std::io::{self, Write};

/// The change that puts bytes at an address.
pub fn patch<A: Allocator + Clone>(
    alloc: A,
    at: u64,
    bytes: &[u8],
) -> Result<Change<A>, AllocError> {
    let bytes = Bytes::from_vec(bytes.to_vec(alloc.clone()?)?);
    let mut writes = Vec::new(alloc);
    writes.push(Piece { at, bytes })?;
    Ok(Change {
        base: None,
        writes: Pieces::from_vec(writes),
    })
}

/// Makes a change, and takes it back by what was saved before it.
fn there_and_back<D: Device, A: Allocator + Clone>(
    alloc: A,
    device: &mut D,
    change: &Change<A>,
) -> Result<(), ImageFault>
    requires { D.failures device.old + 4 < u64.MAX }
    ensures { D.faithful device.old → OnOk result (D.image device.new ≡ D.image device.old) }
{
    let len = check(change, device.len()?).map_err(|_| ImageFault::TooLarge)?;
    let saved = save(alloc, device, change)?;
    device
        .reserve(len.max(saved.len))
        .map_err(|_| ImageFault::NoMemory)?;
    apply(device, change)?;
    apply(device, &saved.into_change())?;
    Ok(())
}

pub fn show<R: Print + AllocGlobal>(rt: &R) -> Result<()> {
    let mut image = MemImage::from_vec(b"firmware\n".to_vec(rt.alloc())?);
    let change = patch(rt.alloc(), 4, b"WARE, longer than it was")?;
    there_and_back(rt.alloc(), &mut image, &change)?;
    io::writer(rt).write_all(image.as_slice())?;
    Ok(())
}
