//! A patch that is put onto the old image by a plain program, as `docs/FORMATS.md` says, and onto the new one the other way round.
use crate::patches::write::written;
use bx_patch::{Extent, Patch, PatchLengths, read_patch};
use bx_text::Piece;
use std::alloc::Global;
use test_case_files::PatchWritten;
use test_case_sessions::report::compare::{Wrong, differs, same_bytes};

/// What is written of a case makes the new image of the old one, and the old one of the new one.
pub fn makes_new(alloc: Global, case: &PatchWritten) -> Result<u32, Wrong> {
    for extent in [Extent::Bytes, Extent::Rows] {
        both_ways(alloc, case, extent)?;
    }
    Ok(2)
}

/// The patch is put onto one image and then the other way round onto the other.
fn both_ways(alloc: Global, case: &PatchWritten, extent: Extent) -> Result<(), Wrong> {
    let text = written(alloc, case, extent, usize::MAX)?;
    let patch = match read_patch(alloc, text.as_slice()) {
        Ok(patch) => patch,
        Err(fault) => {
            let found = format!(in alloc; "{fault}")?;
            return Err(differs(alloc, "reading", "no fault", found.as_str()));
        }
    };
    let Patch {
        lengths,
        expected,
        written,
    } = patch;
    let there = put(
        alloc,
        case.old.as_slice(),
        lengths,
        expected.as_slice(),
        written.as_slice(),
    )?;
    same_bytes(alloc, "new image", case.new.as_slice(), there.as_slice())?;
    let back = lengths.map(|lengths| PatchLengths {
        old: lengths.new,
        new: lengths.old,
    });
    let here = put(
        alloc,
        case.new.as_slice(),
        back,
        written.as_slice(),
        expected.as_slice(),
    )?;
    same_bytes(alloc, "old image", case.old.as_slice(), here.as_slice())
}

/// An image with the pieces of a patch that agrees with it.
fn put(
    alloc: Global,
    image: &[u8],
    lengths: Option<PatchLengths>,
    expected: &[Piece],
    written: &[Piece],
) -> Result<Vec<u8>, Wrong> {
    if lengths.is_some_and(|lengths| lengths.old != image.len() as u64) {
        return Err(differs(alloc, "length", "that of the image", "another"));
    }
    for piece in expected {
        if bytes_at(image, piece) != piece.bytes.as_slice() {
            return Err(differs(alloc, "expected bytes", "those of the image", "others"));
        }
    }
    let mut bytes = image.to_vec(alloc)?;
    if let Some(lengths) = lengths {
        resize(&mut bytes, lengths.new as usize)?;
    }
    put_pieces(&mut bytes, written)?;
    Ok(bytes)
}

/// As many bytes of an image as a piece has, at its address.
fn bytes_at<'a>(image: &'a [u8], piece: &Piece) -> &'a [u8] {
    let begin = (piece.at as usize).min(image.len());
    let end = begin
        .saturating_add(piece.bytes.as_slice().len())
        .min(image.len());
    &image[begin..end]
}

/// Cuts bytes, or fills them up with zeros.
fn resize(bytes: &mut Vec<u8>, len: usize) -> Result<(), Wrong> {
    bytes.truncate(len);
    for _ in bytes.len()..len {
        bytes.push(0)?;
    }
    Ok(())
}

/// Puts pieces at their addresses.
fn put_pieces(bytes: &mut Vec<u8>, pieces: &[Piece]) -> Result<(), Wrong> {
    for piece in pieces {
        put_piece(bytes, piece.at as usize, piece.bytes.as_slice())?;
    }
    Ok(())
}

/// Puts bytes at an address, behind zeros where it is past the end.
fn put_piece(bytes: &mut Vec<u8>, at: usize, piece: &[u8]) -> Result<(), Wrong> {
    let end = at.saturating_add(piece.len());
    if bytes.len() < end {
        resize(bytes, end)?;
    }
    for (place, byte) in bytes.iter_mut().skip(at).zip(piece.iter()) {
        *place = *byte;
    }
    Ok(())
}
