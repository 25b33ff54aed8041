//! What a loss of power leaves: of what was written since the last sync all, nothing, the first half, or zeros.
use crate::report::compare::{Wrong, front};
use crate::session::cache::{CachedDevices, CachedImage, CachedText, Pending, place};
use crate::session::devices::{Held, Texts};
use std::alloc::Global;

/// About how many of the calls that changed an image are lost alone.
const LOST_ALONE: usize = 4;

/// What is left of a call that changed an image.
#[derive(Clone, Copy)]
enum Left {
    All,
    Half,
    Zeros,
    Nothing,
}

/// How calls that changed an image are lost.
#[derive(Clone, Copy)]
enum Loss {
    /// The first half of them is left.
    Half,
    /// Lengths are left, and zeros in the place of bytes.
    Zeros,
    /// All are left but this one.
    Alone(usize),
}

impl Loss {
    /// What is left of a call, by its place among all.
    fn left(self, call: usize, calls: usize) -> Left {
        let half = calls / 2;
        match self {
            Loss::Zeros => Left::Zeros,
            Loss::Alone(lost) if lost == call => Left::Nothing,
            Loss::Alone(_) => Left::All,
            Loss::Half if call < half => Left::All,
            Loss::Half if call == half && half.saturating_mul(2) < calls => Left::Half,
            Loss::Half => Left::Nothing,
        }
    }
}

/// Between these lengths, rounded down.
fn midway(a: usize, b: usize) -> usize {
    let least = a.min(b);
    least.saturating_add(a.max(b).saturating_sub(least) / 2)
}

/// Does to an image what is left of a call.
fn redo_part(alloc: Global, image: &mut Vec<u8>, call: &Pending, left: Left) -> Result<(), Wrong> {
    match (call, left) {
        (_, Left::Nothing) => {}
        (Pending::Write { at, bytes }, Left::All) => place(image, *at, bytes.as_slice())?,
        (Pending::Write { at, bytes }, Left::Half) => {
            place(image, *at, front(bytes.as_slice(), bytes.len() / 2))?;
        }
        (Pending::Write { at, bytes }, Left::Zeros) => {
            let zeros = vec![in alloc; 0u8; bytes.len()]?;
            place(image, *at, zeros.as_slice())?;
        }
        (Pending::Length(len), Left::Half) => {
            let len = midway(image.len(), *len);
            image.resize(len, 0)?;
        }
        (Pending::Length(len), _) => image.resize(*len, 0)?,
    }
    Ok(())
}

/// What a loss leaves of an image.
fn lost_image(alloc: Global, image: &CachedImage, loss: Loss) -> Result<Vec<u8>, Wrong> {
    let mut left = image.disk.as_slice().to_vec(alloc)?;
    let calls = image.pending.len();
    for (i, call) in image.pending.iter().enumerate() {
        redo_part(alloc, &mut left, call, loss.left(i, calls))?;
    }
    Ok(left)
}

/// Adds a content to a list, where it isn't there.
fn push_new(list: &mut Vec<Vec<u8>>, bytes: Vec<u8>) -> Result<(), Wrong> {
    if !list.iter().any(|it| it.as_slice() == bytes.as_slice()) {
        list.push(bytes)?;
    }
    Ok(())
}

/// Adds all that is compared of an image that was or wasn't put on the disk.
fn push_images(alloc: Global, image: &CachedImage, list: &mut Vec<Vec<u8>>) -> Result<(), Wrong> {
    push_new(list, image.cache.as_slice().to_vec(alloc)?)?;
    if image.pending.is_empty() {
        return Ok(());
    }
    push_new(list, image.disk.as_slice().to_vec(alloc)?)?;
    push_new(list, lost_image(alloc, image, Loss::Half)?)?;
    push_new(list, lost_image(alloc, image, Loss::Zeros)?)?;
    push_alone(alloc, image, list)
}

/// Adds an image without one of the calls that changed it, for some of them.
fn push_alone(alloc: Global, image: &CachedImage, list: &mut Vec<Vec<u8>>) -> Result<(), Wrong> {
    let step = (image.pending.len() / LOST_ALONE).saturating_add(1);
    for lost in 0..image.pending.len() {
        if lost.checked_rem(step) == Some(0) {
            push_new(list, lost_image(alloc, image, Loss::Alone(lost))?)?;
        }
    }
    Ok(())
}

/// A text that has zeros from a place on, up to another one.
fn with_zeros(alloc: Global, text: &[u8], from: usize, to: usize) -> Result<Vec<u8>, Wrong> {
    let mut left = text.to_vec(alloc)?;
    for byte in left.iter_mut().take(to).skip(from) {
        *byte = 0;
    }
    Ok(left)
}

/// The same of a text.
fn push_texts(alloc: Global, text: &CachedText, list: &mut Vec<Vec<u8>>) -> Result<(), Wrong> {
    let cache = text.cache.as_slice();
    let disk = text.disk.as_slice();
    push_new(list, cache.to_vec(alloc)?)?;
    push_new(list, disk.to_vec(alloc)?)?;
    let longest = if disk.len() > cache.len() {
        disk
    } else {
        cache
    };
    if text.same < longest.len() {
        push_parts(alloc, longest, text.same, list)?;
    }
    Ok(())
}

/// Adds what is left of a text behind a place: the first half, zeros, or zeros and the second half.
fn push_parts(
    alloc: Global,
    text: &[u8],
    same: usize,
    list: &mut Vec<Vec<u8>>,
) -> Result<(), Wrong> {
    let half = midway(same, text.len());
    push_new(list, front(text, half).to_vec(alloc)?)?;
    push_new(list, with_zeros(alloc, text, same, text.len())?)?;
    push_new(list, with_zeros(alloc, text, same, half)?)
}

/// A content of a list that goes on with its first one behind its last.
fn taken(list: &Vec<Vec<u8>>, i: usize) -> &[u8] {
    match list.get(i.checked_rem(list.len()).unwrap_or(0)) {
        Some(bytes) => bytes.as_slice(),
        None => b"",
    }
}

/// Each of these images with each of these texts.
fn all_of(
    alloc: Global,
    images: &Vec<Vec<u8>>,
    journals: &Vec<Vec<u8>>,
    redos: &Vec<Vec<u8>>,
) -> Result<Vec<Held>, Wrong> {
    let pairs = images.len().saturating_mul(journals.len());
    let mut list = Vec::new(alloc);
    for i in 0..pairs.saturating_mul(redos.len()) {
        let texts = Texts {
            image: taken(images, i),
            journal: taken(journals, i.checked_div(images.len()).unwrap_or(0)),
            redo: taken(redos, i.checked_div(pairs).unwrap_or(0)),
        };
        list.push(Held::new(alloc, texts)?)?;
    }
    Ok(list)
}

/// All that a loss of power leaves of devices behind a page cache.
pub fn losses(alloc: Global, devices: &CachedDevices) -> Result<Vec<Held>, Wrong> {
    let mut images = Vec::new(alloc);
    push_images(alloc, &devices.image, &mut images)?;
    let mut journals = Vec::new(alloc);
    push_texts(alloc, &devices.journal, &mut journals)?;
    let mut redos = Vec::new(alloc);
    push_texts(alloc, &devices.redo, &mut redos)?;
    all_of(alloc, &images, &journals, &redos)
}
