//! The names of a session's files.
use bx_text::Name;

/// The names of an image and its two texts.
#[derive(Drop)]
pub struct Names {
    /// The image.
    pub image: Name,
    /// Its journal.
    pub journal: Name,
    /// Its redo text.
    pub redo: Name,
}
