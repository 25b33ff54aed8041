//! An image behind changes that aren't made. Nothing is changed: a device of its own reads it.
mod image;
mod index;
mod order;
mod untouched;

pub use image::ChangedImage;
pub use index::PieceIndex;
pub use untouched::Untouched;
