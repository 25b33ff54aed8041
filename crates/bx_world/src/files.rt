//! The files of an image: looked at, opened, locked, three, and taken away again where they were made for nothing.
mod alone;
mod guard;
mod look;
mod made;
mod names;
mod open;
mod opened;
mod reading;
mod ready;
mod unopened;

pub use alone::{lend_alone, look_alone};
pub use guard::Guard;
pub use made::{Files, Made, make_missing_image, unmake_all, unmake_missing_image, unmake_texts};
pub use names::Names;
pub use open::open_image_files;
pub use reading::{Looked, open_redo_to_forget, open_to_forget, open_to_look};
pub use unopened::{FileRole, OpenError, OpenFailure};
