//! What a program asks of the system that it runs on: files by name, and the standard streams; and the three files of an image, which
//! are looked at, opened, locked, and taken away again where they were made for nothing.
//!
//! `docs/FORMATS.md` has the rules of the files ("The journal"), and `docs/DECISIONS.md` why ("On real systems").
#![tactic(auto)]

mod files;
mod laws;
mod note;
mod rule;
mod stat;
mod world;

pub use files::{
    FileRole, Files, Guard, Looked, Made, Names, OpenError, OpenFailure, lend_alone, look_alone,
    make_missing_image, open_image_files, open_redo_to_forget, open_to_forget, open_to_look,
    unmake_all, unmake_missing_image, unmake_texts,
};
pub use laws::readers_and_writers;
pub use note::{MOST_NOTE, is_note};
pub use rule::{Unfit, image_unfit, read_unfit, text_unfit};
pub use stat::{Classes, Kind, Look, Stat};
pub use world::{Noted, Outgrown, Refusal, Unwritten, World};
