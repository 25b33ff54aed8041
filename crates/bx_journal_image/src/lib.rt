//! What a journal knows of its image: a line on the bytes that the last command left, and when it advises against a step. An inner
//! part of `bx_program`.
//!
//! `docs/FORMATS.md` has its line ("The image's text"), and `docs/DECISIONS.md` why it is so ("Patches").
#![tactic(auto)]

mod advice;
mod blocks;
mod finding;
mod judging;
pub mod laws;
mod line;
mod sealing;

pub use advice::{
    NO_CHANGES, Standing, is_about, is_changed, is_older, is_redo_refused, is_undo_refused,
    others_after,
};
pub use blocks::places::{block_at, block_len, strike, strike_from};
pub use blocks::strikes::{strike_lines, strike_text};
pub use finding::rest::{AtRest, stand};
pub use judging::judge::{Blocks, Verdict, judge_blocks, judge_image, mark_image};
pub use judging::unfinished::judge_unfinished;
pub use line::digest::{Digest, digest_of, is_same};
pub use line::form::{ImageLine, LINE, LineText, read_line, write_line};
pub use line::marks::{BLOCK, BLOCKS, Marks};
pub use line::ranges::{END, Range, end_of};
pub use sealing::resealing::seal_unfinished;
pub use sealing::seal::{Span, seal};
pub use sealing::steps::seal_steps;
