//! Bytes and words that the crates of `bx` hand to one another, texts of known form, and bytes read and written in full.
//!
//! A number that is read, and a line of xxd with two bytes at that address:
//!
//! ```
//! let at = read_size(address.as_bytes(), SizeStyle::Count)?;
//! let line = xxd_line(at, b"bx");
//! ```
//!
//! `docs/CALLING.md` has the whole caller, which the gate proves and runs.
//!
//! `docs/FORMATS.md` has the numbers and the default line of xxd, and `docs/DECISIONS.md` why they are so ("Formats and numbers").
#![tactic(auto)]

mod fault;
pub mod laws;
mod line;
mod number;
mod owned;
mod stream;

pub use fault::{IoFault, NoMemory};
pub use line::fold::{Fold, Show};
pub use line::full::{put_address, put_full_line, put_text};
pub use line::tables::digits_of;
pub use line::{LineText, blank, push_text, xxd_line};
pub use number::field::{Field, ShortText, dec_field, hex_digit, hex_field, oct_field};
pub use number::read::{read_hex, read_size};
pub use number::size::{SizeFault, SizeStyle};
pub use owned::bytes::Bytes;
pub use owned::pieces::{Piece, Pieces};
pub use owned::words::{Name, Words};
pub use stream::{Meter, Reading, Source, State, emit, emit_after};
