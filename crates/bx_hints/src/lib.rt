//! What is said to a person beside the output: hints behind the text of a fault, and remarks before and behind what is done.
//!
//! Of files it only asks what the system says of their names: what is read of them for a hint comes from `bx_program`.
//! `docs/DECISIONS.md` argues for it ("The program and runs of commands").
#![tactic(auto)]

mod fault;
mod remarks;
mod text;

pub use fault::cause::{is_of_words, show_cause, show_misuse};
pub use fault::hint::{Known, hint_text};
pub use fault::stopped::{Reason, Row, STANDARD_INPUT, STANDARD_OUTPUT, Since, Stopped};
pub use remarks::Remarks;
pub use remarks::audience::{Audience, Terminals, asks_for_hints};
pub use remarks::beside::unlike_line;
pub use remarks::cost::{saved_by_dd, saved_by_patch, tell_of_cost};
pub use remarks::seen::{Seen, Watched};
pub use text::commands::is_named;
pub use text::steps::{Standing, Tail};
