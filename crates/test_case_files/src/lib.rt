//! Case files, as `docs/CASES.md` describes them: from their text to plain values.
#![tactic(auto)]

mod bytes;
mod case;
mod cursor;
mod dump;
mod entries;
mod fault;
mod file;
mod kinds;
mod outcome;
mod quoted;
mod seeds;
mod values;

pub use case::{Case, CaseFile, Test};
pub use fault::{CaseFault, Trouble};
pub use file::read_cases;
pub use kinds::commands::{Answer, Ask, CommandsCase, Left, Row, Write};
pub use kinds::looks::{Look, LooksCase, Shows};
pub use kinds::patches::{PatchAsks, PatchCase, PatchRead, PatchReads, PatchWritten};
pub use kinds::reading::{ReadingCase, Reads};
pub use kinds::texts::{Found, Outcome, TextCase};
pub use kinds::words::{Refusal, Sum, WordsCase};
pub use outcome::{Opening, Records};
