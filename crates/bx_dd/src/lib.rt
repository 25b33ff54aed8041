//! dd: operands, and blocks of a stream, converted and counted.
//!
//! What dd makes of bytes in memory, and its counts:
//!
//! ```
//! let plan = parse(alloc.clone()?, operands)?;
//! let mut rest = input;
//! transfer(alloc, &mut rest, &plan)
//! ```
//!
//! `docs/CALLING.md` has the whole caller, which the gate proves and runs.
//!
//! `docs/FORMATS.md` has the operands ("Operands of dd"), and `docs/DECISIONS.md` why seeks are as they are ("Seeks and copies").
#![tactic(auto)]

mod convert;
mod counts;
mod fault;
mod form;
pub mod laws;
mod operands;
mod page;
mod stream;

pub use convert::Convert;
pub use counts::{Counts, Transfer, report};
pub use fault::DdFault;
pub use form::{Form, Letters, Shape};
pub use operands::parse::parse;
pub use operands::plan::Plan;
pub use stream::copy::copy_out;
pub use stream::transfer::transfer;
