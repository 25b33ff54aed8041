//! od: its lines and its dump.
mod below;
mod columns;
mod dump;
mod lines;
mod options;
mod row;
mod rows;

pub use below::{Below, Column};
pub use bx_dump_columns::od::options::{Address, Endian, Kind, NumForm, Size};
pub use dump::od;
pub use options::OdOptions;
