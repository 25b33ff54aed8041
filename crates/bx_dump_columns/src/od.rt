//! What stands for each value of od, and for an address.
mod byte_tables;
pub(crate) mod decimal;
mod decimal_fours;
mod decimal_lanes;
mod decimal_twos;
mod fixed;
mod hexadecimal;
pub mod octal;
mod octal_lanes;
pub mod options;
pub mod spread;
pub mod values;
