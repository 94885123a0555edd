//! Instances from their text: `read` gives the instance and the rest of the input, or the first
//! rule that the text breaks, with its line. It depends on `mb_base` for lines, fields and numbers,
//! and on `mb_problem` for instances. It promises that `read` answers exactly as the format says,
//! and that each text has one reading.
#![tactic(auto)]

mod end;
mod error;
mod keep;
mod law;
mod line;
mod plain;
mod reader;
mod rest;
mod rule;

pub use error::InstanceError;
pub use law::one_reading;
pub use reader::read;
pub use rest::Rest;
pub use rule::Rule;
