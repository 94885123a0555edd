//! What a document of an answer claims, when it proves its claim, and that this is true then. It
//! depends on `mb_problem`, the gadget crates and `doc_format`, and below both the solver and the
//! judge. It promises that what is proved is true, and the certificate graph of a kind with the
//! value they have.
#![tactic(auto)]

mod gadgets;
mod law;
mod limits;
mod value;

pub use gadgets::{certified, certified_vertices};
pub use law::laws;
pub use limits::is_within_limits;
pub use value::{total_weight, value_for};
