//! A join and a forest of lengths that prove each other: the join weighs as much as the forest
//! shows that each join weighs at least. It depends on `mb_problem` and `gadget_base`, and on no
//! search. It promises that a join which it accepts has least weight, whoever made the forest.
#![tactic(auto)]

mod flags;
mod held;
mod items;
mod join;
mod law;
mod lengths;
mod levels;
mod paid;
mod places;
mod postorder;
mod proved;
mod tops;
mod wide;

pub use law::laws;
pub use levels::Levels;
pub use paid::weight_of;
pub use proved::is_proved;
