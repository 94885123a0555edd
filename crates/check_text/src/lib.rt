//! What the program answers where nothing is solved: `check` to the bytes of an instance and a
//! document, each refusal, and what is told of a document that a trial has computed. It depends on
//! the readers of instances and documents and on the judge of certificates, and knows no solver. It
//! promises which text and status come for which bytes: the first broken rule and its line, or that
//! the document is accepted, which is true of its instance then.
#![tactic(auto)]

mod checking;
mod output;
mod refusal;
mod reread;
mod status;
mod trial_lines;
mod verdict;

pub use checking::{check, check_input};
pub use output::Output;
pub use refusal::{malformed, too_large, too_long};
pub use reread::judge_text;
pub use status::Status;
pub use trial_lines::told;
