//! Documents: answers and their certificates as text. It depends on `mb_base` for lines, fields and
//! numbers, and on `mb_problem` for the kinds. It promises that a text is read as exactly the
//! document that its lines hold or refused at its first wrong line, and that a document is written
//! as one text, which reads back as it.
#![tactic(auto)]

mod ascent;
mod document;
mod draft;
mod error;
mod first_field;
mod head;
mod items;
mod law;
mod letter;
mod line_writing;
mod number_lists;
mod opening;
mod order;
mod part;
mod reading;
mod spelling;
mod status;
mod writing;

pub use ascent::is_ascending;
pub use document::Document;
pub use error::DocError;
pub use head::Head;
pub use law::reads_back;
pub use part::{CountLine, DualLine, MemberLine, Part, PathLine, SetItem, SetLine, WalkLine};
pub use reading::read;
pub use status::DocStatus;
pub use writing::write;
