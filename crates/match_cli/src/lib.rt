//! The program as one call over any source and any sink: `run` reads the words of the command line,
//! the input, and writes the answer. Below words `answer_to` is a command and bytes in, the whole
//! text and the status out, and `call` is the same for a task and a kind, as C asks for them. It
//! depends on `clap` for the command line, on the answers that need no solver (`check_text`), on
//! the reader of instances, on the solver and on made instances. It promises the whole way from
//! bytes to bytes: which lists of words are taken, each as which command, which answer comes for
//! which input, that a document that is accepted or written is true of its instance, that what is
//! written in full is accepted, and what each fault leaves.
#![tactic(auto)]

mod calls;
mod command;
mod commands;
mod form;
mod limits;
mod natural;
mod parse;
mod program;
mod read;
mod solve;
mod task;
mod trial;
mod trials;

pub use calls::call;
pub use check_text::{Output, Status};
pub use command::Command;
pub use commands::answer_to;
pub use limits::{CHECK_BYTE_LIMIT, SOLVE_BYTE_LIMIT};
pub use program::run;
pub use task::Task;
