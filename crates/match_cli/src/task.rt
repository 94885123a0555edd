ghost use Rattle.std.specs.Prelude.{◌≡◌};
ghost use Rattle.match_cli.specs.Calls.{command_for};

use crate::command::Command;
use mb_problem::Kind;
use solve_answers::Detail;

/// What a call is to do.
#[derive(Clone, Copy)]
pub enum Task {
    /// Solve an instance.
    Solve,
    /// Solve an instance, and answer without what proves it.
    SolveBriefly,
    /// Judge the document that follows an instance.
    Check,
}

/// The command that is the task for the kind.
pub fn command_for(task: Task, kind: Kind) -> Command
    ensures { result ≡ command_for task kind }
{
    match task {
        Task::Solve => Command::Solve {
            kind,
            detail: Detail::Full,
        },
        Task::SolveBriefly => Command::Solve {
            kind,
            detail: Detail::Brief,
        },
        Task::Check => Command::Check { kind },
    }
}
