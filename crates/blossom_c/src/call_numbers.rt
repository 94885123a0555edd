ghost use Rattle.mb_problem.specs.Kinds.{kind_number};
ghost use Rattle.blossom_c.specs.ArrayEndings.{number_of_solving};
ghost use Rattle.blossom_c.specs.Numbers.{number_of_task, IsNumbered};

use match_cli::Task;
use mb_problem::Kind;
use solve_answers::Detail;

/// The task of this number, where one has it.
pub fn task_numbered(number: u32) -> Option<Task>
    ensures { IsNumbered number_of_task number result }
{
    match number {
        1 => Some(Task::Solve),
        2 => Some(Task::SolveBriefly),
        3 => Some(Task::Check),
        _ => None,
    }
}

/// The kind of this number, where one has it.
pub fn kind_numbered(number: u32) -> Option<Kind>
    ensures { IsNumbered kind_number number result }
{
    Kind::numbered(number)
}

/// How much of an answer the task of this number states, if it is one that solves.
pub fn solving_numbered(number: u32) -> Option<Detail>
    ensures { IsNumbered number_of_solving number result }
{
    match number {
        1 => Some(Detail::Full),
        2 => Some(Detail::Brief),
        _ => None,
    }
}
