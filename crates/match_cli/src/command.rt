ghost use Rattle.std.specs.Prelude.{◌≡◌, ◌-◌, ◌^◌};
ghost use Rattle.mb_problem.specs.Kinds.{vertex_value_of};
ghost use Rattle.match_cli.specs.Arguments.{detail_by, solve_named, check_named, marks_ends};
ghost use Rattle.match_cli.specs.Arguments.{has_ends, is_made, trial_by};

use crate::natural::read_natural;
use mb_problem::{EDGE_LIMIT, Kind, VERTEX_LIMIT, VertexValue};
use solve_answers::Detail;

/// What the program is to do.
#[derive(Clone, Copy)]
pub enum Command {
    /// Solve an instance, and state so much of the answer.
    Solve {
        kind: Kind,
        detail: Detail,
    },
    /// Judge a document for its instance.
    Check {
        kind: Kind,
    },
    /// Make an instance of n vertices and m edges from a start, solve it and judge the answer.
    Trial {
        kind: Kind,
        start: u64,
        n: u32,
        m: u32,
    },
}

/// How much of an answer is stated with the flag of brief answers or without it.
pub fn detail_by(brief: bool) -> Detail
    ensures { result ≡ detail_by brief }
{
    if brief { Detail::Brief } else { Detail::Full }
}

/// The command that solves the kind of this name, and states so much of the answer.
pub fn read_solve(name: &str, detail: Detail) -> Option<Command>
    ensures { result ≡ solve_named detail name.now }
{
    let kind = Kind::named(name.as_bytes())?;
    Some(Command::Solve { kind, detail })
}

/// The command that judges documents of the kind of this name.
pub fn read_check(name: &str) -> Option<Command>
    ensures { result ≡ check_named name.now }
{
    let kind = Kind::named(name.as_bytes())?;
    Some(Command::Check { kind })
}

/// Whether the values mark two ends.
fn marks_ends(kind: Kind) -> bool
    ensures { result ≡ marks_ends (vertex_value_of kind) }
{
    match kind.vertex_value() {
        VertexValue::Unused => false,
        VertexValue::Degree => false,
        VertexValue::Parity => false,
        VertexValue::End => true,
        VertexValue::Bounds => false,
    }
}

/// Whether there are the two vertices that an edge has, and those that values mark as ends.
fn has_ends(kind: Kind, n: u64, m: u64) -> bool
    ensures { result ≡ has_ends kind n m }
{
    n >= 2 || (m == 0 && !marks_ends(kind))
}

/// Whether an instance of the kind and of this size can be made.
fn is_made(kind: Kind, n: u64, m: u64) -> bool
    ensures { result ≡ is_made kind n m }
{
    kind.is_drawn() && has_ends(kind, n, m)
}

/// The command that tries a made instance of the kind of this name.
pub fn read_trial(name: &str, start: &str, n: &str, m: &str) -> Option<Command>
    ensures { result ≡ trial_by name.now start.now n.now m.now }
{
    let kind = Kind::named(name.as_bytes())?;
    let start = read_natural(start, u64::MAX)?;
    let n = read_natural(n, u64::from(VERTEX_LIMIT))?;
    let m = read_natural(m, u64::from(EDGE_LIMIT))?;
    if is_made(kind, n, m) {
        Some(Command::Trial {
            kind,
            start,
            n: n as u32,
            m: m as u32,
        })
    } else {
        None
    }
}
