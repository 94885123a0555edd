//! Terminals as the values of an instance.
ghost use Rattle.std.specs.Prelude.{◌≡◌, ◌<◌, ◌^◌, ℕ, List, length};
ghost use Rattle.mb_problem.specs.Network.{Network, vertices};
ghost use Rattle.array_call.specs.Faults.{is_vertex};
ghost use Rattle.array_joins.specs.Terminals.{terminal_rule, first_fault, network_with};
ghost use Rattle.array_joins.specs.Terminals.{HasNoTerminals};
ghost use Rattle.array_joins.specs.Marked.{sound_part, cleared, unmarked};

use crate::outcome::{TerminalFault, TerminalRule};
use mb_base::VertexId;
use mb_problem::Instance;

fn is_vertex(n: u32, v: u32) -> bool
    ensures { result ≡ is_vertex n v }
{
    v > 0 && !(v > n)
}

/// The rule that a terminal breaks, if the terminals before it have the value 1.
fn terminal_rule(instance: &Instance, terminal: u32) -> Option<TerminalRule>
    ensures { (i : Network) (before : List ℕ) → instance.now ≡ network_with i before
        → result ≡ terminal_rule (vertices i) before terminal }
{
    if !is_vertex(instance.vertices(), terminal) {
        return Some(TerminalRule::OutOfRange);
    }
    if instance.value(VertexId::new(terminal)) != 0 {
        return Some(TerminalRule::Repeated);
    }
    None
}

/// Gives the terminals the value 1, up to the first that has a fault, and answers that fault.
pub(crate) fn mark(instance: &mut Instance, terminals: &[u32]) -> Option<TerminalFault>
    requires bare { HasNoTerminals instance.old }
    requires size_limit { length terminals.now < 2 ^ 32 }
    ensures fault { result ≡ first_fault (vertices instance.old) terminals.now }
    ensures marked { instance.new ≡ network_with instance.old (sound_part result terminals.now) }
{
    for k in 0..terminals.len() {
        if let Some(rule) = terminal_rule(instance, terminals[k]) {
            return Some(TerminalFault {
                rule,
                index: k as u32,
            });
        }
        instance.set_value(VertexId::new(terminals[k]), 1);
    }
    None
}

/// Gives a vertex the value 0, if it is one.
fn clear_one(instance: &mut Instance, terminal: u32)
    ensures { instance.new ≡ cleared instance.old terminal }
{
    if is_vertex(instance.vertices(), terminal) {
        instance.set_value(VertexId::new(terminal), 0);
    }
}

/// Gives the terminals the value 0 again.
pub(crate) fn unmark(instance: &mut Instance, terminals: &[u32])
    ensures { instance.new ≡ unmarked instance.old terminals.now }
{
    for terminal in terminals {
        clear_one(instance, *terminal);
    }
}
