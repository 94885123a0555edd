use mb_problem::Join;

/// What can be wrong with a terminal.
#[derive(Clone, Copy)]
pub enum TerminalRule {
    /// It isn't a vertex.
    OutOfRange,
    /// It stands earlier in its set.
    Repeated,
}

/// A rule that a terminal breaks, and its index within its set, from 0.
#[derive(Clone, Copy)]
pub struct TerminalFault {
    pub rule: TerminalRule,
    pub index: u32,
}

/// The answer to a set of terminals.
#[derive(Drop)]
pub enum SetOutcome {
    /// A T-join of minimum weight, and its weight.
    Joined { join: Join, weight: i64 },
    /// There is no T-join: some component has an odd number of terminals.
    NoJoin,
    /// The first fault of a terminal.
    Faulty(TerminalFault),
    /// The graph of ports is past a limit.
    TooLarge,
}
