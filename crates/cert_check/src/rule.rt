use std::fmt;

/// The rules that a document can break, in the order of their numbers. They are tried in that
/// order, but for the two about paths, which come before `NotBarrier`.
#[derive(Clone, Copy, PartialEq, Eq)]
pub enum DocRule {
    /// The text isn't a document.
    DocForm,
    /// The document is of another kind than the command.
    KindDiffers,
    /// A number is out of range.
    DocRange,
    /// The answer isn't feasible.
    NotFeasible,
    /// The answer's weight isn't the stated one.
    WeightDiffers,
    /// A vertex has no dual.
    DualMissing,
    /// A set with a dual has fewer than three items, an even number, items out of order, two with a
    /// member in common, or a reference to a set that an earlier one refers to.
    SetForm,
    /// An edge has a negative slack.
    Slack,
    /// The value of the duals isn't what the stated weight asks.
    ValueDiffers,
    /// The set is missing or isn't a barrier; or it isn't the border of the vertices that greatest
    /// matchings miss, or leaves another number of odd components, or one outside these.
    NotBarrier,
    /// The set is missing, or isn't as an infeasible document of its kind wants it.
    NotClosed,
    /// The walk is missing or isn't a circuit of negative weight.
    NotCircuit,
    /// A path doesn't begin at a member of the set, comes to a vertex twice, doesn't go along the
    /// matching in turn, or doesn't end at a vertex that this misses.
    PathForm,
    /// The set is missing, or a member of it has no path.
    PathMissing,
}

impl DocRule {
    ghost use Rattle.std.specs.Prelude.{◌≡◌};
    ghost use Rattle.cert_check.specs.Rules.{rule_text};

    /// The name of the rule, as the program prints it.
    pub fn name(self) -> &'static str
        ensures { result.now ≡ rule_text self }
    {
        match self {
            DocRule::DocForm => "DocForm",
            DocRule::KindDiffers => "KindDiffers",
            DocRule::DocRange => "DocRange",
            DocRule::NotFeasible => "NotFeasible",
            DocRule::WeightDiffers => "WeightDiffers",
            DocRule::DualMissing => "DualMissing",
            DocRule::SetForm => "SetForm",
            DocRule::Slack => "Slack",
            DocRule::ValueDiffers => "ValueDiffers",
            DocRule::NotBarrier => "NotBarrier",
            DocRule::NotClosed => "NotClosed",
            DocRule::NotCircuit => "NotCircuit",
            DocRule::PathForm => "PathForm",
            DocRule::PathMissing => "PathMissing",
        }
    }
}

impl fmt::Display for DocRule {
    ghost use Rattle.std.specs.Prelude.{Some};
    ghost use Rattle.cert_check.specs.Rules.{rule_text};

    ghost output = { λ rule. Some (rule_text rule) };

    fn fmt<W: fmt::Write>(&self, f: &mut fmt::Formatter<W>) -> fmt::Result {
        f.write_str(self.name())
    }
}

/// What the judge says of a document.
#[derive(Clone, Copy, PartialEq, Eq)]
pub enum Verdict {
    /// It proves what it states.
    Accepted,
    /// The first rule that it breaks, and the line.
    Rejected { rule: DocRule, line: u64 },
}
