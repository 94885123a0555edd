ghost use Rattle.std.specs.Prelude.{◌≡◌};

use std::fmt;

/// What can be wrong with the text of an instance.
#[derive(Clone, Copy, Debug, PartialEq, Eq)]
pub enum Rule {
    /// A line isn't a header, edge or value line.
    UnknownLine,
    /// An edge or a value comes before the header, or there is no header.
    HeaderMissing,
    /// A second header.
    HeaderTwice,
    /// A header without exactly four fields, or of another format.
    HeaderForm,
    /// An edge or a value line with too few or too many fields.
    FieldCount,
    /// A field that should be a number is none.
    Number,
    /// A number is out of its range.
    Range,
    /// A vertex is given a second value.
    NodeTwice,
    /// There are fewer or more edges than the header says.
    EdgeCount,
    /// An edge weighs less than 0, and the kind asks for weights from 0.
    Negative,
    /// Other than two vertices have odd values, and the kind asks for two ends.
    PathEnds,
}

impl Rule {
    ghost use Rattle.dimacs_read.specs.Rule.{rule_name};

    /// The name of the rule, as answers spell it.
    pub fn name(self) -> &'static str
        ensures { result.now ≡ rule_name self }
    {
        match self {
            Rule::UnknownLine => "UnknownLine",
            Rule::HeaderMissing => "HeaderMissing",
            Rule::HeaderTwice => "HeaderTwice",
            Rule::HeaderForm => "HeaderForm",
            Rule::FieldCount => "FieldCount",
            Rule::Number => "Number",
            Rule::Range => "Range",
            Rule::NodeTwice => "NodeTwice",
            Rule::EdgeCount => "EdgeCount",
            Rule::Negative => "Negative",
            Rule::PathEnds => "PathEnds",
        }
    }
}

impl fmt::Display for Rule {
    ghost use Rattle.std.specs.Prelude.{Some};
    ghost use Rattle.dimacs_read.specs.Rule.{rule_name};

    ghost output = { λ rule. Some (rule_name rule) };

    fn fmt<W: fmt::Write>(&self, f: &mut fmt::Formatter<W>) -> fmt::Result {
        f.write_str(self.name())
    }
}

/// A rule that is broken, and the place of the line that breaks it, from 0.
#[derive(Clone, Copy)]
pub struct Fault {
    pub rule: Rule,
    pub place: u64,
}
