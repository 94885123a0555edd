ghost use Rattle.std.specs.Prelude.{◌≡◌};
ghost use Rattle.array_call.specs.Rules.{number_of_rule};

/// What can be wrong with arrays, in the order in which it is looked for.
#[derive(Clone, Copy, Debug)]
pub enum ArrayRule {
    /// The ends of edges, or weights, capacities or values that are given, aren't as many as edges
    /// or vertices.
    Lengths,
    /// There are too many vertices.
    Vertices,
    /// There are too many edges.
    Edges,
    /// An end of an edge isn't a vertex.
    End,
    /// A weight is out of its range.
    Weight,
    /// A capacity is out of its range.
    Capacity,
    /// The value of a vertex is out of its range.
    Value,
    /// An edge weighs less than 0, and the kind asks for weights from 0.
    Negative,
    /// Other than two vertices have odd values, and the kind asks for two ends.
    PathEnds,
    /// Where the sets of a call over many sets begin isn't a list of starts.
    Starts,
}

impl ArrayRule {
    /// The number by which callers in C name the rule, from 1; none has 7, which a rule had that
    /// stands no longer.
    pub fn number(self) -> u32
        ensures { result ≡ number_of_rule self }
    {
        match self {
            ArrayRule::Lengths => 1,
            ArrayRule::Vertices => 2,
            ArrayRule::Edges => 3,
            ArrayRule::End => 4,
            ArrayRule::Weight => 5,
            ArrayRule::Capacity => 6,
            ArrayRule::Value => 8,
            ArrayRule::Negative => 9,
            ArrayRule::PathEnds => 10,
            ArrayRule::Starts => 11,
        }
    }
}

/// A rule that arrays break, and the edge or vertex, from 1, at which they do; 0 if that is none of
/// them alone.
#[derive(Clone, Copy, Debug)]
pub struct ArrayFault {
    pub rule: ArrayRule,
    pub place: u32,
}
