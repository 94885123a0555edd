ghost use Rattle.std.specs.Prelude.{◌≡◌, ◌≤◌, bytes_eq, length, Some};
ghost use Rattle.mb_problem.specs.Words.{IsField};
ghost use Rattle.mb_problem.specs.Kinds.{kind_text, kind_named, kind_named_from_postman};
ghost use Rattle.mb_problem.specs.Kinds.{kind_number, kind_numbered};
ghost use Rattle.mb_problem.specs.Kinds.{form_of, obstruction_of, sense_of, measure_of, proof_of};
ghost use Rattle.mb_problem.specs.Kinds.{gadget_of, need_of, vertex_value_of, default_value_of};
ghost use Rattle.mb_problem.specs.Kinds.{has_bounds, are_duals};
ghost use Rattle.mb_problem.specs.Kinds.{edge_use_of, start_of, asks_conservative, searches_of};
ghost use Rattle.mb_problem.specs.Kinds.{is_drawn};

use crate::answer::Parity;
use crate::gadget::{Capacities, GadgetForm};

/// The kinds of problem.
#[derive(Clone, Copy, PartialEq, Eq)]
pub enum Kind {
    /// A perfect matching of least weight.
    Perfect,
    /// A matching of greatest weight.
    Match,
    /// Counts on edges of least weight, with a given degree at each vertex.
    BMatch,
    /// The same, with a capacity on an edge that has one.
    CapMatch,
    /// A set of edges of least weight, with a given degree at each vertex.
    FFactor,
    /// A set of edges of least weight, with an odd degree exactly at the vertices of T.
    TJoin,
    /// A closed walk of least weight that uses each edge.
    Postman,
    /// A path of least weight between the two vertices of T.
    Path,
    /// Counts on edges of least weight, with a degree between two bounds at each vertex, within the
    /// capacities.
    Interval,
    /// A path of least weight with an odd number of edges between the two vertices of T.
    OddPath,
    /// A path of least weight with an even number of edges between the two vertices of T.
    EvenPath,
    /// A perfect matching that minimises the largest edge weight.
    Bottleneck,
    /// A maximum matching, and the vertices that some such one misses.
    Gallai,
}

/// What an answer of a kind consists of.
#[derive(Clone, Copy, PartialEq, Eq)]
pub enum AnswerForm {
    /// A count for each edge.
    Counts,
    /// A walk.
    Walk,
}

/// Which answers of a kind are best.
#[derive(Clone, Copy)]
pub enum Objective {
    /// Those of least weight.
    Least,
    /// Those of greatest weight.
    Greatest,
}

/// What proves that an instance has no feasible answer of a kind.
#[derive(Clone, Copy, PartialEq, Eq)]
pub enum Obstruction {
    /// A barrier of the certificate graph.
    Barrier,
    /// A set that no edge leaves, with an odd number of vertices of T.
    OddPart,
    /// A set that no edge leaves, with an edge inside and one outside.
    SplitPart,
    /// Nothing, as every instance has a feasible answer.
    Never,
}

/// What an instance must have besides, for a kind.
#[derive(Clone, Copy)]
pub enum Precondition {
    /// Nothing.
    Unrestricted,
    /// No edge of negative weight.
    WeightsFromZero,
    /// Two vertices of odd value: the ends.
    Ends,
    /// Both.
    EndsAndWeightsFromZero,
}

/// What the value of a vertex says.
#[derive(Clone, Copy)]
pub enum VertexValue {
    /// Nothing.
    Unused,
    /// The degree of the vertex.
    Degree,
    /// Whether its degree is odd.
    Parity,
    /// Whether it is an end.
    End,
    /// Nothing; the vertex has a least and a greatest degree instead.
    Bounds,
}

/// How often an answer may use an edge.
#[derive(Clone, Copy)]
pub enum EdgeUse {
    /// Once.
    Once,
    /// As often as degrees let it.
    AnyNumber,
    /// As often as degrees let it, within the capacity of an edge that has one.
    WithinCapacity,
    /// As often as the greatest degrees let it, within the capacity of an edge that has one.
    WithinBounds,
}

/// What an answer weighs.
#[derive(Clone, Copy)]
pub enum Cost {
    /// The weights of the edges, each as often as it is used, added up.
    Total,
    /// The greatest weight of an edge that is used, and 0 if none is.
    Heaviest,
    /// How many edges are used.
    Size,
}

/// The value that duals have beside a best answer, from its weight.
#[derive(Clone, Copy, PartialEq, Eq)]
pub enum DualValue {
    /// The weight, doubled.
    Twice,
    /// The weight, four times, with the opposite sign.
    Opposite,
    /// What the weight is beside that of all edges, doubled.
    BesideAll,
    /// The weight, four times.
    FourTimes,
}

/// What proves that an answer is a best one.
#[derive(Clone, Copy, PartialEq, Eq)]
pub enum BestProof {
    /// Duals of this value in the certificate graph.
    Duals(DualValue),
    /// A barrier of that graph without the edges that weigh as much as the answer, or more.
    LighterBarrier,
    /// A set of vertices, for each of them a path that lets a matching of as many edges miss it,
    /// and its neighbours, without which enough odd components are left.
    OuterPaths,
}

impl BestProof {
    /// Whether these are duals.
    pub fn are_duals(self) -> bool
        ensures { result ≡ are_duals self }
    {
        match self {
            BestProof::Duals(_) => true,
            BestProof::LighterBarrier => false,
            BestProof::OuterPaths => false,
        }
    }
}

/// Where the walk of a solved document starts.
#[derive(Clone, Copy)]
pub enum WalkStart {
    /// Anywhere, if there is a walk at all.
    Free,
    /// At the least vertex that an edge meets.
    LeastMet,
    /// At the lesser of the two ends.
    LesserEnd,
}

impl Kind {
    /// The word for the kind, in documents and on the command line.
    pub fn name(self) -> &'static [u8]
        ensures text { result.now ≡ kind_text self }
        ensures back { kind_named (kind_text self) ≡ Some self }
        ensures short { length (kind_text self) ≤ 10 }
        ensures field { IsField (kind_text self) }
    {
        match self {
            Kind::Perfect => b"perfect",
            Kind::Match => b"match",
            Kind::BMatch => b"bmatch",
            Kind::CapMatch => b"capmatch",
            Kind::FFactor => b"ffactor",
            Kind::TJoin => b"tjoin",
            Kind::Postman => b"postman",
            Kind::Path => b"path",
            Kind::Interval => b"interval",
            Kind::OddPath => b"oddpath",
            Kind::EvenPath => b"evenpath",
            Kind::Bottleneck => b"bottleneck",
            Kind::Gallai => b"gallai",
        }
    }

    /// Whether this is the word for the kind.
    fn is_named(self, name: &[u8]) -> bool
        ensures { result ≡ bytes_eq name.now (kind_text self) }
    {
        name == self.name()
    }

    /// The kind that a word names, if it names one from `Postman` on.
    fn named_from_postman(name: &[u8]) -> Option<Kind>
        ensures { result ≡ kind_named_from_postman name.now }
    {
        if Kind::Postman.is_named(name) {
            return Some(Kind::Postman);
        }
        if Kind::Path.is_named(name) {
            return Some(Kind::Path);
        }
        if Kind::Interval.is_named(name) {
            return Some(Kind::Interval);
        }
        if Kind::OddPath.is_named(name) {
            return Some(Kind::OddPath);
        }
        if Kind::EvenPath.is_named(name) {
            return Some(Kind::EvenPath);
        }
        if Kind::Bottleneck.is_named(name) {
            return Some(Kind::Bottleneck);
        }
        if Kind::Gallai.is_named(name) {
            return Some(Kind::Gallai);
        }
        None
    }

    /// The kind that a word names, if it names one.
    pub fn named(name: &[u8]) -> Option<Kind>
        // The kind of a name; `Kind::name` leads back to it.
        ensures { result ≡ kind_named name.now }
    {
        if Kind::Perfect.is_named(name) {
            return Some(Kind::Perfect);
        }
        if Kind::Match.is_named(name) {
            return Some(Kind::Match);
        }
        if Kind::BMatch.is_named(name) {
            return Some(Kind::BMatch);
        }
        if Kind::CapMatch.is_named(name) {
            return Some(Kind::CapMatch);
        }
        if Kind::FFactor.is_named(name) {
            return Some(Kind::FFactor);
        }
        if Kind::TJoin.is_named(name) {
            return Some(Kind::TJoin);
        }
        Kind::named_from_postman(name)
    }

    /// The number by which callers in C name the kind, from 1.
    pub fn number(self) -> u32
        ensures number { result ≡ kind_number self }
        ensures back { kind_numbered (kind_number self) ≡ Some self }
    {
        match self {
            Kind::Perfect => 1,
            Kind::Match => 2,
            Kind::BMatch => 3,
            Kind::CapMatch => 4,
            Kind::FFactor => 5,
            Kind::TJoin => 6,
            Kind::Postman => 7,
            Kind::Path => 8,
            Kind::Interval => 9,
            Kind::OddPath => 10,
            Kind::EvenPath => 11,
            Kind::Bottleneck => 12,
            Kind::Gallai => 13,
        }
    }

    /// The kind of this number, where one has it.
    pub fn numbered(number: u32) -> Option<Kind>
        ensures { result ≡ kind_numbered number }
    {
        match number {
            1 => Some(Kind::Perfect),
            2 => Some(Kind::Match),
            3 => Some(Kind::BMatch),
            4 => Some(Kind::CapMatch),
            5 => Some(Kind::FFactor),
            6 => Some(Kind::TJoin),
            7 => Some(Kind::Postman),
            8 => Some(Kind::Path),
            9 => Some(Kind::Interval),
            10 => Some(Kind::OddPath),
            11 => Some(Kind::EvenPath),
            12 => Some(Kind::Bottleneck),
            13 => Some(Kind::Gallai),
            _ => None,
        }
    }

    /// Whether an answer is counts on edges or a walk.
    pub fn form(self) -> AnswerForm
        // One table for each trait that tells kinds apart: this one, and the methods below.
        ensures { result ≡ form_of self }
    {
        match self {
            Kind::Perfect
            | Kind::Match
            | Kind::BMatch
            | Kind::CapMatch
            | Kind::FFactor
            | Kind::TJoin
            | Kind::Interval
            | Kind::Bottleneck
            | Kind::Gallai => AnswerForm::Counts,
            Kind::Postman | Kind::Path | Kind::OddPath | Kind::EvenPath => AnswerForm::Walk,
        }
    }

    /// What proves that there is no feasible answer.
    pub fn obstruction(self) -> Obstruction
        ensures { result ≡ obstruction_of self }
    {
        match self {
            Kind::Perfect
            | Kind::BMatch
            | Kind::CapMatch
            | Kind::FFactor
            | Kind::Interval
            | Kind::OddPath
            | Kind::EvenPath
            | Kind::Bottleneck => Obstruction::Barrier,
            Kind::Match | Kind::Gallai => Obstruction::Never,
            Kind::TJoin | Kind::Path => Obstruction::OddPart,
            Kind::Postman => Obstruction::SplitPart,
        }
    }

    /// What an instance must have besides.
    pub fn needs(self) -> Precondition
        ensures { result ≡ need_of self }
    {
        match self {
            Kind::Postman => Precondition::WeightsFromZero,
            Kind::Path => Precondition::Ends,
            Kind::OddPath | Kind::EvenPath => Precondition::EndsAndWeightsFromZero,
            Kind::Perfect
            | Kind::Match
            | Kind::BMatch
            | Kind::CapMatch
            | Kind::FFactor
            | Kind::TJoin
            | Kind::Interval
            | Kind::Bottleneck
            | Kind::Gallai => Precondition::Unrestricted,
        }
    }

    /// What the value of a vertex says.
    pub fn vertex_value(self) -> VertexValue
        ensures { result ≡ vertex_value_of self }
    {
        match self {
            Kind::Perfect | Kind::Match | Kind::Postman | Kind::Bottleneck | Kind::Gallai =>
                VertexValue::Unused,
            Kind::BMatch | Kind::CapMatch | Kind::FFactor => VertexValue::Degree,
            Kind::TJoin => VertexValue::Parity,
            Kind::Path | Kind::OddPath | Kind::EvenPath => VertexValue::End,
            Kind::Interval => VertexValue::Bounds,
        }
    }

    /// Whether an instance gives each vertex two bounds for its degree, in place of a value.
    pub fn has_bounds(self) -> bool
        ensures { result ≡ has_bounds self }
    {
        match self.vertex_value() {
            VertexValue::Bounds => true,
            VertexValue::Unused => false,
            VertexValue::Degree => false,
            VertexValue::Parity => false,
            VertexValue::End => false,
        }
    }

    /// The value of a vertex that an instance gives none: a degree is 1 then.
    pub fn default_value(self) -> u32
        ensures { result ≡ default_value_of self }
    {
        match self.vertex_value() {
            VertexValue::Degree => 1,
            VertexValue::Unused => 0,
            VertexValue::Parity => 0,
            VertexValue::End => 0,
            VertexValue::Bounds => 0,
        }
    }

    /// How often an answer may use an edge.
    pub fn edge_use(self) -> EdgeUse
        ensures { result ≡ edge_use_of self }
    {
        match self {
            Kind::Perfect
            | Kind::Match
            | Kind::FFactor
            | Kind::TJoin
            | Kind::Path
            | Kind::OddPath
            | Kind::EvenPath
            | Kind::Bottleneck
            | Kind::Gallai => EdgeUse::Once,
            Kind::BMatch | Kind::Postman => EdgeUse::AnyNumber,
            Kind::CapMatch => EdgeUse::WithinCapacity,
            Kind::Interval => EdgeUse::WithinBounds,
        }
    }

    /// Whether a best answer weighs the least or the most.
    pub fn sense(self) -> Objective
        ensures { result ≡ sense_of self }
    {
        match self {
            Kind::Match | Kind::Gallai => Objective::Greatest,
            Kind::Perfect
            | Kind::BMatch
            | Kind::CapMatch
            | Kind::FFactor
            | Kind::TJoin
            | Kind::Postman
            | Kind::Path
            | Kind::Interval
            | Kind::OddPath
            | Kind::EvenPath
            | Kind::Bottleneck => Objective::Least,
        }
    }

    /// How the graph is built whose perfect matchings stand for the answers.
    pub fn gadget(self) -> GadgetForm
        ensures { result ≡ gadget_of self }
    {
        match self {
            Kind::Perfect | Kind::Bottleneck => GadgetForm::Itself,
            Kind::Match => GadgetForm::Doubled,
            Kind::BMatch => GadgetForm::Copies,
            Kind::CapMatch => GadgetForm::Capped(Capacities::Own),
            Kind::FFactor => GadgetForm::Capped(Capacities::Unit),
            Kind::TJoin => GadgetForm::Ports(Parity::Values),
            Kind::Postman => GadgetForm::Ports(Parity::OddDegrees),
            Kind::Path => GadgetForm::PathPorts,
            Kind::Interval => GadgetForm::Halves,
            Kind::OddPath => GadgetForm::Sides { odd: true },
            Kind::EvenPath => GadgetForm::Sides { odd: false },
            Kind::Gallai => GadgetForm::Unweighted,
        }
    }

    /// What an answer weighs.
    pub fn measure(self) -> Cost
        ensures { result ≡ measure_of self }
    {
        match self {
            Kind::Perfect
            | Kind::Match
            | Kind::BMatch
            | Kind::CapMatch
            | Kind::FFactor
            | Kind::TJoin
            | Kind::Postman
            | Kind::Path
            | Kind::Interval
            | Kind::OddPath
            | Kind::EvenPath => Cost::Total,
            Kind::Bottleneck => Cost::Heaviest,
            Kind::Gallai => Cost::Size,
        }
    }

    /// What proves that an answer is a best one.
    pub fn proof(self) -> BestProof
        ensures { result ≡ proof_of self }
    {
        match self {
            Kind::Match => BestProof::Duals(DualValue::Opposite),
            Kind::Postman => BestProof::Duals(DualValue::BesideAll),
            Kind::Interval => BestProof::Duals(DualValue::FourTimes),
            Kind::Perfect
            | Kind::BMatch
            | Kind::CapMatch
            | Kind::FFactor
            | Kind::TJoin
            | Kind::Path
            | Kind::OddPath
            | Kind::EvenPath => BestProof::Duals(DualValue::Twice),
            Kind::Bottleneck => BestProof::LighterBarrier,
            Kind::Gallai => BestProof::OuterPaths,
        }
    }

    /// Whether answers are asked for only if no circuit weighs less than 0. A document of such a
    /// kind may state that one does, in place of an answer.
    pub fn asks_conservative(self) -> bool
        ensures { result ≡ asks_conservative self }
    {
        match self {
            Kind::Path => true,
            Kind::Perfect
            | Kind::Match
            | Kind::BMatch
            | Kind::CapMatch
            | Kind::FFactor
            | Kind::TJoin
            | Kind::Postman
            | Kind::Interval
            | Kind::OddPath
            | Kind::EvenPath
            | Kind::Bottleneck
            | Kind::Gallai => false,
        }
    }

    /// Where the walk of a solved document starts.
    pub fn start(self) -> WalkStart
        ensures { result ≡ start_of self }
    {
        match self {
            Kind::Postman => WalkStart::LeastMet,
            Kind::Path | Kind::OddPath | Kind::EvenPath => WalkStart::LesserEnd,
            Kind::Perfect
            | Kind::Match
            | Kind::BMatch
            | Kind::CapMatch
            | Kind::FFactor
            | Kind::TJoin
            | Kind::Interval
            | Kind::Bottleneck
            | Kind::Gallai => WalkStart::Free,
        }
    }

    /// How many searches are made at most to solve an instance.
    pub fn searches(self) -> u32
        ensures { result ≡ searches_of self }
    {
        match self {
            Kind::Path => 2,
            Kind::Bottleneck => 17,
            Kind::Perfect
            | Kind::Match
            | Kind::BMatch
            | Kind::CapMatch
            | Kind::FFactor
            | Kind::TJoin
            | Kind::Postman
            | Kind::Interval
            | Kind::OddPath
            | Kind::EvenPath
            | Kind::Gallai => 1,
        }
    }

    /// Whether instances of the kind are made for trials.
    pub fn is_drawn(self) -> bool
        ensures { result ≡ is_drawn self }
    {
        match self {
            Kind::Perfect
            | Kind::Match
            | Kind::BMatch
            | Kind::CapMatch
            | Kind::FFactor
            | Kind::TJoin
            | Kind::Postman
            | Kind::Path => true,
            Kind::Interval | Kind::OddPath | Kind::EvenPath | Kind::Bottleneck | Kind::Gallai =>
                false,
        }
    }
}
