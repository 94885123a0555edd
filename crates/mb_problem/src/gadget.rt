use crate::answer::Parity;

/// How often a graph of gates lets an edge be used, beside the values at its ends.
#[derive(Clone, Copy)]
pub enum Capacities {
    /// As often as its own capacity says, where it has one.
    Own,
    /// Once.
    Unit,
}

/// How the certificate graph is built: its perfect matchings stand for the answers.
#[derive(Clone, Copy)]
pub enum GadgetForm {
    /// The graph of the instance itself.
    Itself,
    /// That graph twice, and each vertex joined to its copy.
    Doubled,
    /// Each vertex as often as its value says, and all pairs of copies of the ends of each edge.
    Copies,
    /// Copies of the vertices, and two gates for each edge.
    Capped(Capacities),
    /// A port for each edge at a vertex, and a spare where their number hasn't the parity.
    Ports(Parity),
    /// Ports whose parity is that of the values. A search takes the ports that are odd nowhere as
    /// well, so that the size is the greater one of both.
    PathPorts,
    /// The graph of gates for the greatest degrees, twice, and an edge between the two twins of
    /// each copy that may stay free.
    Halves,
    /// The graph twice, each time without the ends that a path of an odd or an even number of edges
    /// doesn't come to there, and an edge between the two copies of each other vertex.
    Sides { odd: bool },
    /// The graph of the instance itself, with each weight read as 0.
    Unweighted,
}
