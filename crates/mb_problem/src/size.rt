ghost use Rattle.std.specs.Prelude.{◌≡◌, ℕ, ◌+◌, ◌-◌, ◌*◌, ◌/◌, ◌%◌, ◌<◌, ◌≤◌, max, length};
ghost use Rattle.std.specs.Prelude.{slice_index, if◌then◌else◌};
ghost use Rattle.graph_theory.specs.Graph.{IsEdgeWithin, is_loop};
ghost use Rattle.graph_theory.specs.Sums.{sum_to};
ghost use Rattle.mb_problem.specs.Network.{Network, IsNetwork, vertices, plain, value_of};
ghost use Rattle.mb_problem.specs.Size.{size_by, size_of, ports_size, odd_by, odd_at};
ghost use Rattle.mb_problem.specs.Size.{certified_by, certified_size};
ghost use Rattle.mb_problem.specs.Size.{edge_count_at, port_count, link_count, copy_pairs};

use crate::answer::Parity;
use crate::copy_sizes::{capped_size, end_values, halves_size, value_total};
use crate::degrees::count_edges;
use crate::gadget::GadgetForm;
use crate::instance::{Instance, InstanceEdge};
use crate::kind::Kind;
use crate::layer_sizes::sides_size;
use crate::limits::{EDGE_LIMIT, VALUE_LIMIT, VERTEX_LIMIT};

/// How many pairs the copies of the ends of an edge have: of a loop, those of two different copies
/// of its end.
pub fn copy_pairs(instance: &Instance, edge: &InstanceEdge) -> u64
    requires { IsEdgeWithin (vertices instance.now) (plain edge.now) }
    ensures pairs { result ≡ (if is_loop (plain edge.now) then value_of instance.now edge.now.u
        * (value_of instance.now edge.now.u - 1) / 2
        else value_of instance.now edge.now.u * value_of instance.now edge.now.v) }
    ensures value_limit { result ≤ VALUE_LIMIT * VALUE_LIMIT }
{
    let (a, b) = end_values(instance.value_list(), edge);
    if edge.u == edge.v {
        return a * a.saturating_sub(1) / 2;
    }
    a * b
}

/// The edges between copies of the ends of each edge.
fn copied_edges(instance: &Instance) -> u64
    ensures { result ≡ sum_to (copy_pairs instance.now) (length instance.now.edges) }
{
    let mut total = 0;
    for edge in instance.edge_list() {
        total += copy_pairs(instance, edge);
    }
    total
}

/// How many edges are no loops.
pub fn link_count(instance: &Instance) -> u64
    ensures count { result ≡ link_count instance.now }
    ensures size_limit { result ≤ length instance.now.edges }
{
    let mut count = 0;
    for edge in instance.edge_list() {
        if edge.u != edge.v {
            count += 1;
        }
    }
    count
}

/// 1 where a join of this parity has odd degree at a vertex of this degree and value, else 0.
pub fn odd_by(parity: Parity, degree: u64, value: u32) -> u64
    ensures odd { result ≡ odd_by parity degree value }
    ensures bit { result ≤ 1 }
{
    match parity {
        Parity::Empty => 0,
        Parity::Values => u64::from(value % 2),
        Parity::OddDegrees => degree % 2,
    }
}

/// A port for each edge at a vertex, and one more where their number hasn't the join's parity.
pub fn ports_by(parity: Parity, degree: u64, value: u32) -> u64
    requires { degree ≤ 2 * EDGE_LIMIT }
    ensures ports { result ≡ degree + (degree + odd_by parity degree value) % 2 }
    ensures value_limit { result ≤ 2 * EDGE_LIMIT + 1 }
{
    degree + (degree + odd_by(parity, degree, value)) % 2
}

/// How many pairs there are of so many.
fn pairs_of(count: u64) -> u64
    requires { count ≤ 2 * EDGE_LIMIT + 1 }
    ensures pairs { result ≡ count * (count - 1) / 2 }
    ensures value_limit { result ≤ (2 * EDGE_LIMIT + 1) * (2 * EDGE_LIMIT + 1) }
{
    count * count.saturating_sub(1) / 2
}

/// The ports of all vertices, and the edges among those of one vertex, from the number of edges at
/// each vertex.
fn all_ports(instance: &Instance, parity: Parity, degrees: &[u64]) -> (u64, u64)
    requires room { vertices instance.now ≤ length degrees.now }
    requires counts { (k : ℕ) → k < vertices instance.now → slice_index degrees.now k
        ≡ edge_count_at instance.now (k + 1) }
    requires value_limit { (k : ℕ) → k < vertices instance.now → slice_index degrees.now k
        ≤ 2 * EDGE_LIMIT }
    ensures ports { result.0 ≡ sum_to (λ k. port_count instance.now (odd_at parity instance.now)
        (k + 1)) (vertices instance.now) }
    ensures pairs { result.1 ≡ sum_to (λ k. port_count instance.now (odd_at parity instance.now)
        (k + 1) * (port_count instance.now (odd_at parity instance.now) (k + 1) - 1) / 2)
        (vertices instance.now) }
    ensures few_ports { result.0 ≤ (2 * EDGE_LIMIT + 1) * VERTEX_LIMIT }
    ensures few_pairs { result.1 ≤ (2 * EDGE_LIMIT + 1) * (2 * EDGE_LIMIT + 1) * VERTEX_LIMIT }
{
    let mut ports = 0;
    let mut pairs = 0;
    for (k, value) in instance.value_list().iter().enumerate() {
        let here = ports_by(parity, degrees[k], *value);
        ports += here;
        pairs += pairs_of(here);
    }
    (ports, pairs)
}

/// The vertices and edges of the graph for joins.
fn ports_size(instance: &Instance, parity: Parity) -> (u64, u64)
    ensures vertices { result.0 ≡ (ports_size instance.now (odd_at parity instance.now)).vertices }
    ensures edges { result.1 ≡ (ports_size instance.now (odd_at parity instance.now)).edges }
{
    let links = u64::from(instance.edges());
    let mut degrees = [0u64; VERTEX_LIMIT as usize];
    count_edges(&mut degrees, instance);
    let (ports, pairs) = all_ports(instance, parity, &degrees);
    (ports, links + pairs)
}

/// The greater number of vertices and the greater number of edges of two graphs.
fn greater(one: (u64, u64), other: (u64, u64)) -> (u64, u64)
    ensures vertices { result.0 ≡ max one.0 other.0 }
    ensures edges { result.1 ≡ max one.1 other.1 }
{
    (one.0.max(other.0), one.1.max(other.1))
}

/// How many vertices and edges the graph has that is built so from an instance; for the ports of a
/// path the greater numbers of two graphs. It takes no memory, and time linear in vertices and
/// edges.
fn size_by(instance: &Instance, gadget: GadgetForm) -> (u64, u64)
    ensures vertices { result.0 ≡ (size_by gadget instance.now).vertices }
    ensures edges { result.1 ≡ (size_by gadget instance.now).edges }
{
    let vertices = u64::from(instance.vertices());
    let links = link_count(instance);
    match gadget {
        GadgetForm::Itself => (vertices, links),
        GadgetForm::Unweighted => (vertices, links),
        GadgetForm::Doubled => (2 * vertices, 2 * links + vertices),
        GadgetForm::Copies => (value_total(instance.value_list()), copied_edges(instance)),
        GadgetForm::Capped(capacities) => {
            capped_size(instance, instance.value_list(), capacities)
        }
        GadgetForm::Ports(parity) => ports_size(instance, parity),
        GadgetForm::PathPorts => greater(
            ports_size(instance, Parity::Values),
            ports_size(instance, Parity::Empty),
        ),
        GadgetForm::Halves => halves_size(instance),
        GadgetForm::Sides { odd } => sides_size(instance, odd),
    }
}

/// The vertices and edges of the certificate graph of an instance of this kind, which is also
/// searched; for a path the greater numbers of two graphs. It takes no memory, and time linear in
/// vertices and edges.
pub fn gadget_size(instance: &Instance, kind: Kind) -> (u64, u64)
    // The size of the certificate graph, from numbers alone, also past the limits.
    ensures vertices { result.0 ≡ (size_of kind instance.now).vertices }
    ensures edges { result.1 ≡ (size_of kind instance.now).edges }
{
    size_by(instance, kind.gadget())
}

/// The vertices and edges of the certificate graph that is built so, also for the ports of a path.
fn certified_by(instance: &Instance, gadget: GadgetForm) -> (u64, u64)
    ensures vertices { result.0 ≡ (certified_by gadget instance.now).vertices }
    ensures edges { result.1 ≡ (certified_by gadget instance.now).edges }
{
    match gadget {
        GadgetForm::PathPorts => ports_size(instance, Parity::Values),
        _ => size_by(instance, gadget),
    }
}

/// The vertices and edges of the certificate graph of an instance of this kind: `gadget_size`, but
/// for a path, which has a greater graph searched besides. It takes no memory, and time linear in
/// vertices and edges.
pub fn certified_size(instance: &Instance, kind: Kind) -> (u64, u64)
    ensures vertices { result.0 ≡ (certified_size kind instance.now).vertices }
    ensures edges { result.1 ≡ (certified_size kind instance.now).edges }
{
    certified_by(instance, kind.gadget())
}
