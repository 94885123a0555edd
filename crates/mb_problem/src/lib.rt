//! Instances of the problems, their answers, and which answers are feasible. It depends on
//! `mb_base`, `graph_theory`, `gallai_theory` and `weighted_graph`. It promises the definitions of
//! a feasible and of a best answer for each kind, that `feasible`, `degree` and `weight` are these
//! definitions, and that `gadget_size` is the size of the certificate graph. All that tells one
//! kind from another stands beside `Kind`, as its methods.
#![tactic(auto)]

mod answer;
mod copy_sizes;
mod degrees;
mod feasibility;
mod gadget;
mod instance;
mod kind;
mod layer_sizes;
mod limits;
mod marks;
mod measure;
mod size;
mod two_ends;
mod walks;

pub use answer::{Answer, Join, Parity};
pub use degrees::{count_edges, degrees_of};
pub use feasibility::feasible;
pub use gadget::{Capacities, GadgetForm};
pub use instance::{Instance, InstanceEdge};
pub use kind::{
    AnswerForm, BestProof, Cost, DualValue, EdgeUse, Kind, Objective, Obstruction, Precondition,
    VertexValue, WalkStart,
};
pub use layer_sizes::mark_sides;
pub use limits::{EDGE_LIMIT, VALUE_LIMIT, VERTEX_LIMIT};
pub use marks::{mark, marks_of};
pub use measure::{degree, weight};
pub use size::{certified_size, copy_pairs, gadget_size, link_count, odd_by, ports_by};
pub use two_ends::ends;
pub use walks::{is_circuit, vertices_differ, walk_end};
