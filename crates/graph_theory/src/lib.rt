//! What certificates on undirected multigraphs rest on: degrees, weights, walks, components, duals
//! on odd sets. It depends on `base_types`, and holds the definitions that contracts cite and
//! lemmas about them. It promises the handshake lemma, weak duality with odd sets, and what
//! barriers, odd and split parts exclude.
#![tactic(auto)]

mod edge;
mod law;
mod limits;
mod odd_set;

pub use edge::Edge;
pub use law::laws;
pub use limits::{GRAPH_EDGE_LIMIT, GRAPH_VERTEX_LIMIT, NUMBER_LIMIT, WEIGHT_LIMIT};
pub use odd_set::OddSet;
