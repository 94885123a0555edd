//! What a pass of the search begins with (Schrijver, Combinatorial Optimization, volume A, chapters
//! 24 and 26), while no tree and no blossom stands: feasible duals, a matching by tight edges that
//! is made by greed, the roots, and the least weight. It also has what a run needs beside its
//! events: the roots of a phase, the one weight that all edges may have with the duals by which a
//! pass without weights serves for it, the list of blossoms after the last pass, and the edges that
//! are kept for vertices. It depends on `search_keys`, `alt_forest` and the crates below. It
//! promises that a pass begins sound and within its bounds, that no tight edge joins two exposed
//! vertices then, how many edges it looks at, that every exposed node is planted, and that just the
//! blossoms of dual at least 1 are listed.
#![tactic(auto)]

mod edges;
mod exposed;
mod freeing;
mod moving;
mod pairing;
mod plant_by_keys;
mod planting;
mod raising;
mod reaching;
mod set_list;
mod slacks;
mod starting;
mod sweeping;
mod weighing;
mod weights;

pub use edges::{edge_at, kept_edge, push_both};
pub use plant_by_keys::plant_all_bounding;
pub use planting::plant_all;
pub use set_list::list_sets;
pub use starting::{start_duals, start_pass};
pub use weighing::weigh;
pub use weights::{common_weight, least_weight};
