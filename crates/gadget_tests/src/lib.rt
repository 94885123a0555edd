//! Tests of instances, of graphs and what is looked up in them, and of the gadgets on worked
//! instances: from the text of an instance to its certificate graph, and from a perfect matching of
//! that graph back to an answer. It depends on `dimacs_read`, `graph_parts`, `dual_check` and the
//! crates of gadgets, and has no call of its own.
#![tactic(auto)]

#[cfg(test)]
mod tests;
