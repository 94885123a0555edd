use alt_forest::Search;
use blossom_arena::{Arena, NodeId};
use dual_change::Event;

/// How often each event has happened, how many of the blossoms that were expanded had another one
/// in them, and how many that were there at the end of a pass had.
#[derive(Clone, Copy)]
pub struct Tally {
    pub grown: u32,
    pub shrunk: u32,
    pub expanded: u32,
    pub augmented: u32,
    pub nests_expanded: u32,
    pub nests_unpacked: u32,
}

/// One more, if there is room.
fn add_one(count: &mut u32) {
    *count = count.saturating_add(1);
}

/// Whether a blossom has another one in it. Any number may be asked for.
fn is_nest(arena: &Arena, node: NodeId) -> bool {
    if !arena.is_node(node) {
        return false;
    }
    if node.number() <= arena.vertex_count() {
        return false;
    }
    arena
        .ring(node)
        .any(|link| link.node.number() > arena.vertex_count())
}

impl Tally {
    pub fn new() -> Tally {
        Tally {
            grown: 0,
            shrunk: 0,
            expanded: 0,
            augmented: 0,
            nests_expanded: 0,
            nests_unpacked: 0,
        }
    }

    /// Whether each event has happened, and blossoms with others in them were expanded and were
    /// kept.
    pub fn has_all(&self) -> bool {
        if self.grown == 0 || self.shrunk == 0 {
            return false;
        }
        if self.expanded == 0 || self.augmented == 0 {
            return false;
        }
        self.nests_expanded > 0 && self.nests_unpacked > 0
    }

    /// Counts an event that is to happen to a search.
    pub fn count(&mut self, search: &Search, event: &Event) {
        match event {
            Event::Grow(_) => add_one(&mut self.grown),
            Event::Shrink(_) => add_one(&mut self.shrunk),
            Event::Augment(_) => add_one(&mut self.augmented),
            Event::Expand(b) => {
                add_one(&mut self.expanded);
                if is_nest(&search.arena, *b) {
                    add_one(&mut self.nests_expanded);
                }
            }
        }
    }

    /// Counts the blossoms that are there at the end of a pass.
    pub fn count_kept(&mut self, search: &Search) {
        for b in search.arena.blossoms() {
            if is_nest(&search.arena, b) {
                add_one(&mut self.nests_unpacked);
            }
        }
    }
}
