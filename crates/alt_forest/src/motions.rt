ghost use Rattle.std.specs.Prelude.{◌≡◌, ◌<◌, true, length};
ghost use Rattle.blossom_arena.specs.declared.label.Label.TheVariants.{Out};
ghost use Rattle.blossom_arena.specs.Family.{IsFamily, is_outermost};
ghost use Rattle.alt_forest.specs.Searches.{label_at, put};

use blossom_arena::{Arena, Label, NodeId};

/// Lets an outermost node move as a label says.
pub(crate) fn set_motion(arena: &mut Arena, node: NodeId, label: Label)
    requires is_family { IsFamily arena.old }
    requires outermost { is_outermost arena.old.vertex_count arena.old.blossoms node ≡ true }
    ensures motions { label_at arena.new.motions ≡ put (label_at arena.old.motions) node label }
    ensures frame { arena.new ≡ record arena.old { motions = arena.new.motions } }
    ensures is_family { IsFamily arena.new }
{
    arena.move_as(node, label);
}

/// Lets a node move no more. One inside a blossom doesn't anyway.
pub(crate) fn halt(arena: &mut Arena, node: NodeId)
    requires is_family { IsFamily arena.old }
    requires within { node < length arena.old.motions }
    ensures motions { label_at arena.new.motions ≡ put (label_at arena.old.motions) node Out }
    ensures frame { arena.new ≡ record arena.old { motions = arena.new.motions } }
    ensures is_family { IsFamily arena.new }
{
    if !arena.is_outermost(node) {
        return;
    }
    arena.move_as(node, Label::Out);
}
