//! The call over a graph and many sets of terminals.
ghost use Rattle.std.specs.Prelude.{◌≡◌, ◌≢◌, ◌<◌, ◌≤◌, [], length};
ghost use Rattle.array_call.specs.Arrays.{arrays_of};
ghost use Rattle.array_joins.specs.Sets.{set_count};
ghost use Rattle.array_joins.specs.Numbers.{joins_room};
ghost use Rattle.array_joins.specs.Answers.{GivesJoins};
ghost use Rattle.blossom_c.specs.ArrayEndings.{Ends, number_of_array_ending};
ghost use Rattle.blossom_c.specs.JoinEndings.{TellsJoining};
ghost use Rattle.blossom_c.specs.declared.array_ending.ArrayEnding.TheVariants.{ShortBuffer};

use crate::array_border::hand_over;
use crate::array_ending::ArrayEnding;
use array_call::InstanceArrays;
use array_joins::joins_to;
use mb_base::Steps;
use std::alloc::Global;
use std::marker::Brand;
use std::sync::ledger::{Blank, Ledger};

/// Answers each set of terminals, with a counter of its own.
fn answer_sets<L: Ledger>(
    blank: Blank,
    alloc: Global,
    arrays: &InstanceArrays<'_>,
    starts: &[u32],
    terminals: &[u32],
    output: &mut [i64],
    used: &mut usize,
) -> ArrayEnding
    requires name { blank.name ≡ L.name }
    requires parts { blank.parts ≡ L.parts }
    requires some { 0 < blank.parts }
    requires loopless { arrays.now.values.now ≡ [] }
    ensures { Ends (GivesJoins (arrays_of arrays.now) starts.now terminals.now) output.old
        output.new used.new result }
{
    let mut steps = Steps::<L>::new(blank);
    let answer = joins_to(alloc, arrays, starts, terminals, &mut steps);
    hand_over(&answer, output, used)
}

/// Answers many sets of terminals on one graph, given as arrays: `array_joins::joins_to`. The set
/// at an index begins at this index of `starts` and ends where the next one begins, so there is one
/// start more than there are sets. What is left is told as by `blossom_solve_arrays`.
#[unsafe(no_mangle)]
pub extern "C" fn blossom_join_arrays(
    alloc: Global,
    vertices: u32,
    from: &[u32],
    to: &[u32],
    weights: &[i64],
    starts: &[u32],
    terminals: &[u32],
    output: &mut [i64],
    used: &mut usize,
) -> u32
    // A T-join of minimum weight for each set of terminals, or why there is none, in numbers.
    ensures told { TellsJoining (record {
      vertices = vertices;
      from = from.now;
      to = to.now;
      weights = weights.now;
      capacities = [];
      values = [];
    }) starts.now terminals.now output.old output.new used.new result }

    // A buffer of 3K + 2 + Km numbers is never too small for K sets and m edges.
    ensures room { joins_room (set_count starts.now) (length from.now) ≤ length output.old
        → result ≢ number_of_array_ending ShortBuffer }
{
    let arrays = InstanceArrays {
        vertices,
        from,
        to,
        weights,
        capacities: &[],
        values: &[],
    };
    answer_sets::<Brand>(
        Blank::new(1),
        alloc,
        &arrays,
        starts,
        terminals,
        output,
        used,
    )
    .number()
}
