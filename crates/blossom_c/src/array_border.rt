//! The calls over arrays.
ghost use Rattle.std.specs.Prelude.{◌≡◌, ◌≢◌, ◌<◌, ◌≤◌, length};
ghost use Rattle.solve_answers.specs.declared.detail.Detail.TheVariants.{Brief};
ghost use Rattle.array_call.specs.Arrays.{arrays_of};
ghost use Rattle.array_call.specs.Answers.{Gives, GivesSize, size_without_proof};
ghost use Rattle.array_call.specs.Checks.{GivesVerdict};
ghost use Rattle.blossom_c.specs.ArrayEndings.{HandsOver, Ends, EndsSolving, EndsSizing};
ghost use Rattle.blossom_c.specs.ArrayEndings.{EndsChecking, TellsSolving, TellsSizing};
ghost use Rattle.blossom_c.specs.ArrayEndings.{TellsChecking, number_of_array_ending};
ghost use Rattle.blossom_c.specs.ArrayEndings.{number_of_solving};
ghost use Rattle.blossom_c.specs.declared.array_ending.ArrayEnding.TheVariants.{ShortBuffer};

use crate::array_ending::ArrayEnding;
use crate::buffer::put_numbers;
use crate::call_numbers::{kind_numbered, solving_numbered};
use array_call::{ArrayAnswer, InstanceArrays, answer_to, check_to, size_to};
use mb_base::Steps;
use mb_problem::Kind;
use solve_answers::Detail;
use std::alloc::Global;
use std::marker::Brand;
use std::sync::ledger::{Blank, Ledger};

/// Hands an answer over to the buffer, where it has room for it.
pub(crate) fn hand_over(answer: &ArrayAnswer, output: &mut [i64], used: &mut usize) -> ArrayEnding
    ensures { HandsOver answer.now.numbers.items answer.now.status output.old output.new used.new
        result }
{
    *used = answer.numbers.len();
    if put_numbers(&answer.numbers, output) {
        ArrayEnding::Answered(answer.status)
    } else {
        ArrayEnding::ShortBuffer
    }
}

/// Solves arrays, with a counter of its own.
fn solve<L: Ledger>(
    blank: Blank,
    alloc: Global,
    detail: Detail,
    kind: Kind,
    arrays: &InstanceArrays<'_>,
    output: &mut [i64],
    used: &mut usize,
) -> ArrayEnding
    requires name { blank.name ≡ L.name }
    requires parts { blank.parts ≡ L.parts }
    requires some { 0 < blank.parts }
    ensures { Ends (Gives detail kind (arrays_of arrays.now)) output.old output.new used.new
        result }
{
    let mut steps = Steps::<L>::new(blank);
    let answer = answer_to(alloc, detail, kind, arrays, &mut steps);
    hand_over(&answer, output, used)
}

/// The same, for the numbers of a task and a kind.
fn solve_numbered(
    alloc: Global,
    task: u32,
    kind: u32,
    arrays: &InstanceArrays<'_>,
    output: &mut [i64],
    used: &mut usize,
) -> ArrayEnding
    ensures { EndsSolving task kind (arrays_of arrays.now) output.old output.new used.new result }
{
    let Some(detail) = solving_numbered(task) else {
        *used = 0;
        return ArrayEnding::NoSuchCall;
    };
    let Some(kind) = kind_numbered(kind) else {
        *used = 0;
        return ArrayEnding::NoSuchCall;
    };
    solve::<Brand>(Blank::new(1), alloc, detail, kind, arrays, output, used)
}

/// The size of the certificate graph of arrays.
fn size(
    alloc: Global,
    kind: Kind,
    arrays: &InstanceArrays<'_>,
    output: &mut [i64],
    used: &mut usize,
) -> ArrayEnding
    ensures { Ends (GivesSize kind (arrays_of arrays.now)) output.old output.new used.new result }
{
    let answer = size_to(alloc, kind, arrays);
    hand_over(&answer, output, used)
}

/// The same, for the number of a kind.
fn size_numbered(
    alloc: Global,
    kind: u32,
    arrays: &InstanceArrays<'_>,
    output: &mut [i64],
    used: &mut usize,
) -> ArrayEnding
    ensures { EndsSizing kind (arrays_of arrays.now) output.old output.new used.new result }
{
    let Some(kind) = kind_numbered(kind) else {
        *used = 0;
        return ArrayEnding::NoSuchCall;
    };
    size(alloc, kind, arrays, output, used)
}

/// Judges the numbers of an answer.
fn check(
    alloc: Global,
    kind: Kind,
    arrays: &InstanceArrays<'_>,
    numbers: &[i64],
    output: &mut [i64],
    used: &mut usize,
) -> ArrayEnding
    ensures { Ends (GivesVerdict kind (arrays_of arrays.now) numbers.now) output.old output.new
        used.new result }
{
    let answer = check_to(alloc, kind, arrays, numbers);
    hand_over(&answer, output, used)
}

/// The same, for the number of a kind.
fn check_numbered(
    alloc: Global,
    kind: u32,
    arrays: &InstanceArrays<'_>,
    numbers: &[i64],
    output: &mut [i64],
    used: &mut usize,
) -> ArrayEnding
    ensures { EndsChecking kind (arrays_of arrays.now) numbers.now output.old output.new used.new
        result }
{
    let Some(kind) = kind_numbered(kind) else {
        *used = 0;
        return ArrayEnding::NoSuchCall;
    };
    check(alloc, kind, arrays, numbers, output, used)
}

/// Solves an instance given as arrays, in full (task 1) or in brief (task 2), for the kind of this
/// number (`Kind::number`, from 1): `array_call::answer_to`. The numbers of the answer stand at the
/// front of `output` then, `used` is how many they are, and the result is the status, as that of
/// `blossom_call`. Two results are others: at 9 there are more numbers than `output` has room for,
/// and at 10 a number is none of these. Then `output` is as it was.
#[unsafe(no_mangle)]
pub extern "C" fn blossom_solve_arrays(
    alloc: Global,
    task: u32,
    kind: u32,
    vertices: u32,
    from: &[u32],
    to: &[u32],
    weights: &[i64],
    capacities: &[i64],
    values: &[u32],
    output: &mut [i64],
    used: &mut usize,
) -> u32
    // The same for an answer in numbers.
    ensures told { TellsSolving task kind (record {
      vertices = vertices;
      from = from.now;
      to = to.now;
      weights = weights.now;
      capacities = capacities.now;
      values = values.now;
    }) output.old output.new used.new result }

    // Without certificate a buffer of 9 + 2m numbers is never too small for m edges.
    ensures room { task ≡ number_of_solving Brief
        → size_without_proof (length from.now) ≤ length output.old
        → result ≢ number_of_array_ending ShortBuffer }
{
    let arrays = InstanceArrays {
        vertices,
        from,
        to,
        weights,
        capacities,
        values,
    };
    solve_numbered(alloc, task, kind, &arrays, output, used).number()
}

/// The vertices and edges of the certificate graph of an instance, given as arrays:
/// `array_call::size_to`. What is left is told as by `blossom_solve_arrays`.
#[unsafe(no_mangle)]
pub extern "C" fn blossom_certificate_size(
    alloc: Global,
    kind: u32,
    vertices: u32,
    from: &[u32],
    to: &[u32],
    weights: &[i64],
    capacities: &[i64],
    values: &[u32],
    output: &mut [i64],
    used: &mut usize,
) -> u32
    // The same for a size.
    ensures { TellsSizing kind (record {
      vertices = vertices;
      from = from.now;
      to = to.now;
      weights = weights.now;
      capacities = capacities.now;
      values = values.now;
    }) output.old output.new used.new result }
{
    let arrays = InstanceArrays {
        vertices,
        from,
        to,
        weights,
        capacities,
        values,
    };
    size_numbered(alloc, kind, &arrays, output, used).number()
}

/// Judges the numbers of an answer, in full, for an instance given as arrays:
/// `array_call::check_to`. What is left is told as by `blossom_solve_arrays`.
#[unsafe(no_mangle)]
pub extern "C" fn blossom_check_arrays(
    alloc: Global,
    kind: u32,
    vertices: u32,
    from: &[u32],
    to: &[u32],
    weights: &[i64],
    capacities: &[i64],
    values: &[u32],
    numbers: &[i64],
    output: &mut [i64],
    used: &mut usize,
) -> u32
    // The same for a verdict.
    ensures { TellsChecking kind (record {
      vertices = vertices;
      from = from.now;
      to = to.now;
      weights = weights.now;
      capacities = capacities.now;
      values = values.now;
    }) numbers.now output.old output.new used.new result }
{
    let arrays = InstanceArrays {
        vertices,
        from,
        to,
        weights,
        capacities,
        values,
    };
    check_numbered(alloc, kind, &arrays, numbers, output, used).number()
}
