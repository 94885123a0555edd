ghost use Rattle.std.specs.Prelude.{◌≡◌, ◌<◌};
ghost use Rattle.blossom_c.specs.Endings.{Ends, EndsNumbered, Tells};

use crate::buffer::put;
use crate::call_numbers::{kind_numbered, task_numbered};
use crate::call_status::CallStatus;
use match_cli::{Task, call};
use mb_base::Steps;
use mb_problem::Kind;
use std::alloc::Global;
use std::marker::Brand;
use std::sync::ledger::{Blank, Ledger};

/// Does the task for the kind, with a counter of its own.
fn answer<L: Ledger>(
    blank: Blank,
    alloc: Global,
    task: Task,
    kind: Kind,
    input: &[u8],
    output: &mut [u8],
    used: &mut usize,
) -> CallStatus
    requires name { blank.name ≡ L.name }
    requires parts { blank.parts ≡ L.parts }
    requires some { 0 < blank.parts }
    ensures { Ends task kind input.now output.old output.new used.new result }
{
    let mut steps = Steps::<L>::new(blank);
    let answer = call(alloc, task, kind, input, &mut steps);
    *used = answer.text.len();
    if put(&answer.text, output) {
        CallStatus::Answered(answer.status)
    } else {
        CallStatus::ShortBuffer
    }
}

/// The same, for the numbers of a task and a kind.
fn answer_numbered(
    alloc: Global,
    task: u32,
    kind: u32,
    input: &[u8],
    output: &mut [u8],
    used: &mut usize,
) -> CallStatus
    ensures { EndsNumbered task kind input.now output.old output.new used.new result }
{
    let Some(task) = task_numbered(task) else {
        *used = 0;
        return CallStatus::NoSuchCall;
    };
    let Some(kind) = kind_numbered(kind) else {
        *used = 0;
        return CallStatus::NoSuchCall;
    };
    answer::<Brand>(Blank::new(1), alloc, task, kind, input, output, used)
}

/// Does the task of this number (1 solve, 2 solve in brief, 3 check) for the kind of this number
/// (`Kind::number`, from 1) on the input. The answer stands at the front of `output` then, `used`
/// is its length, and the result is the exit status of the program. Two results are others: at 9
/// the answer is longer than `output`, and at 10 a number is none of these. Then `output` is as it
/// was.
#[unsafe(no_mangle)]
pub extern "C" fn blossom_call(
    alloc: Global,
    task: u32,
    kind: u32,
    input: &[u8],
    output: &mut [u8],
    used: &mut usize,
) -> u32
    // The answer of a call over texts is at the front of the buffer, the rest of which is as it
    // was; or it is longer, and the buffer is as it was. Its length is told either way.
    ensures { Tells task kind input.now output.old output.new used.new result }
{
    answer_numbered(alloc, task, kind, input, output, used).number()
}

/// The version of the calls of this library.
#[unsafe(no_mangle)]
pub extern "C" fn blossom_abi() -> u32
    // The version of the calls for C.
    ensures { result ≡ 5 }
{
    5
}
