ghost use Rattle.std.specs.Prelude.{◌≡◌, ◌<◌, ◌≤◌, IfOk, OnOk};
ghost use Rattle.inst_gen.specs.Draws.{state_after};
ghost use Rattle.inst_gen.specs.Made.{value_draws, value_at, values_from};

use crate::draws::Draws;
use mb_base::OutOfMemory;
use mb_problem::{Kind, VERTEX_LIMIT, VertexValue};
use std::alloc::Global;

/// The value of the vertex at place k of n.
fn value(kind: Kind, n: u32, k: u32, draws: &mut Draws) -> u32
    requires { k < n }
    ensures value { result ≡ value_at kind draws.old.state n k }
    ensures state { draws.new.state ≡ state_after draws.old.state (value_draws kind 1) }
{
    match kind.vertex_value() {
        VertexValue::Unused => 0,
        VertexValue::Degree => 1 + draws.draw(2),
        VertexValue::Parity => draws.draw(2),
        VertexValue::End => u32::from(k == 0 || k + 1 == n),
        VertexValue::Bounds => 0,
    }
}

/// The values of the n vertices.
pub fn make_values(
    alloc: Global,
    kind: Kind,
    n: u32,
    draws: &mut Draws,
) -> Result<Vec<u32>, OutOfMemory>
    requires { n ≤ VERTEX_LIMIT }
    ensures values { IfOk result (λ v. v.items ≡ values_from kind draws.old.state n) }
    ensures state { OnOk result
        (draws.new.state ≡ state_after draws.old.state (value_draws kind n)) }
{
    let mut values = Vec::with_capacity(alloc, n as usize)?;
    for k in 0..n {
        values.push(value(kind, n, k, draws))?;
    }
    Ok(values)
}
