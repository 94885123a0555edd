ghost use Rattle.std.specs.Prelude.{◌≡◌, ◌≤◌, ◌^◌, pos, neg_ℤ, ◌≤ℤ◌};
ghost use Rattle.graph_theory.specs.Duals.{IsNumber};
ghost use Rattle.mb_problem.specs.Values.{total_weight, value_by, value_for};

use mb_problem::{BestProof, DualValue, Instance, Kind};

/// The weights of all edges, added up.
pub fn total_weight(instance: &Instance) -> i128
    ensures total { result ≡ total_weight instance.now }
    ensures low { neg_ℤ (pos (2 ^ 90)) ≤ℤ result }
    ensures high { result ≤ℤ pos (2 ^ 90) }
{
    let mut total = 0;
    for edge in instance.edge_list() {
        total += i128::from(edge.w);
    }
    total
}

/// The value that duals of this rule have beside a best answer of this weight, in doubled units.
fn value_by(instance: &Instance, value: DualValue, weight: i64) -> i128
    requires { IsNumber weight }
    ensures { result ≡ value_by value instance.now weight }
{
    let weight = i128::from(weight);
    match value {
        DualValue::Twice => 2 * weight,
        DualValue::Opposite => -4 * weight,
        DualValue::BesideAll => 2 * (weight - total_weight(instance)),
        DualValue::FourTimes => 4 * weight,
    }
}

/// The value that duals have beside a best answer of this weight, in doubled units.
pub fn value_for(instance: &Instance, kind: Kind, weight: i64) -> i128
    requires { IsNumber weight }
    ensures { result ≡ value_for kind instance.now weight }
{
    match kind.proof() {
        BestProof::Duals(value) => value_by(instance, value, weight),
        BestProof::LighterBarrier => 2 * i128::from(weight),
        BestProof::OuterPaths => -i128::from(weight),
    }
}
