//! What only the end of an instance's lines shows.
ghost use Rattle.std.specs.Prelude.{◌≡◌, length, map, count_by};
ghost use Rattle.dimacs_read.specs.Format.{value_or, is_odd, negative_fault, ends_fault};
ghost use Rattle.dimacs_read.specs.Line.{sizes};
ghost use Rattle.dimacs_read.specs.Reading.{kind_fault_from, end_fault_from};

use crate::line::{Given, Header, value_or};
use crate::rule::{Fault, Rule};
use mb_problem::{InstanceEdge, Kind, Precondition};

/// How many values are odd, those that were given and the defaults.
fn odd_values(values: &[Option<Given>], default: u32) -> usize
    ensures { result ≡ count_by is_odd (map (value_or default) values.now) }
{
    values
        .iter()
        .filter(|given| value_or(**given, default) % 2 == 1)
        .count()
}

/// The fault of an edge that weighs less than 0, the first of which was read at this place.
fn negative_fault(negative: Option<u64>) -> Option<Fault>
    ensures { result ≡ negative_fault negative }
{
    let place = negative?;
    let rule = Rule::Negative;
    Some(Fault { rule, place })
}

/// The fault of an instance without exactly two ends.
fn ends_fault(values: &[Option<Given>], default: u32, lines: u64) -> Option<Fault>
    ensures { result ≡ ends_fault (map (value_or default) values.now) lines }
{
    if odd_values(values, default) == 2 {
        return None;
    }
    let rule = Rule::PathEnds;
    Some(Fault { rule, place: lines })
}

/// What a kind asks of the whole instance besides. A weight comes before the ends.
fn kind_fault(
    kind: Kind,
    values: &[Option<Given>],
    negative: Option<u64>,
    lines: u64,
) -> Option<Fault>
    ensures { result ≡ kind_fault_from kind values.now negative lines }
{
    let default = kind.default_value();
    match kind.needs() {
        Precondition::Unrestricted => None,
        Precondition::WeightsFromZero => negative_fault(negative),
        Precondition::Ends => ends_fault(values, default, lines),
        Precondition::EndsAndWeightsFromZero => {
            let ends = ends_fault(values, default, lines);
            negative_fault(negative).or(ends)
        }
    }
}

/// The first test at the end that fails.
pub fn end_fault(
    kind: Kind,
    header: Option<Header>,
    values: &[Option<Given>],
    edges: &[InstanceEdge],
    negative: Option<u64>,
    lines: u64,
) -> Option<Fault>
    ensures { result
        ≡ end_fault_from kind (sizes header) values.now (length edges.now) negative lines }
{
    let Some(header) = header else {
        let rule = Rule::HeaderMissing;
        return Some(Fault { rule, place: lines });
    };
    if edges.len() as u64 != u64::from(header.edges) {
        let rule = Rule::EdgeCount;
        return Some(Fault { rule, place: lines });
    }
    kind_fault(kind, values, negative, lines)
}
