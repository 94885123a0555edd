//! Edge lines as tools write them, nearly all lines of a large text, in one pass over their bytes.
ghost use Rattle.std.specs.Prelude.{◌≡◌, ◌<◌, ◌≤◌, ◌≤ℤ◌, pos, length, take, IfSome, Some};
ghost use Rattle.graph_theory.specs.Graph.{IsWeight};
ghost use Rattle.mb_base.specs.Text.{natural};
ghost use Rattle.dimacs_read.specs.Line.{HasFewVertices};
ghost use Rattle.dimacs_read.specs.Plain.{LeadsWith, LeadsWithWeight, IsPlainEdge};

use crate::line::Header;
use graph_theory::WEIGHT_LIMIT;
use mb_base::VertexId;
use mb_problem::InstanceEdge;

/// How many digits stand at the front, of which 18 are read at most, and the number that they
/// spell.
fn leading_digits(bytes: &[u8]) -> (usize, u64)
    ensures count { result.0 ≤ length bytes.now }
    ensures value { 0 < result.0 → natural (take result.0 bytes.now) ≡ Some result.1 }
{
    let most = bytes.len().min(18);
    let mut value = 0u64;
    let mut count = 0;
    'digits: while count < most {
        let b = bytes[count];
        if !b.is_ascii_digit() {
            break;
        }
        value = 10 * value + u64::from(b - b'0');
        count += 1;
    }
    (count, value)
}

/// The number that the digits at the front spell, if this byte ends them, and what follows it.
fn number_before(bytes: &[u8], mark: u8) -> Option<(u64, &[u8])>
    ensures { IfSome result (λ r. LeadsWith bytes.now mark r.0 r.1.now) }
{
    let (count, value) = leading_digits(bytes);
    if count == 0 {
        return None;
    }
    match &bytes[count..] {
        [end, rest @ ..] if *end == mark => Some((value, rest)),
        _ => None,
    }
}

/// A vertex, and what follows the space behind it.
fn vertex_before_space(bytes: &[u8], most: u32) -> Option<(u32, &[u8])>
    ensures leads { IfSome result (λ r. LeadsWith bytes.now 32 r.0 r.1.now) }
    ensures low { IfSome result (λ r. 1 ≤ r.0) }
    ensures high { IfSome result (λ r. r.0 ≤ most) }
{
    let (value, rest) = number_before(bytes, b' ')?;
    if value == 0 {
        return None;
    }
    if value > u64::from(most) {
        return None;
    }
    Some((value as u32, rest))
}

/// A weight without its sign, and what follows the line feed behind it.
fn size_before_line_feed(bytes: &[u8]) -> Option<(u64, &[u8])>
    ensures leads { IfSome result (λ r. LeadsWith bytes.now 10 r.0 r.1.now) }
    ensures high { IfSome result (λ r. pos r.0 ≤ℤ WEIGHT_LIMIT) }
{
    let (value, rest) = number_before(bytes, b'\n')?;
    if value > WEIGHT_LIMIT as u64 {
        return None;
    }
    Some((value, rest))
}

/// A weight, and what follows the line feed behind it.
fn weight_before_line_feed(bytes: &[u8]) -> Option<(i64, &[u8])>
    ensures leads { IfSome result (λ r. LeadsWithWeight bytes.now r.0 r.1.now) }
    ensures range { IfSome result (λ r. IsWeight r.0) }
{
    match bytes {
        [b'-', digits @ ..] => {
            let (size, rest) = size_before_line_feed(digits)?;
            Some((-(size as i64), rest))
        }
        _ => {
            let (size, rest) = size_before_line_feed(bytes)?;
            Some((size as i64, rest))
        }
    }
}

/// The edge of the first line, and what follows the line, if that is written plainly: after a
/// header, without a fault, with a weight and no capacity, with one space before each number and a
/// line feed behind the last. None says nothing of the line.
pub fn plain_edge(earlier: Option<Header>, bytes: &[u8]) -> Option<(InstanceEdge, &[u8])>
    requires { HasFewVertices earlier }
    ensures { IfSome result (λ r. IsPlainEdge earlier bytes.now r.0 r.1.now) }
{
    let header = earlier?;
    let [b'e', b' ', rest @ ..] = bytes else {
        return None;
    };
    let (u, rest) = vertex_before_space(rest, header.vertices)?;
    let (v, rest) = vertex_before_space(rest, header.vertices)?;
    let (w, rest) = weight_before_line_feed(rest)?;
    let edge = InstanceEdge {
        u: VertexId::new(u),
        v: VertexId::new(v),
        w,
        capacity: None,
    };
    Some((edge, rest))
}
