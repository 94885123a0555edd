//! The parts of the numbers of an answer.
ghost use Rattle.std.specs.Prelude.{◌≡◌, ◌+◌, ◌++◌, ◌⊎◌, ◌<ℤ◌, ℤ, List, pos, length, IfSome, None};
ghost use Rattle.array_call.specs.Sheets.{Sheet, IsListed, IsParted, number_at, sheet_of};

/// The first numbers, so many, and the others.
fn split(numbers: &[i64], count: i64) -> Option<(&[i64], &[i64])>
    ensures count { IfSome result (λ r. pos (length r.0.now) ≡ count) }
    ensures whole { IfSome result (λ r. numbers.now ≡ r.0.now ++ r.1.now) }
    ensures none { result ≡ None → (count <ℤ pos 0) ⊎ (pos (length numbers.now) <ℤ count) }
{
    if count < 0 || count as u64 > numbers.len() as u64 {
        return None;
    }
    Some(numbers.split_at(count as usize))
}

/// The parts of an answer in numbers.
#[derive(Clone, Copy)]
pub struct Parts<'a> {
    /// What says which answer it is, and how long the other parts are.
    pub head: &'a [i64],
    /// The count of each edge, or the edges of a walk.
    pub answer: &'a [i64],
    /// The duals of vertices.
    pub duals: &'a [i64],
    /// What leads each list: the dual of a set, or the vertex of a path.
    pub leads: &'a [i64],
    /// Where the items of each list begin, and those of the last end.
    pub offsets: &'a [i64],
    /// The items of sets, or the edges of paths.
    pub items: &'a [i64],
    /// The members of what excludes all answers, or of the set beside a best answer.
    pub excluding: &'a [i64],
}

/// The offsets and items of lists with these leads, then the members, and the numbers behind them.
fn listed<'a>(
    head: &[i64],
    leads: &[i64],
    rest: &'a [i64],
) -> Option<(&'a [i64], &'a [i64], &'a [i64], &'a [i64])>
    requires { length head.now ≡ 8 }
    ensures offsets { IfSome result (λ r. length r.0.now ≡ length leads.now + 1) }
    ensures items { IfSome result (λ r. number_at head.now 6 ≡ pos (length r.1.now)) }
    ensures excluding { IfSome result (λ r. number_at head.now 7 ≡ pos (length r.2.now)) }
    ensures whole { IfSome result
        (λ r. rest.now ≡ r.0.now ++ (r.1.now ++ (r.2.now ++ r.3.now))) }
    ensures none { result ≡ None → (offsets items excluding : List ℤ)
        → IsListed head.now (length leads.now) rest.now offsets items excluding → ⊥ }
{
    let (offsets, rest) = split(rest, leads.len() as i64 + 1)?;
    let (items, rest) = split(rest, head[6])?;
    let (excluding, rest) = split(rest, head[7])?;
    Some((offsets, items, excluding, rest))
}

/// The parts, by the lengths that the first numbers say.
pub fn parted(numbers: &[i64]) -> Option<Parts<'_>>
    ensures parts { IfSome result (λ p. IsParted numbers.now (sheet_of p)) }
    ensures none { result ≡ None → (s : Sheet) → IsParted numbers.now s → ⊥ }
{
    let (head, rest) = split(numbers, 8)?;
    let (answer, rest) = split(rest, head[3])?;
    let (duals, rest) = split(rest, head[4])?;
    let (leads, rest) = split(rest, head[5])?;
    let (offsets, items, excluding, _) = listed(head, leads, rest)?;
    Some(Parts {
        head,
        answer,
        duals,
        leads,
        offsets,
        items,
        excluding,
    })
}
