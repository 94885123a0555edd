ghost use Rattle.std.specs.Prelude.{◌≡◌, false, ℕ, ◌<◌, [], ◌∷◌, length, IfSome, MatchOption};
ghost use Rattle.std.specs.Prelude.{slice_get, IsTrue};
ghost use Rattle.std.specs.List.{position};
ghost use Rattle.std.specs.Iterator.{YieldsFirstRef, item_count};
ghost use Rattle.mb_base.specs.Text.{fields, is_blank};

use std::marker::Model;

fn is_space(b: u8) -> bool
    ensures { result ≡ is_blank b }
{
    // Most bytes of a line stand above both, and are told by the first comparison.
    b <= b' ' && (b == b' ' || b == b'\t')
}

fn first_blank(line: &[u8]) -> Option<usize>
    ensures { result ≡ position is_blank line.now }
{
    line.iter().position(|b| is_space(*b))
}

fn skip_blanks(line: &[u8]) -> &[u8]
    ensures fields { fields result.now ≡ fields line.now }
    ensures begins { IfSome (slice_get result.now 0) (λ b. is_blank b ≡ false) }
{
    let mut rest = line;
    'blanks: while let [first, others @ ..] = rest {
        if !is_space(*first) {
            return rest;
        }
        rest = others;
    }
    rest
}

/// The first field of a line, and what follows it and the blank behind it.
fn next_field(line: &[u8]) -> Option<(&[u8], &[u8])>
    ensures { MatchOption result (fields line.now ≡ []) (λ r. fields line.now
        ≡ r.0.now ∷ fields r.1.now) }
{
    let rest = skip_blanks(line);
    if rest.is_empty() {
        return None;
    }
    match first_blank(rest) {
        Some(end) => Some((&rest[..end], &rest[end + 1..])),
        None => Some((rest, &rest[..0])),
    }
}

/// The fields of a line, in order, as slices of the line. Contracts see the list of those to come.
#[derive(Drop)]
pub struct Fields<'a> {
    rest: &'a [u8],
}

impl<'a> Model for Fields<'a> {
    ghost use Rattle.std.specs.Prelude.{List, ℕ};
    ghost use Rattle.mb_base.specs.Text.{fields};

    ghost Value = { List (List ℕ) };

    ghost view = { λ s. fields s.rest.now };
}

impl<'a> Fields<'a> {
    /// The fields of this line, which has no line feed and no carriage return of its end.
    pub fn new(line: &'a [u8]) -> Fields<'a>
        // The fields of a line as the format divides it.
        ensures { result ≡ fields line.now }
    {
        Fields { rest: line }
    }
}

impl<'a> Iterator for Fields<'a> {
    type Item = &'a [u8];

    ghost next_gives = { YieldsFirstRef (λ s. s) };

    ghost remaining = { item_count (λ s. s) };

    fn next(&mut self) -> Option<&'a [u8]> {
        let (field, rest) = next_field(self.rest)?;
        self.rest = rest;
        Some(field)
    }
}
