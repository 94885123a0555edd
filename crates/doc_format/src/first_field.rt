ghost use Rattle.std.specs.Prelude.{◌≡◌, ◌∷◌, true, false, MatchOption};
ghost use Rattle.mb_base.specs.Text.{fields};
ghost use Rattle.mb_base.specs.Rows.{is_skipped};

use mb_base::Fields;

/// The first field of a line and the others, unless the line is blank or a comment.
pub fn first_field(text: &[u8]) -> Option<(&[u8], Fields<'_>)>
    ensures { MatchOption result (is_skipped (fields text.now) ≡ true)
        (λ r. (is_skipped (fields text.now) ≡ false) × (fields text.now ≡ r.0.now ∷ r.1)) }
{
    let mut others = Fields::new(text);
    let Some(first) = others.next() else {
        return None;
    };
    if let [b'c', ..] = first {
        return None;
    }
    Some((first, others))
}
