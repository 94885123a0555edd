ghost use Rattle.std.specs.Prelude.{◌≡◌, [], ◌∷◌, map, string_bytes};
ghost use Rattle.match_cli.specs.Form.{is_operand, has_form, after_name_form};

/// Whether no hyphen stands first.
fn is_operand(word: &str) -> bool
    ensures { result ≡ is_operand word.now }
{
    match word.as_bytes() {
        [b'-', ..] => false,
        _ => true,
    }
}

fn has_form_of_two(a: &str, kind: &str) -> bool
    ensures { result ≡ after_name_form (a.now ∷ kind.now ∷ []) }
{
    (a == "solve" || a == "check") && is_operand(kind)
}

fn has_form_of_three(a: &str, b: &str, c: &str) -> bool
    ensures { result ≡ after_name_form (a.now ∷ b.now ∷ c.now ∷ []) }
{
    a == "solve" && ((is_operand(b) && c == "--brief") || (b == "--brief" && is_operand(c)))
}

fn has_form_of_five(a: &str, kind: &str, start: &str, n: &str, m: &str) -> bool
    ensures { result
        ≡ after_name_form (a.now ∷ kind.now ∷ start.now ∷ n.now ∷ m.now ∷ []) }
{
    a == "trial" && is_operand(kind) && is_operand(start) && is_operand(n) && is_operand(m)
}

/// Whether the words have the form of a command, by their number and by which begin with a hyphen.
pub fn has_form(words: &[String]) -> bool
    ensures { result ≡ has_form (map string_bytes words.now) }
{
    match words {
        [_, a, b] => has_form_of_two(a.as_str(), b.as_str()),
        [_, a, b, c] => has_form_of_three(a.as_str(), b.as_str(), c.as_str()),
        [_, a, b, c, d, e] => {
            has_form_of_five(a.as_str(), b.as_str(), c.as_str(), d.as_str(), e.as_str())
        }
        _ => false,
    }
}
