ghost use Rattle.std.specs.Prelude.{◌≡◌, ℕ, ◌<◌, [], ◌∷◌, length, IsNone, ◌↔◌, IfSome};
ghost use Rattle.std.specs.List.{position, after_first};
ghost use Rattle.std.specs.Str.Lines.{strip_carriage_return};
ghost use Rattle.mb_base.specs.Text.{lines, raw_lines, is_line_feed};

use memchr::memchr;

fn first_line_feed(bytes: &[u8]) -> Option<usize>
    ensures { result ≡ position is_line_feed bytes.now }
{
    // A call of memchr costs more than an empty line has to be read.
    match bytes {
        [b'\n', ..] => Some(0),
        _ => memchr(b'\n', bytes),
    }
}

fn cut_line(bytes: &[u8]) -> (&[u8], &[u8])
    requires { 0 < length bytes.now }
    ensures lines { raw_lines bytes.now ≡ result.0.now ∷ raw_lines result.1.now }
    ensures after { result.1.now ≡ after_first is_line_feed bytes.now }
    ensures rest { length result.1.now < length bytes.now }
{
    match first_line_feed(bytes) {
        Some(end) => (&bytes[..end], &bytes[end + 1..]),
        None => (bytes, &bytes[..0]),
    }
}

fn trim(line: &[u8]) -> &[u8]
    ensures { result.now ≡ strip_carriage_return line.now }
{
    match line {
        [front @ .., last] if *last == b'\r' => front,
        _ => line,
    }
}

/// The first line of a text, without its line feed and without the one carriage return that may
/// stand before it, and what follows the line. None exactly for no bytes.
pub fn next_line(bytes: &[u8]) -> Option<(&[u8], &[u8])>
    // The lines of a text as the format divides it.
    ensures none { IsNone result ↔ (bytes.now ≡ []) }
    ensures line { IfSome result (λ r. lines bytes.now ≡ r.0.now ∷ lines r.1.now) }
    ensures after { IfSome result (λ r. r.1.now ≡ after_first is_line_feed bytes.now) }
    ensures rest { IfSome result (λ r. length r.1.now < length bytes.now) }
{
    if bytes.is_empty() {
        return None;
    }
    let (line, rest) = cut_line(bytes);
    Some((trim(line), rest))
}
