//! What stands before a byte and behind it, and the lines of a text.
ghost use Rattle.std.specs.List.{after_first};
ghost use Rattle.std.specs.Prelude.{◌≡◌, ◌==◌, ◌<◌, ◌∷◌, [], length, IfNone, IfSome, option_map};
ghost use Rattle.std.specs.Str.Lines.{lines, strip_carriage_return};
ghost use Rattle.farm_base.specs.Cuts.{cut_at};

/// What stands before the first `end` and behind it; `None` exactly where the text has none.
pub fn cut(text: &str, end: char) -> Option<(&str, &str)>
    requires { end < 128 }
    ensures { option_map (λ p. (p.0.now, p.1.now)) result ≡ cut_at end text.entry.now }
{
    text.split_once(end)
}

/// The first line of a text and what stands behind it; `None` exactly where the text is empty. A line
/// ends before its newline, and loses one carriage return before that; the last may lack the newline,
/// and then loses nothing. These are the lines of Rust's `str::lines`, of bytes that may be no text.
pub fn first_line(bytes: &[u8]) -> Option<(&[u8], &[u8])>
    ensures none { IfNone result (lines bytes.entry.now ≡ []) }
    ensures some { IfSome result (λ p. lines bytes.entry.now ≡ p.0.now ∷ lines p.1.now) }
    ensures behind { IfSome result (λ p. p.1.now ≡ after_first (λ b. b == 10) bytes.entry.now) }
    ensures less { IfSome result (λ p. length p.1.now < length bytes.entry.now) }
{
    if bytes.is_empty() {
        return None;
    }
    match bytes.iter().position(|b| *b == b'\n') {
        Some(end) => Some((without_return(&bytes[..end]), &bytes[end + 1..])),
        None => Some((bytes, &[])),
    }
}

/// The line without the carriage return at its end, if it has one.
pub fn without_return(line: &[u8]) -> &[u8]
    ensures { result.now ≡ strip_carriage_return line.entry.now }
{
    match line {
        [front @ .., b'\r'] => front,
        _ => line,
    }
}
