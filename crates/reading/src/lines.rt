//! The lines of texts.
ghost use Rattle.std.specs.Prelude.{◌≡◌};
ghost use Rattle.reading.specs.Lines as spec;
ghost use Rattle.reading.specs.Steps.{seen};

use std::str;

/// The line as a text, or the fault where it is not UTF-8.
#[tactic(auto, unfolding(crate::specs::Lines::line_text), using(crate::proofs::LineLoop::text_known, crate::proofs::LineLoop::text_unknown))]
pub fn line_text<E: Drop>(line: &[u8], fault: E) -> Result<&str, E>
    ensures { seen (λ s. s.now) result ≡ spec.line_text fault line.entry.now }
{
    match str::from_utf8(line) {
        Ok(text) => Ok(text),
        Err(_) => Err(fault),
    }
}
