//! Tables of texts. A line `in A%B` says what the texts after it stand in, at the `%`; a line `WANTED <- TEXT`
//! is a text, and a line `WANTED <* COUNT SEPARATOR PIECE` is one of so many pieces, each `#` in a piece being
//! its number. What is wanted is for readers, and for the script that makes the output wanted of this program.
ghost use Rattle.std.specs.Prelude.{◌≡◌, ◌++◌, string_bytes, IfOk, IfSome};
ghost use Rattle.case_texts.specs.Rows.{IsFrame, Stands};

use farm_base::cut;
use std::alloc::{AllocError, Global};

/// What the texts of a table stand in.
#[derive(Clone, Copy)]
pub struct Frame<'a> {
    pub before: &'a str,
    pub after: &'a str,
}

/// The frame of a line, if it says one.
pub fn frame_of(line: &str) -> Option<Frame<'_>>
    ensures { IfSome result (λ f. IsFrame line.now f.before.now f.after.now) }
{
    let Some(around) = line.strip_prefix("in ") else {
        return None;
    };
    let Some((before, after)) = cut(around, '%') else {
        return None;
    };
    Some(Frame { before, after })
}

/// The text of a line within the frame; none of a line without an arrow, or that counts no pieces.
pub fn row(alloc: Global, frame: &Frame<'_>, line: &str) -> Result<Option<String>, AllocError>
    ensures { IfOk result (λ row. IfSome row
        (λ text. Stands (string_bytes text) frame.now.before.now frame.now.after.now)) }
{
    if let Some((_, text)) = line.split_once(" <- ") {
        return Ok(Some(framed(alloc, frame, text)?));
    }
    let Some((_, recipe)) = line.split_once(" <* ") else {
        return Ok(None);
    };
    match pieces(alloc, recipe)? {
        Some(text) => Ok(Some(framed(alloc, frame, text.as_str())?)),
        None => Ok(None),
    }
}

fn framed(alloc: Global, frame: &Frame<'_>, text: &str) -> Result<String, AllocError>
    ensures { IfOk result
        (λ whole. string_bytes whole ≡ frame.now.before.now ++ text.now ++ frame.now.after.now) }
{
    format!(in alloc; "{}{text}{}", frame.before, frame.after)
}

fn pieces(alloc: Global, recipe: &str) -> Result<Option<String>, AllocError> {
    let Some((count, rest)) = recipe.split_once(' ') else {
        return Ok(None);
    };
    let Some((separator, piece)) = rest.split_once(' ') else {
        return Ok(None);
    };
    match count.parse::<u32>() {
        Ok(count) => Ok(Some(copies(alloc, count, separator, piece)?)),
        Err(_) => Ok(None),
    }
}

fn copies(alloc: Global, count: u32, separator: &str, piece: &str) -> Result<String, AllocError> {
    let mut all = String::new(alloc);
    for number in 0..count {
        if number > 0 {
            all.push_str(separator)?;
        }
        push_piece(alloc, &mut all, piece, number)?;
    }
    Ok(all)
}

fn push_piece(alloc: Global, all: &mut String, piece: &str, number: u32) -> Result<(), AllocError> {
    match piece.split_once('#') {
        Some((before, after)) => {
            all.push_str(format!(in alloc; "{before}{number}{after}")?.as_str())
        }
        None => all.push_str(piece),
    }
}
