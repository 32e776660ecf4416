//! Writes a filter as a text.
ghost use Rattle.std.specs.Prelude.{◌≡◌, OnOk, IfOk, ℕ, List, map, string_bytes};
ghost use Rattle.plain_filters.specs.Filters.{tree_of};
ghost use Rattle.filter_expr.specs.Filters.{FilterOf};
ghost use Rattle.filter_expr.specs.inner.Parts.{read_sum, read_product};
ghost use Rattle.filter_texts.specs.Written.{filter_text, put_behind};
ghost use Rattle.filter_texts.specs.inner.Pieces as piece;
ghost use Rattle.filter_texts.specs.inner.Pieces.{put_tree, put_terms};

use crate::words::{
    compare_word, product_word, put_name, put_number, put_quoted, put_word, strength, sum_word,
    truth_word,
};
use farm_base::{NoMemory, Text};
use plain_filters::{Expr, ProductPart, SumPart};
use std::alloc::Global;

/// The filter as a text: a space between two tokens, parentheses only where a part binds too weakly for
/// its place, words for `or`, `and` and `not`, `!=` for unequal, texts in single quotes. A filter that
/// was read from a text is what the text here is read as. A list of parts that no text gives, as an `or`
/// of none, or a number below 0 is written too, and that text is another filter or none. Linear in the
/// text, and no deeper than the filter.
pub fn write(alloc: Global, e: &Expr) -> Result<Text, NoMemory>
    ensures text { IfOk result (λ t. t ≡ filter_text (tree_of e.now)) }
    ensures again { IfOk result
        (λ t. (text : List ℕ) → FilterOf text (tree_of e.now) → FilterOf t (tree_of e.now)) }
{
    let mut out = String::new(alloc);
    put_form(&mut out, e)?;
    Ok(Text::from_string(out))
}

// The filter behind what was written, in parentheses where it binds more weakly than `least`.
#[cycle(writer)]
#[tactic(auto, using(crate::proofs::Pieces::put_bare, crate::proofs::Pieces::put_guarded))]
fn put(out: &mut String, e: &Expr, least: u32) -> Result<(), NoMemory>
    ensures { OnOk result (string_bytes out.new
        ≡ put_tree least (tree_of e.now) (string_bytes out.old)) }
{
    if strength(e) >= least {
        return put_form(out, e);
    }
    put_word(out, "(")?;
    put_form(out, e)?;
    put_word(out, ")")
}

// A word, and the filter behind it.
#[cycle(writer)]
fn put_with(out: &mut String, word: &str, part: &Expr, least: u32) -> Result<(), NoMemory>
    ensures { OnOk result (string_bytes out.new
        ≡ put_tree least (tree_of part.now) (put_behind (string_bytes out.old) word.now)) }
{
    put_word(out, word)?;
    put(out, part, least)
}

// The filter behind what was written, without parentheses of its own.
#[cycle(writer)]
#[tactic(auto, using(crate::proofs::Pieces::forms))]
fn put_form(out: &mut String, e: &Expr) -> Result<(), NoMemory>
    ensures { OnOk result (string_bytes out.new
        ≡ piece.put_form (tree_of e.now) (string_bytes out.old)) }
{
    match e {
        Expr::Or(parts) => put_list(out, parts, "or", 1),
        Expr::And(parts) => put_list(out, parts, "and", 2),
        Expr::Not(part) => put_with(out, "not", part, 2),
        Expr::Compare(a, sign, b) => {
            put(out, a, 4)?;
            put_with(out, compare_word(*sign), b, 4)
        }
        Expr::Sum(first, parts) => {
            put(out, first, 5)?;
            put_sums(out, parts)
        }
        Expr::Product(first, parts) => {
            put(out, first, 6)?;
            put_products(out, parts)
        }
        Expr::Negate(part) => put_with(out, "-", part, 6),
        Expr::Name(name) => put_name(out, name.as_str()),
        Expr::Text(text) => put_quoted(out, text.as_str()),
        Expr::Number(n) => put_number(out, *n),
        Expr::Truth(b) => put_word(out, truth_word(*b)),
        Expr::Null => put_word(out, "null"),
    }
}

#[cycle(writer)]
#[tactic(auto, using(crate::proofs::Pieces::part_here, crate::proofs::Pieces::list_begins))]
fn put_list(out: &mut String, parts: &[Expr], word: &str, least: u32) -> Result<(), NoMemory>
    ensures { OnOk result (string_bytes out.new
        ≡ piece.put_list word.now least (map tree_of parts.now) (string_bytes out.old)) }
{
    let Some(first) = parts.first() else {
        return put_word(out, "");
    };
    put(out, first, least)?;
    for i in 1..parts.len() {
        put_with(out, word, &parts[i], least)?;
    }
    Ok(())
}

#[cycle(writer)]
#[tactic(auto, using(crate::proofs::Pieces::term_here))]
fn put_sums(out: &mut String, parts: &[SumPart]) -> Result<(), NoMemory>
    ensures { OnOk result (string_bytes out.new
        ≡ put_terms 5 (map read_sum parts.now) (string_bytes out.old)) }
{
    for later in parts {
        put_with(out, sum_word(later.sign), &later.part, 5)?;
    }
    Ok(())
}

#[cycle(writer)]
#[tactic(auto, using(crate::proofs::Pieces::term_here))]
fn put_products(out: &mut String, parts: &[ProductPart]) -> Result<(), NoMemory>
    ensures { OnOk result (string_bytes out.new
        ≡ put_terms 6 (map read_product parts.now) (string_bytes out.old)) }
{
    for later in parts {
        put_with(out, product_word(later.sign), &later.part, 6)?;
    }
    Ok(())
}
