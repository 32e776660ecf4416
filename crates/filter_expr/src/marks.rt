//! The marks of attributes that a filter asks for.
ghost use Rattle.std.specs.Prelude.{◌≡◌, ◌<◌, map, All, IfSome};
ghost use Rattle.plain_filters.specs.Filters.{and_tree, compare_tree, tree_of, trees_of};
ghost use Rattle.filter_expr.specs.Marked.{AsksFor, AsksMark, EqualAsks};

use attribute_marks::{mark_of_text, mark_of_truth, mark_of_whole};
use plain_filters::{CompareSign, Expr};

// The mark of an attribute of this name that equals a constant; none for another filter, and for null, which an attribute
// that is not there equals.
fn mark_of_equal(name: &str, e: &Expr) -> Option<u32>
    ensures few { IfSome result (λ mark. mark < 64) }
    ensures asks { IfSome result (λ mark. EqualAsks mark name.now (tree_of e.now)) }
{
    match e {
        Expr::Text(text) => Some(mark_of_text(name, text.as_str())),
        Expr::Number(whole) => Some(mark_of_whole(name, *whole)),
        Expr::Truth(truth) => Some(mark_of_truth(name, *truth)),
        _ => None,
    }
}

// The mark of the attribute that a comparison asks for, where a name is to equal a constant.
fn mark_of_comparison(a: &Expr, sign: CompareSign, b: &Expr) -> Option<u32>
    ensures few { IfSome result (λ mark. mark < 64) }
    ensures asks { IfSome result
        (λ mark. AsksMark mark (compare_tree (tree_of a.now) sign (tree_of b.now))) }
{
    match sign {
        CompareSign::Equal => match a {
            Expr::Name(name) => mark_of_equal(name.as_str(), b),
            _ => None,
        },
        _ => None,
    }
}

/// Marks of attributes of which one is there where the filter holds; none where the filter may hold for others.
#[cycle(asking)]
pub fn asked_marks(e: &Expr) -> Option<u64>
    ensures { IfSome result (λ asked. AsksFor asked (tree_of e.now)) }
{
    match e {
        Expr::Or(parts) => marks_of_all(parts),
        Expr::And(parts) => marks_of_one(parts),
        Expr::Compare(a, sign, b) => {
            let mark = mark_of_comparison(a, *sign, b)?;
            Some(1 << mark)
        }
        _ => None,
    }
}

// The marks of all parts together, if each asks for some.
#[cycle(asking)]
fn marks_of_all(parts: &[Expr]) -> Option<u64>
    ensures { IfSome result (λ asked. All (λ e. AsksFor asked (tree_of e)) parts.now) }
{
    let mut asked = 0u64;
    for part in parts {
        asked |= asked_marks(part)?;
    }
    Some(asked)
}

// The marks of the first part that asks for some.
#[cycle(asking)]
fn marks_of_one(parts: &[Expr]) -> Option<u64>
    ensures { IfSome result (λ asked. AsksFor asked (and_tree (trees_of (map tree_of parts.now)))) }
{
    for part in parts {
        if let Some(asked) = asked_marks(part) {
            return Some(asked);
        }
    }
    None
}
