//! The value of a filter expression for the attributes of a feature.
ghost use Rattle.std.specs.Prelude.{◌≡◌, map};
ghost use Rattle.std.specs.List.{list_any, list_all};
ghost use Rattle.plain_filters.specs.Values.{truth};
ghost use Rattle.plain_filters.specs.Filters.{tree_of, tree_value, tree_holds};
ghost use Rattle.filter_expr.specs.inner.Parts.{valued, sum_part, product_part, sum_value, product_value};
ghost use Rattle.filter_expr.specs.inner.Shown.{plain};

use crate::value::{ValueRef, attribute, compares, negated, product_of, sum_of, truth};
use farm_base::Attr;
use plain_filters::{Expr, ProductPart, SumPart};

/// The value of the filter for these attributes. Operators are those of Mapnik's
/// filter expressions, with values of this farm's own: null, truth values, whole numbers and texts.
#[cycle(eval)]
pub fn eval<'a>(e: &'a Expr, attrs: &'a [Attr]) -> ValueRef<'a>
    ensures { plain result ≡ tree_value attrs.now (tree_of e.now) }
{
    match e {
        Expr::Or(parts) => ValueRef::Truth(any_of(parts, attrs)),
        Expr::And(parts) => ValueRef::Truth(all_of(parts, attrs)),
        Expr::Not(part) => ValueRef::Truth(!truth(eval(part, attrs))),
        Expr::Compare(a, sign, b) => {
            ValueRef::Truth(compares(*sign, eval(a, attrs), eval(b, attrs)))
        }
        Expr::Sum(first, parts) => after_sums(eval(first, attrs), parts, attrs),
        Expr::Product(first, parts) => after_products(eval(first, attrs), parts, attrs),
        Expr::Negate(part) => negated(eval(part, attrs)),
        Expr::Name(name) => attribute(name.as_str(), attrs),
        Expr::Text(text) => ValueRef::Text(text.as_str()),
        Expr::Number(n) => ValueRef::Whole(*n),
        Expr::Truth(b) => ValueRef::Truth(*b),
        Expr::Null => ValueRef::Null,
    }
}

#[cycle(eval)]
#[tactic(auto, using(crate::proofs::Turns::any_yes, crate::proofs::Turns::any_no))]
fn any_of(parts: &[Expr], attrs: &[Attr]) -> bool
    ensures { result ≡ list_any truth (map (valued attrs.now) parts.now) }
{
    for part in parts {
        if truth(eval(part, attrs)) {
            return true;
        }
    }
    false
}

#[cycle(eval)]
#[tactic(auto, using(crate::proofs::Turns::all_yes, crate::proofs::Turns::all_no))]
fn all_of(parts: &[Expr], attrs: &[Attr]) -> bool
    ensures { result ≡ list_all truth (map (valued attrs.now) parts.now) }
{
    for part in parts {
        if !truth(eval(part, attrs)) {
            return false;
        }
    }
    true
}

#[cycle(eval)]
#[tactic(auto, using(crate::proofs::Turns::sum_here))]
fn after_sums<'a>(first: ValueRef<'a>, parts: &'a [SumPart], attrs: &'a [Attr]) -> ValueRef<'a>
    ensures { plain result ≡ sum_value (plain first.entry) (map (sum_part attrs.now) parts.now) }
{
    let mut v = first;
    for later in parts {
        v = sum_of(later.sign, v, eval(&later.part, attrs));
    }
    v
}

#[cycle(eval)]
#[tactic(auto, using(crate::proofs::Turns::product_here))]
fn after_products<'a>(
    first: ValueRef<'a>,
    parts: &'a [ProductPart],
    attrs: &'a [Attr],
) -> ValueRef<'a>
    ensures { plain result
        ≡ product_value (plain first.entry) (map (product_part attrs.now) parts.now) }
{
    let mut v = first;
    for later in parts {
        v = product_of(later.sign, v, eval(&later.part, attrs));
    }
    v
}

// The value of one side of a comparison. Most are names and constants, which need no walk.
#[tactic(auto, using(crate::proofs::Nodes::nodes))]
fn side<'a>(e: &'a Expr, attrs: &'a [Attr]) -> ValueRef<'a>
    ensures { plain result ≡ tree_value attrs.now (tree_of e.now) }
{
    match e {
        Expr::Name(name) => attribute(name.as_str(), attrs),
        Expr::Text(text) => ValueRef::Text(text.as_str()),
        Expr::Number(n) => ValueRef::Whole(*n),
        _ => eval(e, attrs),
    }
}

/// Whether the filter's value counts as true for these attributes.
#[tactic(auto, using(crate::proofs::Nodes::nodes))]
pub fn holds(e: &Expr, attrs: &[Attr]) -> bool
    ensures { result ≡ tree_holds attrs.now (tree_of e.now) }
{
    match e {
        Expr::Compare(a, sign, b) => compares(*sign, side(a, attrs), side(b, attrs)),
        _ => truth(eval(e, attrs)),
    }
}
