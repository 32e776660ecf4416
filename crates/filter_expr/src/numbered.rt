//! Filters whose names are numbers in a list of names.
ghost use Rattle.std.specs.Prelude.{◌≡◌, ℕ, List, IfOk, IfSome, map};
ghost use Rattle.std.specs.List.{list_any, list_all};
ghost use Rattle.plain_filters.specs.Values.{truth, compares};
ghost use Rattle.plain_filters.specs.Filters.{name_tree, not_tree, tree_of, tree_value};
ghost use Rattle.filter_expr.specs.Numbered.{name_at, side_tree, stands_for, numbered_value};
ghost use Rattle.filter_expr.specs.inner.Shown.{plain};

use crate::names::NamedValues;
use crate::value::{ValueRef, compares, truth};
use crate::walk::eval;
use farm_base::NoMemory;
use plain_filters::{CompareSign, Expr};
use std::alloc::Global;

/// One side of a comparison: the name of a number, a constant, or any other part of a filter.
#[derive(Clone, Copy)]
pub enum Side<'a> {
    Named(usize),
    Constant(ValueRef<'a>),
    Other(&'a Expr),
}

/// A filter in which most names are numbers.
#[derive(Drop)]
#[cycle(numbered)]
pub enum NumberedFilter<'a> {
    /// True where one of the parts is.
    Any(Vec<NumberedFilter<'a>>),
    /// True where all of the parts are.
    All(Vec<NumberedFilter<'a>>),
    /// The truth of the part, turned round.
    Not(Box<NumberedFilter<'a>>),
    /// Two values compared.
    Compare(Side<'a>, CompareSign, Side<'a>),
    /// The value.
    Truth(Side<'a>),
}

// The number of the name, if it is among them.
fn number_of(names: &[&str], name: &str) -> Option<usize>
    ensures { IfSome result (λ n. name_at (map (λ m. m.now) names.now) n ≡ name_tree name.now) }
{
    for number in 0..names.len() {
        if names[number] == name {
            return Some(number);
        }
    }
    None
}

#[tactic(auto, using(crate::proofs::Nodes::trees))]
fn side_of<'a>(e: &'a Expr, names: &[&str]) -> Side<'a>
    ensures { side_tree (map (λ m. m.now) names.now) result ≡ tree_of e.now }
{
    match e {
        Expr::Name(name) => match number_of(names, name.as_str()) {
            Some(number) => Side::Named(number),
            None => Side::Other(e),
        },
        Expr::Text(text) => Side::Constant(ValueRef::Text(text.as_str())),
        Expr::Number(n) => Side::Constant(ValueRef::Whole(*n)),
        Expr::Truth(b) => Side::Constant(ValueRef::Truth(*b)),
        Expr::Null => Side::Constant(ValueRef::Null),
        _ => Side::Other(e),
    }
}

// The filter whose truth is that of the part, turned round.
#[tactic(auto, using(crate::proofs::Numbers::nodes))]
fn negated<'a>(alloc: Global, part: NumberedFilter<'a>) -> Result<NumberedFilter<'a>, NoMemory>
    ensures { IfOk result (λ n. (names : List (List ℕ))
        → stands_for names n ≡ not_tree (stands_for names part.entry)) }
{
    Ok(NumberedFilter::Not(Box::new(alloc, part)?))
}

/// The filter with its names numbered by their places in the list. Names that are not in it, and those within sums
/// and products, stay as they are.
#[cycle(numbering)]
#[tactic(auto, using(crate::proofs::Numbers::nodes))]
pub fn numbered<'a>(
    alloc: Global,
    e: &'a Expr,
    names: &[&str],
) -> Result<NumberedFilter<'a>, NoMemory>
    ensures { IfOk result (λ n. stands_for (map (λ m. m.now) names.now) n ≡ tree_of e.now) }
{
    match e {
        Expr::Or(parts) => Ok(NumberedFilter::Any(numbered_parts(alloc, parts, names)?)),
        Expr::And(parts) => Ok(NumberedFilter::All(numbered_parts(alloc, parts, names)?)),
        Expr::Not(part) => negated(alloc, numbered(alloc, part, names)?),
        Expr::Compare(a, sign, b) => {
            Ok(NumberedFilter::Compare(side_of(a, names), *sign, side_of(b, names)))
        }
        _ => Ok(NumberedFilter::Truth(side_of(e, names))),
    }
}

#[cycle(numbering)]
fn numbered_parts<'a>(
    alloc: Global,
    parts: &'a [Expr],
    names: &[&str],
) -> Result<Vec<NumberedFilter<'a>>, NoMemory>
    ensures { IfOk result (λ v. map (stands_for (map (λ m. m.now) names.now)) v.items
        ≡ map tree_of parts.now) }
{
    let mut made = Vec::new(alloc);
    for part in parts {
        made.push(numbered(alloc, part, names)?)?;
    }
    Ok(made)
}

// The value of one side of a comparison.
#[inline]
fn value_of<'a>(side: Side<'a>, named: &NamedValues<'a>) -> ValueRef<'a>
    ensures { plain result ≡ tree_value named.now.attrs (side_tree named.now.names side.entry) }
{
    match side {
        Side::Named(number) => named.value(number),
        Side::Constant(value) => value,
        Side::Other(e) => eval(e, named.attrs()),
    }
}

// What the sign tests of two sides. Most often a name is compared with a constant: neither value is copied then.
#[inline]
#[tactic(auto, using(crate::proofs::Numbers::constant_value))]
fn side_compares<'a>(a: &Side<'a>, sign: CompareSign, b: &Side<'a>, named: &NamedValues<'a>) -> bool
    ensures { result ≡ compares sign
        (tree_value named.now.attrs (side_tree named.now.names a.now))
        (tree_value named.now.attrs (side_tree named.now.names b.now)) }
{
    match (a, b) {
        (Side::Named(number), Side::Constant(value)) => named.compares(*number, sign, value),
        _ => compares(sign, value_of(*a, named), value_of(*b, named)),
    }
}

/// Whether a comparison holds, where names have these values; none for another filter.
#[inline]
#[tactic(auto, using(crate::proofs::Numbers::values))]
pub fn compared<'a>(filter: &NumberedFilter<'a>, named: &NamedValues<'a>) -> Option<bool>
    ensures { IfSome result (λ b. b ≡ truth (numbered_value named.now filter.now)) }
{
    match filter {
        NumberedFilter::Compare(a, sign, b) => Some(side_compares(a, *sign, b, named)),
        _ => None,
    }
}

/// Whether the filter's value counts as true, where names have these values.
#[cycle(holding)]
#[tactic(auto, using(crate::proofs::Numbers::values))]
pub fn numbered_holds<'a>(filter: &NumberedFilter<'a>, named: &NamedValues<'a>) -> bool
    ensures { result ≡ truth (numbered_value named.now filter.now) }
{
    match filter {
        NumberedFilter::Any(parts) => any_holds(parts, named),
        NumberedFilter::All(parts) => all_hold(parts, named),
        NumberedFilter::Not(part) => !numbered_holds(part, named),
        NumberedFilter::Compare(a, sign, b) => side_compares(a, *sign, b, named),
        NumberedFilter::Truth(a) => truth(value_of(*a, named)),
    }
}

#[cycle(holding)]
#[tactic(auto, using(crate::proofs::Turns::any_yes, crate::proofs::Turns::any_no))]
fn any_holds<'a>(parts: &[NumberedFilter<'a>], named: &NamedValues<'a>) -> bool
    ensures { result ≡ list_any truth (map (numbered_value named.now) parts.now) }
{
    for part in parts {
        match compared(part, named) {
            Some(true) => return true,
            Some(false) => {}
            None => {
                if numbered_holds(part, named) {
                    return true;
                }
            }
        }
    }
    false
}

#[cycle(holding)]
#[tactic(auto, using(crate::proofs::Turns::all_yes, crate::proofs::Turns::all_no))]
fn all_hold<'a>(parts: &[NumberedFilter<'a>], named: &NamedValues<'a>) -> bool
    ensures { result ≡ list_all truth (map (numbered_value named.now) parts.now) }
{
    for part in parts {
        match compared(part, named) {
            Some(true) => {}
            Some(false) => return false,
            None => {
                if !numbered_holds(part, named) {
                    return false;
                }
            }
        }
    }
    true
}
