//! Values of filters, and what the operators make of them.
ghost use Rattle.std.specs.Prelude.{◌≡◌, int_rem};
ghost use Rattle.plain_filters.specs.Values.{truth, same, below, have_order, compares, sum_of, product_of, negative_of, attribute, divided_by, whole_or_null};
ghost use Rattle.filter_expr.specs.inner.Shown.{plain, plain_number};

use farm_base::{Attr, Value};
use plain_filters::{CompareSign, ProductSign, SumSign};

/// A value that borrows its text: from the filter or from an attribute.
#[derive(Clone, Copy)]
pub enum ValueRef<'a> {
    Null,
    Truth(bool),
    Whole(i64),
    Text(&'a str),
}

/// Whether the value counts as true: null, false, 0 and the empty text do not.
pub fn truth(v: ValueRef<'_>) -> bool
    ensures { result ≡ truth (plain v.entry) }
{
    match v {
        ValueRef::Null => false,
        ValueRef::Truth(b) => b,
        ValueRef::Whole(n) => n != 0,
        ValueRef::Text(t) => t != "",
    }
}

/// The value of the first attribute of this name, or null.
#[tactic(auto, using(crate::proofs::Turns::attribute_found, crate::proofs::Turns::attribute_next))]
pub fn attribute<'a>(name: &str, attrs: &'a [Attr]) -> ValueRef<'a>
    ensures { plain result ≡ attribute name.now attrs.now }
{
    for attr in attrs {
        if attr.name.as_str() == name {
            return borrowed(&attr.value);
        }
    }
    ValueRef::Null
}

fn borrowed(v: &Value) -> ValueRef<'_>
    ensures { plain result ≡ v.now }
{
    match v {
        Value::Null => ValueRef::Null,
        Value::Truth(b) => ValueRef::Truth(*b),
        Value::Whole(n) => ValueRef::Whole(*n),
        Value::Text(t) => ValueRef::Text(t.as_str()),
    }
}

#[inline]
fn same(v: &ValueRef<'_>, w: &ValueRef<'_>) -> bool
    ensures { result ≡ same (plain v.now) (plain w.now) }
{
    match (v, w) {
        (ValueRef::Null, ValueRef::Null) => true,
        (ValueRef::Truth(a), ValueRef::Truth(b)) => *a == *b,
        (ValueRef::Whole(x), ValueRef::Whole(y)) => *x == *y,
        (ValueRef::Text(s), ValueRef::Text(t)) => *s == *t,
        _ => false,
    }
}

fn ordered(v: ValueRef<'_>, w: ValueRef<'_>) -> bool
    ensures { result ≡ have_order (plain v.entry) (plain w.entry) }
{
    match (v, w) {
        (ValueRef::Truth(_), ValueRef::Truth(_)) => true,
        (ValueRef::Whole(_), ValueRef::Whole(_)) => true,
        (ValueRef::Text(_), ValueRef::Text(_)) => true,
        _ => false,
    }
}

fn below(v: ValueRef<'_>, w: ValueRef<'_>) -> bool
    ensures { result ≡ below (plain v.entry) (plain w.entry) }
{
    match (v, w) {
        (ValueRef::Truth(a), ValueRef::Truth(b)) => !a && b,
        (ValueRef::Whole(x), ValueRef::Whole(y)) => x < y,
        (ValueRef::Text(s), ValueRef::Text(t)) => s < t,
        _ => false,
    }
}

/// What the sign tests of the two values.
#[inline]
pub fn compares(sign: CompareSign, v: ValueRef<'_>, w: ValueRef<'_>) -> bool
    ensures { result ≡ compares sign (plain v.entry) (plain w.entry) }
{
    match sign {
        CompareSign::Equal => same(&v, &w),
        CompareSign::Unequal => !same(&v, &w),
        CompareSign::Less => below(v, w),
        CompareSign::LessEqual => ordered(v, w) && !below(w, v),
        CompareSign::Greater => below(w, v),
        CompareSign::GreaterEqual => ordered(v, w) && !below(v, w),
    }
}

/// The same of values that stay where they are: most are asked whether they are equal, and none is copied for that.
#[inline]
pub fn compares_there(sign: CompareSign, v: &ValueRef<'_>, w: &ValueRef<'_>) -> bool
    ensures { result ≡ compares sign (plain v.now) (plain w.now) }
{
    match sign {
        CompareSign::Equal => same(v, w),
        CompareSign::Unequal => !same(v, w),
        _ => compares(sign, *v, *w),
    }
}

fn number<'a>(n: Option<i64>) -> ValueRef<'a>
    ensures { plain result ≡ plain_number n }
{
    match n {
        Some(n) => ValueRef::Whole(n),
        None => ValueRef::Null,
    }
}

/// A later part of a sum taken in: the exact result, or null.
pub fn sum_of<'a>(sign: SumSign, v: ValueRef<'a>, w: ValueRef<'a>) -> ValueRef<'a>
    ensures { plain result ≡ sum_of sign (plain v.entry) (plain w.entry) }
{
    match (v, w) {
        (ValueRef::Whole(x), ValueRef::Whole(y)) => number(match sign {
            SumSign::Plus => x.checked_add(y),
            SumSign::Minus => x.checked_sub(y),
        }),
        _ => ValueRef::Null,
    }
}

/// A later part of a product taken in: the exact result, or null.
pub fn product_of<'a>(sign: ProductSign, v: ValueRef<'a>, w: ValueRef<'a>) -> ValueRef<'a>
    ensures { plain result ≡ product_of sign (plain v.entry) (plain w.entry) }
{
    match (v, w) {
        (ValueRef::Whole(x), ValueRef::Whole(y)) => number(match sign {
            ProductSign::Times => x.checked_mul(y),
            ProductSign::Divide => x.checked_div(y),
            ProductSign::Rest => rest(x, y),
        }),
        _ => ValueRef::Null,
    }
}

// The rest of the division with the dividend's sign; none for the divisor 0. The rest by -1 is 0 also
// where the quotient has no room.
fn rest(x: i64, y: i64) -> Option<i64>
    ensures { plain_number result ≡ divided_by y (whole_or_null (int_rem x y)) }
{
    if y == -1 { Some(0) } else { x.checked_rem(y) }
}

/// The value with its sign turned round: the exact result, or null.
pub fn negated<'a>(v: ValueRef<'a>) -> ValueRef<'a>
    ensures { plain result ≡ negative_of (plain v.entry) }
{
    sum_of(SumSign::Minus, ValueRef::Whole(0), v)
}
