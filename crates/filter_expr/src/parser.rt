//! Reads the tokens of a filter text: one function for each row of the grammar's table, from the
//! weakest binding to the strongest. Binding strengths are this farm's own.
ghost use Rattle.std.specs.Prelude.{◌≡◌, ◌≤◌, length, map};
ghost use Rattle.plain_filters.specs.Filters.{tree_of, trees_of};
ghost use Rattle.filter_expr.specs.Reading.{not_in, compare_in, sum_in, product_in, unary_in, atom_in, within_depth};
ghost use Rattle.filter_expr.specs.inner.Connectives.{connective_kind, connected, chain_in, part_in};
ghost use Rattle.filter_expr.specs.inner.Gives.{Gives};

use crate::faults::FilterFault;
use crate::tokens::{TokenKind, TokenStream};
use plain_filters::{Expr, ProductPart, SumPart};
use std::alloc::Global;

/// The words that join filters.
#[derive(Clone, Copy)]
pub enum Connective {
    Or,
    And,
}

impl Connective {
    fn token(self) -> TokenKind
        ensures { result ≡ connective_kind self }
    {
        match self {
            Connective::Or => TokenKind::Or,
            Connective::And => TokenKind::And,
        }
    }

    fn join(self, parts: Vec<Expr>) -> Expr
        ensures { tree_of result ≡ connected self (trees_of (map tree_of parts.items)) }
    {
        match self {
            Connective::Or => Expr::Or(parts),
            Connective::And => Expr::And(parts),
        }
    }
}

/// A part, then any number of the connective and a part. Or joins and-parts, and joins not-parts.
#[cycle(parser)]
pub fn chain(
    alloc: Global,
    stream: &mut TokenStream,
    depth_left: u32,
    connective: Connective,
) -> Result<Expr, FilterFault>
    ensures read { Gives tree_of result stream.new
        (chain_in connective (within_depth depth_left) stream.old) }
    ensures left { length stream.new ≤ length stream.old }
{
    let first = chain_part(alloc, stream, depth_left, connective)?;
    if !stream.next_is(connective.token()) {
        return Ok(first);
    }
    let mut parts = Vec::new(alloc);
    parts.push(first)?;
    'parts: while stream.next_is(connective.token()) {
        stream.skip();
        let part = chain_part(alloc, stream, depth_left, connective)?;
        parts.push(part)?;
    }
    Ok(connective.join(parts))
}

#[cycle(parser)]
fn chain_part(
    alloc: Global,
    stream: &mut TokenStream,
    depth_left: u32,
    connective: Connective,
) -> Result<Expr, FilterFault>
    ensures read { Gives tree_of result stream.new
        (part_in connective (within_depth depth_left) stream.old) }
    ensures left { length stream.new ≤ length stream.old }
{
    match connective {
        Connective::Or => chain(alloc, stream, depth_left, Connective::And),
        Connective::And => not_part(alloc, stream, depth_left),
    }
}

#[cycle(parser)]
#[tactic(auto, using(crate::proofs::Nodes::trees), unfolding(crate::specs::Reading::not_in, crate::specs::Reading::within_depth))]
fn not_part(alloc: Global, stream: &mut TokenStream, depth_left: u32) -> Result<Expr, FilterFault>
    ensures read { Gives tree_of result stream.new (not_in (within_depth depth_left) stream.old) }
    ensures left { length stream.new ≤ length stream.old }
{
    if !stream.next_is(TokenKind::Not) {
        return comparison(alloc, stream, depth_left);
    }
    if depth_left == 0 {
        return Err(FilterFault::TooDeep(stream.place()));
    }
    stream.skip();
    let part = not_part(alloc, stream, depth_left - 1)?;
    Ok(Expr::Not(Box::new(alloc, part)?))
}

// A sum, then at most one comparing sign and a sum.
#[cycle(parser)]
#[tactic(auto, using(crate::proofs::Nodes::trees), unfolding(crate::specs::Reading::compare_in))]
fn comparison(alloc: Global, stream: &mut TokenStream, depth_left: u32) -> Result<Expr, FilterFault>
    ensures read { Gives tree_of result stream.new
        (compare_in (within_depth depth_left) stream.old) }
    ensures left { length stream.new ≤ length stream.old }
{
    let a = sum(alloc, stream, depth_left)?;
    let Some(sign) = stream.compare_sign() else {
        return Ok(a);
    };
    let a = Box::new(alloc, a)?;
    stream.skip();
    let b = sum(alloc, stream, depth_left)?;
    Ok(Expr::Compare(a, sign, Box::new(alloc, b)?))
}

#[cycle(parser)]
#[tactic(auto, unfolding(crate::specs::Reading::sum_in))]
fn sum(alloc: Global, stream: &mut TokenStream, depth_left: u32) -> Result<Expr, FilterFault>
    ensures read { Gives tree_of result stream.new (sum_in (within_depth depth_left) stream.old) }
    ensures left { length stream.new ≤ length stream.old }
{
    let first = product(alloc, stream, depth_left)?;
    if stream.sum_sign().is_none() {
        return Ok(first);
    }
    let first = Box::new(alloc, first)?;
    let mut parts = Vec::new(alloc);
    'sums: while let Some(sign) = stream.sum_sign() {
        stream.skip();
        let part = product(alloc, stream, depth_left)?;
        parts.push(SumPart { sign, part })?;
    }
    Ok(Expr::Sum(first, parts))
}

#[cycle(parser)]
#[tactic(auto, unfolding(crate::specs::Reading::product_in))]
fn product(alloc: Global, stream: &mut TokenStream, depth_left: u32) -> Result<Expr, FilterFault>
    ensures read { Gives tree_of result stream.new
        (product_in (within_depth depth_left) stream.old) }
    ensures left { length stream.new ≤ length stream.old }
{
    let first = unary(alloc, stream, depth_left)?;
    if stream.product_sign().is_none() {
        return Ok(first);
    }
    let first = Box::new(alloc, first)?;
    let mut parts = Vec::new(alloc);
    'products: while let Some(sign) = stream.product_sign() {
        stream.skip();
        let part = unary(alloc, stream, depth_left)?;
        parts.push(ProductPart { sign, part })?;
    }
    Ok(Expr::Product(first, parts))
}

#[cycle(parser)]
#[tactic(auto, using(crate::proofs::Nodes::trees), unfolding(crate::specs::Reading::unary_in, crate::specs::Reading::within_depth))]
fn unary(alloc: Global, stream: &mut TokenStream, depth_left: u32) -> Result<Expr, FilterFault>
    ensures read { Gives tree_of result stream.new (unary_in (within_depth depth_left) stream.old) }
    ensures left { length stream.new ≤ length stream.old }
{
    if !stream.next_is(TokenKind::Minus) {
        return atom(alloc, stream, depth_left);
    }
    if depth_left == 0 {
        return Err(FilterFault::TooDeep(stream.place()));
    }
    stream.skip();
    let part = unary(alloc, stream, depth_left - 1)?;
    Ok(Expr::Negate(Box::new(alloc, part)?))
}

#[cycle(parser)]
#[tactic(auto, unfolding(crate::specs::Reading::atom_in, crate::specs::Reading::within_depth))]
fn atom(alloc: Global, stream: &mut TokenStream, depth_left: u32) -> Result<Expr, FilterFault>
    ensures read { Gives tree_of result stream.new (atom_in (within_depth depth_left) stream.old) }
    ensures left { length stream.new ≤ length stream.old }
{
    if stream.next_is(TokenKind::Leaf) {
        return Ok(stream.take_leaf());
    }
    if stream.next_is(TokenKind::OutOfRange) {
        return Err(FilterFault::NumberRange(stream.place()));
    }
    if !stream.next_is(TokenKind::Open) {
        return Err(FilterFault::Bad(stream.place()));
    }
    if depth_left == 0 {
        return Err(FilterFault::TooDeep(stream.place()));
    }
    stream.skip();
    let inner = chain(alloc, stream, depth_left - 1, Connective::Or)?;
    if !stream.next_is(TokenKind::Close) {
        drop(inner);
        return Err(FilterFault::Bad(stream.place()));
    }
    stream.skip();
    Ok(inner)
}
