//! Filter expressions: the tree that a filter text is read as.
use farm_base::Text;

/// A filter. A chain is one list of its parts, and parentheses leave no node of their own. What a
/// text is read as has chains of two parts or more only; other lists have a value too.
#[derive(Drop)]
#[cycle(expr)]
pub enum Expr {
    /// True where one of the parts is.
    Or(Vec<Expr>),
    /// True where all of the parts are.
    And(Vec<Expr>),
    /// The truth of the part, turned round.
    Not(Box<Expr>),
    /// Two values compared.
    Compare(Box<Expr>, CompareSign, Box<Expr>),
    /// A first value, and values added to it or taken from it, from the left.
    Sum(Box<Expr>, Vec<SumPart>),
    /// A first value, multiplied or divided by others, from the left.
    Product(Box<Expr>, Vec<ProductPart>),
    /// The value with its sign turned round.
    Negate(Box<Expr>),
    /// The attribute of this name.
    Name(Text),
    /// This text.
    Text(Text),
    /// This whole number.
    Number(i64),
    /// This truth value.
    Truth(bool),
    /// No value.
    Null,
}

/// How two values are compared.
#[derive(Clone, Copy)]
pub enum CompareSign {
    Equal,
    Unequal,
    Less,
    LessEqual,
    Greater,
    GreaterEqual,
}

/// A later part of a sum with the sign before it.
#[derive(Drop)]
#[cycle(expr)]
pub struct SumPart {
    pub sign: SumSign,
    pub part: Expr,
}

/// Added, or taken away.
#[derive(Clone, Copy)]
pub enum SumSign {
    Plus,
    Minus,
}

/// A later part of a product with the sign before it.
#[derive(Drop)]
#[cycle(expr)]
pub struct ProductPart {
    pub sign: ProductSign,
    pub part: Expr,
}

/// Multiplied, divided with the quotient rounded towards zero, or the rest of that division.
#[derive(Clone, Copy)]
pub enum ProductSign {
    Times,
    Divide,
    Rest,
}
