//! Tokens of filter texts, and the list of them that is still to be read.
ghost use Rattle.std.specs.Prelude.{◌≡◌, drop, option_map, IsTrue};
ghost use Rattle.plain_filters.specs.Filters.{tree_of};
ghost use Rattle.filter_expr.specs.declared.tokens.Token.TheVariants as token;
ghost use Rattle.filter_expr.specs.Spelled.{sum_token, product_token};
ghost use Rattle.filter_expr.specs.Signs.{sum_chain, product_chain, is_leaf};
ghost use Rattle.filter_expr.specs.inner.Kinds.{is_of, next_sign, next_compare};
ghost use Rattle.filter_expr.specs.Reading.{leaf_tree, starts, first_token, place};

use farm_base::Text;
use plain_filters::{CompareSign, Expr, ProductSign, SumSign};
use std::collections::VecDeque;
use std::marker::Model;

/// A token of a filter text. Both spellings of a word or sign, as `or` and two bars, are one token.
#[derive(Drop)]
pub enum Token {
    Name(Text),
    Quoted(Text),
    Number(i64),
    /// A number above the greatest one.
    OutOfRange,
    True,
    False,
    Null,
    And,
    Or,
    Not,
    Compare(CompareSign),
    Plus,
    Minus,
    Times,
    Divide,
    Rest,
    Open,
    Close,
    /// The end of the text.
    End,
    /// Bytes that begin no token.
    Unknown,
}

/// What is asked of the next token, where no value of it matters.
#[derive(Clone, Copy)]
pub enum TokenKind {
    /// A filter by itself: a name, a string, a number, `true`, `false` or `null`.
    Leaf,
    OutOfRange,
    And,
    Or,
    Not,
    Minus,
    Open,
    Close,
    End,
    Unknown,
}

/// A token and the place of its first byte in the text.
#[derive(Drop)]
pub struct PlacedToken {
    pub token: Token,
    pub offset: usize,
}

/// The tokens that are still to be read, the next one first.
#[derive(Drop)]
pub struct TokenStream {
    left: VecDeque<PlacedToken>,
}

impl Model for TokenStream {
    ghost use Rattle.std.specs.Prelude.{List};
    ghost use Rattle.filter_expr.specs.declared.tokens.PlacedToken.{PlacedToken};

    ghost Value = { List PlacedToken };

    ghost view = { λ s. s.left.items };
}

impl TokenStream {
    pub fn of(left: VecDeque<PlacedToken>) -> TokenStream
        ensures { result ≡ left.items }
    {
        TokenStream { left }
    }

    /// Whether a token of this kind stands next.
    pub fn next_is(&self, kind: TokenKind) -> bool
        ensures { result ≡ starts (is_of kind) self.now }
    {
        match self.left.front() {
            Some(placed) => placed.token.is(kind),
            None => false,
        }
    }

    /// The next token as a comparing sign, if it is one.
    pub fn compare_sign(&self) -> Option<CompareSign>
        ensures { option_map token.Compare result ≡ next_compare self.now }
    {
        match self.left.front() {
            Some(placed) => match placed.token {
                Token::Compare(sign) => Some(sign),
                _ => None,
            },
            None => None,
        }
    }

    /// The next token as the sign of a sum, if it is one.
    pub fn sum_sign(&self) -> Option<SumSign>
        ensures { option_map sum_token result ≡ next_sign sum_chain self.now }
    {
        match self.left.front() {
            Some(placed) => match placed.token {
                Token::Plus => Some(SumSign::Plus),
                Token::Minus => Some(SumSign::Minus),
                _ => None,
            },
            None => None,
        }
    }

    /// The next token as the sign of a product, if it is one.
    pub fn product_sign(&self) -> Option<ProductSign>
        ensures { option_map product_token result ≡ next_sign product_chain self.now }
    {
        match self.left.front() {
            Some(placed) => match placed.token {
                Token::Times => Some(ProductSign::Times),
                Token::Divide => Some(ProductSign::Divide),
                Token::Rest => Some(ProductSign::Rest),
                _ => None,
            },
            None => None,
        }
    }

    /// The place of the next token.
    pub fn place(&self) -> usize
        ensures { result ≡ place self.now }
    {
        match self.left.front() {
            Some(placed) => placed.offset,
            None => 0,
        }
    }

    /// Passes over the next token.
    pub fn skip(&mut self)
        ensures { self.new ≡ drop 1 self.old }
    {
        let _passed = self.left.pop_front();
    }

    /// Takes the next token, which is a filter by itself, as that filter.
    pub fn take_leaf(&mut self) -> Expr
        requires { IsTrue (starts is_leaf self.old) }
        ensures value { tree_of result ≡ leaf_tree (first_token self.old) }
        ensures rest { self.new ≡ drop 1 self.old }
    {
        match self.left.pop_front() {
            Some(placed) => leaf_of(placed.token),
            None => unreachable!(),
        }
    }
}

impl Token {
    pub fn is(&self, kind: TokenKind) -> bool
        ensures { result ≡ is_of kind self.now }
    {
        match kind {
            TokenKind::Leaf => self.is_leaf(),
            TokenKind::OutOfRange => matches!(self, Token::OutOfRange),
            TokenKind::And => matches!(self, Token::And),
            TokenKind::Or => matches!(self, Token::Or),
            TokenKind::Not => matches!(self, Token::Not),
            TokenKind::Minus => matches!(self, Token::Minus),
            TokenKind::Open => matches!(self, Token::Open),
            TokenKind::Close => matches!(self, Token::Close),
            TokenKind::End => matches!(self, Token::End),
            TokenKind::Unknown => matches!(self, Token::Unknown),
        }
    }

    fn is_leaf(&self) -> bool
        ensures { result ≡ is_leaf self.now }
    {
        matches!(
            self,
            Token::Name(_)
                | Token::Quoted(_)
                | Token::Number(_)
                | Token::True
                | Token::False
                | Token::Null
        )
    }
}

#[tactic(auto, using(crate::proofs::Nodes::trees))]
fn leaf_of(token: Token) -> Expr
    requires { IsTrue (is_leaf token) }
    ensures { tree_of result ≡ leaf_tree token }
{
    match token {
        Token::Name(name) => Expr::Name(name),
        Token::Quoted(text) => Expr::Text(text),
        Token::Number(n) => Expr::Number(n),
        Token::True => Expr::Truth(true),
        Token::False => Expr::Truth(false),
        Token::Null => Expr::Null,
        _ => unreachable!(),
    }
}
