//! The words of a written filter, with a space before each but the first.
ghost use Rattle.std.specs.Prelude.{◌≡◌, OnOk, string_bytes, ◌++◌};
ghost use Rattle.filter_expr.specs.declared.tokens.Token.TheVariants as token;
ghost use Rattle.filter_expr.specs.Spelled.{sum_token, product_token};
ghost use Rattle.plain_filters.specs.Filters.{tree_of};
ghost use Rattle.filter_texts.specs.Written.{escaped_text, spelling, strength, truth_token, put_behind};
ghost use Rattle.filter_texts.specs.inner.Pieces.{with_space, escaped_char};

use farm_base::NoMemory;
use plain_filters::{CompareSign, Expr, ProductSign, SumSign};

fn put_space(out: &mut String) -> Result<(), NoMemory>
    ensures { OnOk result (string_bytes out.new ≡ with_space (string_bytes out.old)) }
{
    if out.is_empty() {
        return Ok(());
    }
    out.push_str(" ")?;
    Ok(())
}

/// A word behind what was written.
pub fn put_word(out: &mut String, word: &str) -> Result<(), NoMemory>
    ensures { OnOk result (string_bytes out.new ≡ put_behind (string_bytes out.old) word.now) }
{
    put_space(out)?;
    out.push_str(word)?;
    Ok(())
}

/// An attribute's name in brackets.
#[tactic(auto, using(crate::proofs::Pieces::behind_more))]
pub fn put_name(out: &mut String, name: &str) -> Result<(), NoMemory>
    ensures { OnOk result (string_bytes out.new
        ≡ put_behind (string_bytes out.old) (spelling (token.Name name.now))) }
{
    put_word(out, "[")?;
    out.push_str(name)?;
    out.push_str("]")?;
    Ok(())
}

/// A text between single quotes.
#[tactic(auto, using(crate::proofs::Pieces::behind_more))]
pub fn put_quoted(out: &mut String, text: &str) -> Result<(), NoMemory>
    ensures { OnOk result (string_bytes out.new
        ≡ put_behind (string_bytes out.old) (spelling (token.Quoted text.now))) }
{
    put_word(out, "'")?;
    put_escaped(out, text)?;
    out.push_str("'")?;
    Ok(())
}

fn put_escaped(out: &mut String, text: &str) -> Result<(), NoMemory>
    ensures { OnOk result (string_bytes out.new ≡ string_bytes out.old ++ escaped_text text.now) }
{
    for c in text.chars() {
        put_char(out, c)?;
    }
    Ok(())
}

fn put_char(out: &mut String, c: char) -> Result<(), NoMemory>
    ensures { OnOk result (string_bytes out.new ≡ string_bytes out.old ++ escaped_char c) }
{
    match c {
        '\'' => out.push_str("\\'")?,
        '\\' => out.push_str("\\\\")?,
        _ => out.push(c)?,
    }
    Ok(())
}

/// A number in decimal digits.
pub fn put_number(out: &mut String, n: i64) -> Result<(), NoMemory>
    ensures { OnOk result (string_bytes out.new
        ≡ put_behind (string_bytes out.old) (spelling (token.Number n))) }
{
    put_space(out)?;
    write!(out, "{n}")?;
    Ok(())
}

pub fn truth_word(b: bool) -> &'static str
    ensures { result.now ≡ spelling (truth_token b) }
{
    if b { "true" } else { "false" }
}

pub fn compare_word(sign: CompareSign) -> &'static str
    ensures { result.now ≡ spelling (token.Compare sign) }
{
    match sign {
        CompareSign::Equal => "=",
        CompareSign::Unequal => "!=",
        CompareSign::Less => "<",
        CompareSign::LessEqual => "<=",
        CompareSign::Greater => ">",
        CompareSign::GreaterEqual => ">=",
    }
}

pub fn sum_word(sign: SumSign) -> &'static str
    ensures { result.now ≡ spelling (sum_token sign) }
{
    match sign {
        SumSign::Plus => "+",
        SumSign::Minus => "-",
    }
}

pub fn product_word(sign: ProductSign) -> &'static str
    ensures { result.now ≡ spelling (product_token sign) }
{
    match sign {
        ProductSign::Times => "*",
        ProductSign::Divide => "/",
        ProductSign::Rest => "%",
    }
}

/// How strongly the filter's outermost form binds: 0 for `or`, 1 `and`, 2 `not`, 3 a comparison, 4 a sum,
/// 5 a product, 6 a negative, 7 what stands by itself.
#[tactic(auto, using(crate::proofs::Pieces::strengths))]
pub fn strength(e: &Expr) -> u32
    ensures { result ≡ strength (tree_of e.now) }
{
    match e {
        Expr::Or(_) => 0,
        Expr::And(_) => 1,
        Expr::Not(_) => 2,
        Expr::Compare(..) => 3,
        Expr::Sum(..) => 4,
        Expr::Product(..) => 5,
        Expr::Negate(_) => 6,
        Expr::Name(_) | Expr::Text(_) | Expr::Number(_) | Expr::Truth(_) | Expr::Null => 7,
    }
}
