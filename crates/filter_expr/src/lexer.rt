//! Cuts a filter text into tokens.
ghost use Rattle.std.specs.Prelude.{◌≡◌, ◌<◌, ◌≤◌, ◌+◌, IfOk, IfSome, length, drop, slice_index, string_bytes, take, ◌++◌, true, false};
ghost use Rattle.std.specs.List.{prefix_len};
ghost use Rattle.std.specs.Str.{IsCharBoundary};
ghost use Rattle.farm_base.specs.Digits.{is_digit};
ghost use Rattle.filter_expr.specs.Spelling.{is_blank, is_letter, is_quote, is_escaped};
ghost use Rattle.filter_expr.specs.inner.Runs.{run_test};
ghost use Rattle.filter_expr.specs.Lexing.{number_token, number_token_at, word_token, word_at, name_token_at, quoting_len, quoted_text, quoted_at, sign_at, less_at, single, token_at, tokens_from};

use crate::tokens::{PlacedToken, Token, TokenKind, TokenStream};
use farm_base::{NoMemory, Text};
use plain_filters::CompareSign;
use std::alloc::Global;
use std::collections::VecDeque;

/// Bytes of one sort that stand together: digits, those of a word, those of a name, and those of a string
/// that are no backslash.
#[derive(Clone, Copy)]
pub enum Run {
    Digits,
    Word,
    Name,
    Plain,
}

/// The tokens of the text, up to its end or to the first byte at which no token stands.
#[tactic(auto)]
pub fn tokens(alloc: Global, text: &str) -> Result<TokenStream, NoMemory>
    ensures { IfOk result (λ s. s ≡ tokens_from 0 0 text.now) }
{
    let bytes = text.as_bytes();
    let mut stream = VecDeque::new(alloc);
    let mut at = 0;
    'tokens: while at < bytes.len() {
        if is_blank(bytes[at]) {
            at += 1;
            continue;
        }
        let (token, count) = token_at(alloc, text, at)?;
        let unknown = token.is(TokenKind::Unknown);
        stream.push_back(PlacedToken { token, offset: at })?;
        if unknown {
            return Ok(TokenStream::of(stream));
        }
        at += count;
    }
    stream.push_back(PlacedToken {
        token: Token::End,
        offset: at,
    })?;
    Ok(TokenStream::of(stream))
}

// The token that begins at this byte, which is no blank, and how many bytes it takes.
#[tactic(auto, using(crate::proofs::Lexes::cuts))]
fn token_at(alloc: Global, text: &str, at: usize) -> Result<(Token, usize), NoMemory>
    requires { at < length text.now }
    ensures { IfOk result (λ r. r ≡ token_at (drop at text.now)) }
{
    let bytes = text.as_bytes();
    let first = bytes[at];
    if is_digit(first) {
        return Ok(number_token_at(&bytes[at..]));
    }
    if is_letter(first) {
        return Ok(word_at(&bytes[at..]));
    }
    if first == b'[' {
        return name_token_at(alloc, &text[at + 1..]);
    }
    if is_quote(first) {
        return quoted_at(alloc, first, &text[at + 1..]);
    }
    Ok(sign_at(first, byte_at(bytes, at + 1)))
}

fn byte_at(bytes: &[u8], at: usize) -> u8
    ensures { result ≡ slice_index bytes.now at }
{
    match bytes.get(at) {
        Some(b) => *b,
        None => 0,
    }
}

fn is_blank(b: u8) -> bool
    ensures { result ≡ is_blank b }
{
    b == b' ' || b == b'\t' || b == b'\n' || b == b'\r'
}

fn is_digit(b: u8) -> bool
    ensures { result ≡ is_digit b }
{
    b'0' <= b && b <= b'9'
}

fn is_letter(b: u8) -> bool
    ensures { result ≡ is_letter b }
{
    (b'a' <= b && b <= b'z') || (b'A' <= b && b <= b'Z')
}

fn is_quote(b: u8) -> bool
    ensures { result ≡ is_quote b }
{
    b == b'\'' || b == b'"'
}

fn is_escaped(b: u8) -> bool
    ensures { result ≡ is_escaped b }
{
    b == b'\\' || is_quote(b)
}

impl Run {
    fn has(self, b: u8) -> bool
        ensures { result ≡ run_test self b }
    {
        match self {
            Run::Digits => is_digit(b),
            Run::Word => is_letter(b) || is_digit(b) || b == b'_',
            Run::Name => b != b']',
            Run::Plain => b != b'\\',
        }
    }
}

#[tactic(auto, using(crate::proofs::Lexes::run_goes, crate::proofs::Lexes::run_stops, crate::proofs::Lexes::run_all))]
fn run_len(run: Run, bytes: &[u8]) -> usize
    ensures { result ≡ prefix_len (run_test run) bytes.now }
{
    for (i, b) in bytes.iter().enumerate() {
        if !run.has(*b) {
            return i;
        }
    }
    bytes.len()
}

#[tactic(auto, unfolding(crate::specs::Lexing::number_token_at))]
fn number_token_at(bytes: &[u8]) -> (Token, usize)
    ensures { result ≡ number_token_at bytes.now }
{
    let count = run_len(Run::Digits, bytes);
    (number_token(&bytes[..count]), count)
}

#[tactic(auto, using(crate::proofs::Lexes::number_step, farm_base::proofs::NumberTexts::number_grows, crate::proofs::Lexes::number_some, crate::proofs::Lexes::number_none), unfolding(crate::specs::Lexing::number_token))]
fn number_token(digits: &[u8]) -> Token
    ensures { result ≡ number_token digits.now }
{
    let mut value: u128 = 0;
    for digit in digits {
        value = 10 * value + u128::from(digit.saturating_sub(b'0'));
        if value > 0x7fff_ffff_ffff_ffff {
            return Token::OutOfRange;
        }
    }
    Token::Number(value as i64)
}

#[tactic(auto, unfolding(crate::specs::Lexing::word_at))]
fn word_at(bytes: &[u8]) -> (Token, usize)
    ensures { result ≡ word_at bytes.now }
{
    let count = run_len(Run::Word, bytes);
    (word_token(&bytes[..count]), count)
}

#[tactic(auto, unfolding(crate::specs::Lexing::word_token))]
fn word_token(word: &[u8]) -> Token
    ensures { result ≡ word_token word.now }
{
    if word == b"true".as_slice() {
        Token::True
    } else if word == b"false".as_slice() {
        Token::False
    } else if word == b"null".as_slice() {
        Token::Null
    } else if word == b"and".as_slice() {
        Token::And
    } else if word == b"or".as_slice() {
        Token::Or
    } else if word == b"not".as_slice() {
        Token::Not
    } else {
        Token::Unknown
    }
}

#[tactic(auto, using(crate::proofs::Lexes::cuts), unfolding(crate::specs::Lexing::name_token_at))]
fn name_token_at(alloc: Global, rest: &str) -> Result<(Token, usize), NoMemory>
    ensures { IfOk result (λ r. r ≡ name_token_at rest.now) }
{
    let count = run_len(Run::Name, rest.as_bytes());
    if count == 0 || count == rest.len() {
        return Ok((Token::Unknown, 1));
    }
    let name = Text::of(alloc, &rest[..count])?;
    Ok((Token::Name(name), count + 2))
}

#[tactic(auto, using(crate::proofs::Lexes::cuts), unfolding(crate::specs::Lexing::quoted_at))]
fn quoted_at(alloc: Global, quote: u8, rest: &str) -> Result<(Token, usize), NoMemory>
    requires { quote < 128 }
    ensures { IfOk result (λ r. r ≡ quoted_at quote rest.now) }
{
    let Some(count) = quoting_len(quote, rest.as_bytes()) else {
        return Ok((Token::Unknown, 1));
    };
    let text = unescaped(alloc, &rest[..count])?;
    Ok((Token::Quoted(Text::from_string(text)), count + 2))
}

// How many bytes stand before the closing quote; none where it is missing or an escape is unknown.
#[tactic(auto, using(crate::proofs::Lexes::further_none, crate::proofs::Lexes::quoting_escaped, crate::proofs::Lexes::quoting_unknown, crate::proofs::Lexes::quoting_closed, crate::proofs::Lexes::quoting_next, crate::proofs::Lexes::quoting_end))]
fn quoting_len(quote: u8, bytes: &[u8]) -> Option<usize>
    ensures len { result ≡ quoting_len quote false bytes.now }
    ensures closed { IfSome result
        (λ n. (n < length bytes.now) × (slice_index bytes.now n ≡ quote)) }
{
    let mut escaped = false;
    for (i, b) in bytes.iter().enumerate() {
        if escaped {
            if !is_escaped(*b) {
                return None;
            }
            escaped = false;
            continue;
        }
        if *b == quote {
            return Some(i);
        }
        escaped = *b == b'\\';
    }
    None
}

// The text without the backslashes before escaped bytes.
#[tactic(auto, using(crate::proofs::Lexes::cuts, crate::proofs::Lexes::escape_here, crate::proofs::Lexes::escape_none))]
fn unescaped(alloc: Global, content: &str) -> Result<String, NoMemory>
    ensures { IfOk result (λ s. string_bytes s ≡ quoted_text false content.now) }
{
    let mut out = String::new(alloc);
    let mut rest = content;
    'escapes: loop {
        let count = run_len(Run::Plain, rest.as_bytes());
        out.push_str(&rest[..count])?;
        if count == rest.len() {
            return Ok(out);
        }
        let behind = &rest[count + 1..];
        let kept = escaped_len(behind);
        out.push_str(&behind[..kept])?;
        rest = &behind[kept..];
    }
}

#[tactic(auto, using(crate::proofs::Lexes::escape_next, crate::proofs::Lexes::escape_other, crate::proofs::Lexes::escape_cut, crate::proofs::Lexes::escape_no_cut))]
fn escaped_len(text: &str) -> usize
    ensures parts { take result text.now ++ quoted_text false (drop result text.now)
        ≡ quoted_text true text.now }
    ensures cut { IsCharBoundary text.now result }
{
    if byte_at(text.as_bytes(), 0) == b'\\' {
        1
    } else {
        0
    }
}

#[tactic(auto, unfolding(crate::specs::Lexing::sign_at, crate::specs::Lexing::single, crate::specs::Lexing::less_at))]
fn sign_at(b: u8, c: u8) -> (Token, usize)
    ensures sign { result ≡ sign_at b c }
    ensures second { c ≡ 0 → result.1 ≡ 1 }
{
    if b == b'=' {
        (Token::Compare(CompareSign::Equal), 1)
    } else if b == b'!' {
        if c == b'=' {
            (Token::Compare(CompareSign::Unequal), 2)
        } else {
            (Token::Not, 1)
        }
    } else if b == b'<' {
        less_at(c)
    } else if b == b'>' {
        if c == b'=' {
            (Token::Compare(CompareSign::GreaterEqual), 2)
        } else {
            (Token::Compare(CompareSign::Greater), 1)
        }
    } else if b == b'&' {
        if c == b'&' {
            (Token::And, 2)
        } else {
            (Token::Unknown, 1)
        }
    } else if b == b'|' {
        if c == b'|' {
            (Token::Or, 2)
        } else {
            (Token::Unknown, 1)
        }
    } else {
        (single(b), 1)
    }
}

#[tactic(auto, unfolding(crate::specs::Lexing::less_at))]
fn less_at(c: u8) -> (Token, usize)
    ensures sign { result ≡ less_at c }
    ensures second { c ≡ 0 → result.1 ≡ 1 }
{
    if c == b'=' {
        (Token::Compare(CompareSign::LessEqual), 2)
    } else if c == b'>' {
        (Token::Compare(CompareSign::Unequal), 2)
    } else {
        (Token::Compare(CompareSign::Less), 1)
    }
}

// The sign that is this byte, whatever follows.
#[tactic(auto, unfolding(crate::specs::Lexing::single))]
fn single(b: u8) -> Token
    ensures { result ≡ single b }
{
    match b {
        b'+' => Token::Plus,
        b'-' => Token::Minus,
        b'*' => Token::Times,
        b'/' => Token::Divide,
        b'%' => Token::Rest,
        b'(' => Token::Open,
        b')' => Token::Close,
        _ => Token::Unknown,
    }
}
