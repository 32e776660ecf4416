//! Reads a filter text.
ghost use Rattle.filter_expr.specs.Lexing.{tokens_from};
ghost use Rattle.filter_expr.specs.Reading.{whole_filter};
ghost use Rattle.filter_expr.specs.inner.Gives.{Answers};
ghost use Rattle.filter_expr.specs.Filters.{FilterOf, FaultOf, MayAnswer, AnswersTree, AnswersFault, OneTree, SomeAnswer, OneFilter, NotBoth, OneFault, SomeTokenList, OneTokenList};
ghost use Rattle.filter_expr.specs.FilterTexts.{filter_of, Says, SaysFilter, SaysFault, FilterSaid, FaultSaid};
ghost use Rattle.filter_expr.specs.declared.faults.FilterFault.{FilterFault};
ghost use Rattle.plain_filters.specs.Filters.{FilterTree, tree_of};

use crate::faults::FilterFault;
use crate::lexer::tokens;
use crate::parser::{Connective, chain};
use crate::tokens::TokenKind;
use plain_filters::Expr;
use std::alloc::Global;

/// How many `(`, `not`, `!` and unary `-` may be open at once.
const DEPTH: u32 = 64;

/// The filter that a text says. The form of filters is that of Mapnik's filter expressions, with
/// binding strengths of this farm's own; `docs/maps/filters.md` has the grammar. A text that is no filter
/// is answered by its first fault, whose place is a byte of the text or its length. Want of memory may
/// come instead of either. Linear in the text, and no deeper than the filter nests.
pub fn parse(alloc: Global, text: &str) -> Result<Expr, FilterFault>
    // The answer is the text's tree or its first fault,
    ensures answer { MayAnswer text.now result }

    // which is what the text says as a function,
    ensures value { Says (filter_of text.now) result }

    // and where the text has a tree, or a fault, it is that one and no other.
    ensures tree { (t : FilterTree) → FilterOf text.now t → AnswersTree t result }
    ensures fault { (f : FilterFault) → FaultOf text.now f → AnswersFault f result }
{
    read(alloc, text)
}

#[tactic(auto, unfolding(crate::specs::Reading::whole_filter))]
fn read(alloc: Global, text: &str) -> Result<Expr, FilterFault>
    ensures { Answers tree_of result (whole_filter (tokens_from 0 0 text.now)) }
{
    let mut stream = tokens(alloc, text)?;
    let filter = chain(alloc, &mut stream, DEPTH, Connective::Or)?;
    if !stream.next_is(TokenKind::End) {
        drop(filter);
        return Err(FilterFault::Bad(stream.place()));
    }
    Ok(filter)
}

/// Each text has one list of tokens, and no two. Tokens spell one filter at most, where no number is too
/// great.
pub fn law_one_tree()
    ensures some { SomeTokenList }
    ensures tokens { OneTokenList }
    ensures tree { OneTree }
{}

/// Each text is one filter, or has one first fault, and never both.
pub fn law_one_answer()
    ensures some { SomeAnswer }
    ensures filter { OneFilter }
    ensures apart { NotBoth }
    ensures fault { OneFault }
{}

/// The function that says what a text is as a filter says exactly what the grammar says: it gives the
/// text's filter, or the text's first fault, and nothing else.
pub fn law_says()
    ensures filter { SaysFilter }
    ensures fault { SaysFault }
    ensures said { FilterSaid }
    ensures refused { FaultSaid }
{}
