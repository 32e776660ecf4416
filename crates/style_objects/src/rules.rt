//! The rules of a style.
ghost use Rattle.std.specs.Prelude.{◌≡◌, ◌≤◌, ◌&&◌, length, true, not, option_map, is_some, IsTrue, IfOk, IfSome};
ghost use Rattle.std.specs.List.{list_all};
ghost use Rattle.serde_json.specs.View.{view, items_view};
ghost use Rattle.plain_filters.specs.Filters.{tree_of};
ghost use Rattle.reading.specs.Lists.{list_of};
ghost use Rattle.reading.specs.Steps.{Gives};
ghost use Rattle.style_objects.specs.TextReadings.{text_reading};
ghost use Rattle.style_objects.specs.Tables as spec;
ghost use Rattle.style_objects.specs.Places.{at_place};
ghost use Rattle.style_objects.specs.declared.fault.Part.TheVariants as part;
ghost use Rattle.style_objects.specs.declared.fault.StyleFault.TheVariants as fault;
ghost use Rattle.style_objects.specs.inner.Parts.{painting_of, rule_by_parts};
ghost use Rattle.plain_drawing.specs.Limits.{most_rules, most_symbolizers};
ghost use Rattle.plain_drawing.specs.Styles.{is_paint};

use crate::fault::{At, StyleFault};
use crate::keys::{Object, open};
use crate::kinds::{bound_or_none, else_or_false, filter_or_none, scale_or_zero};
use crate::symbolizers::symbolizers;
use filter_expr::Expr;
use plain_drawing::{MOST_SYMBOLIZERS, Rule, Symbolizer};
use reading::{ReadItem, read_list, within};
use serde_json::Value;
use std::alloc::Global;

#[tactic(auto, using(crate::proofs::Opening::some_tree), unfolding(crate::specs::Tables::filters_of))]
fn filters(alloc: Global, object: &Value, at: At) -> Result<(Option<Expr>, bool), StyleFault>
    ensures value { Gives fault.NoMemory (λ p. (option_map tree_of p.0, p.1))
        (spec.filters_of text_reading at (view object.now)) result }
    ensures one { IfOk result (λ p. IsTrue (not (p.1 && is_some (option_map tree_of p.0)))) }
{
    let filter = filter_or_none(alloc, object, "Filter", at)?;
    match else_or_false(object, "ElseFilter", filter.is_some(), at) {
        Ok(else_filter) => Ok((filter, else_filter)),
        Err(fault) => {
            drop(filter);
            Err(fault)
        }
    }
}

#[tactic(auto, unfolding(crate::specs::inner::Parts::painting_of))]
fn painting(
    alloc: Global,
    style: u32,
    place: u32,
    found: Option<&[Value]>,
    object: &Value,
) -> Result<(u64, Option<u64>, Vec<Symbolizer>), StyleFault>
    requires { IfSome found (λ vs. length vs.now ≤ most_symbolizers) }
    ensures value { Gives fault.NoMemory
        (λ p. (p.0, p.1, p.2.items)) (painting_of text_reading (at_place part.Rule style place 0)
        (option_map (λ vs. items_view vs.now) found.entry) (view object.now)) result }
    ensures fits { IfOk result (λ p. IsTrue (list_all is_paint p.2.items)) }
    ensures count { IfOk result (λ p. length p.2.items ≤ most_symbolizers) }
{
    let at = At::rule(style, place);
    let min_scale_denominator = scale_or_zero(object, "MinScaleDenominator", at)?;
    let max_scale_denominator = bound_or_none(object, "MaxScaleDenominator", at)?;
    let items = found.ok_or(StyleFault::Shape(at))?;
    let symbolizers = symbolizers(alloc, style, place, items)?;
    Ok((min_scale_denominator, max_scale_denominator, symbolizers))
}

#[tactic(auto, unfolding(crate::specs::inner::Parts::rule_by_parts))]
fn rule_by_parts(alloc: Global, style: u32, place: u32, object: &Value) -> Result<Rule, StyleFault>
    ensures { Gives fault.NoMemory (λ x. x)
        (rule_by_parts text_reading (at_place part.Rule style place 0) (view object.now)) result }
{
    let at = At::rule(style, place);
    open(object, Object::Rule, at)?;
    let found = within(
        object.get("symbolizers"),
        MOST_SYMBOLIZERS,
        StyleFault::Range(at),
    )?;
    let (filter, else_filter) = filters(alloc, object, at)?;
    // Dropped by a call: `?` would drop, and have proved, each form of the filter in this function.
    match painting(alloc, style, place, found, object) {
        Ok((min_scale_denominator, max_scale_denominator, symbolizers)) => Ok(Rule {
            filter,
            else_filter,
            min_scale_denominator,
            max_scale_denominator,
            symbolizers,
        }),
        Err(fault) => {
            drop(filter);
            Err(fault)
        }
    }
}

fn rule(alloc: Global, style: u32, place: u32, object: &Value) -> Result<Rule, StyleFault>
    ensures { Gives fault.NoMemory (λ x. x)
        (spec.rule_of text_reading (at_place part.Rule style place 0) (view object.now)) result }
{
    rule_by_parts(alloc, style, place, object)
}

// The rules of a style.
#[derive(Drop)]
struct RuleItems {
    style: u32,
}

impl ReadItem for RuleItems {
    type Item = Rule;

    type Fault = StyleFault;

    ghost limit = { λ r. most_rules };

    ghost reads = { λ r before d. spec.rule_of text_reading (at_place part.Rule r.style (length before) 0) d };

    ghost keeps = { λ r before x. true };

    fn read(&self, alloc: Global, before: &[Rule], value: &Value) -> Result<Rule, StyleFault> {
        rule(alloc, self.style, before.len() as u32, value)
    }
}

pub fn rules(alloc: Global, style: u32, items: &[Value]) -> Result<Vec<Rule>, StyleFault>
    requires { length items.now ≤ most_rules }
    ensures value { Gives fault.NoMemory (λ v. v.items) (list_of
        (λ before e. spec.rule_of text_reading (at_place part.Rule style (length before) 0) e)
        (items_view items.now)) result }
    ensures count { IfOk result (λ v. length v.items ≤ most_rules) }
{
    read_list(alloc, &RuleItems { style }, items)
}
