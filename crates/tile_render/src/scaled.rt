//! A style at a scale.
ghost use Rattle.std.specs.Prelude.{◌≡◌, ℕ, ◌*◌, ◌^◌, ◌<◌, false, IfOk, IfSome, All, [], map, filter, option_map};
ghost use Rattle.std.specs.List.{list_all};
ghost use Rattle.plain_filters.specs.Filters.{tree_of};
ghost use Rattle.plain_drawing.specs.Rules.{at_scale, drawing_rules};
ghost use Rattle.plain_drawing.specs.Styles.{KeepsRanges};
ghost use Rattle.plain_world.specs.World.{IsWindow};
ghost use Rattle.plain_drawing.specs.Drawing.{feature};
ghost use Rattle.tile_render.specs.inner.Chosen.{filters_at, only_fills, RuleAsks, PassesOver, LeavesAll};

use crate::covers::is_fill;
use crate::regions::may_have_centre;
use data_versions::SharedFeature;
use farm_base::NoMemory;
use filter_expr::{FilterTable, asked_marks};
use plain_drawing::{FilterMode, Rule, Style};
use plain_filters::Expr;
use plain_world::Window;
use scale_rules::active;
use std::alloc::Global;
use std::marker::Model;

/// A style at a scale: those of its rules that are at scale, in order, chosen once for all items; marks of attributes of
/// which an item has one where a rule draws it, if it is known that it has; and whether all that these rules do is to fill.
#[derive(Drop)]
pub(crate) struct ScaledStyle<'a> {
    style: &'a Style,
    denominator: u64,
    rules: Vec<&'a Rule>,
    asked: Option<u64>,
    just_fills: bool,
}

impl<'a> Model for ScaledStyle<'a> {
    ghost use Rattle.std.specs.Prelude.{◌≡◌, map, filter, IfSome};
    ghost use Rattle.plain_drawing.specs.Rules.{at_scale};
    ghost use Rattle.plain_filters.specs.inner.FilterCodes.{filter_code};
    ghost use Rattle.std.specs.Coded.{codes};
    ghost use Rattle.std.specs.List.{list_all};
    ghost use Rattle.tile_render.specs.inner.Chosen.{Scaled, PassesOver, only_fills};

    ghost Value = { Scaled };

    ghost coded = { Prim.hlevel (codes, filter_code) };

    ghost view = { λ s. record { style = s.style.now; denominator = s.denominator } };

    ghost invariant = { λ s. (map (λ r. r.now) s.rules.items
        ≡ filter (at_scale s.denominator) s.style.now.rules)
        × IfSome s.asked (λ asked. PassesOver asked s.denominator s.style.now)
        × (s.just_fills ≡ list_all (λ r. only_fills r.now) s.rules.items) };
}

fn at_scale(rule: &Rule, denominator: u64) -> bool
    requires { 100 * denominator < 2 ^ 64 }
    ensures { result ≡ at_scale denominator rule.now }
{
    active(
        rule.min_scale_denominator,
        rule.max_scale_denominator,
        denominator,
    )
}

fn active_rules<'a>(
    alloc: Global,
    rules: &'a [Rule],
    denominator: u64,
) -> Result<Vec<&'a Rule>, NoMemory>
    requires { 100 * denominator < 2 ^ 64 }
    ensures { IfOk result
        (λ v. map (λ r. r.now) v.items ≡ filter (at_scale denominator) rules.entry.now) }
{
    let mut chosen = Vec::new(alloc);
    for rule in rules {
        if at_scale(rule, denominator) {
            chosen.push(rule)?;
        }
    }
    Ok(chosen)
}

// The marks that a rule's filter asks for; none for an ElseFilter rule, or for one without a filter.
fn marks_of_rule(rule: &Rule) -> Option<u64>
    ensures { IfSome result (λ asked. RuleAsks asked rule.now) }
{
    if rule.else_filter {
        return None;
    }
    match &rule.filter {
        Some(filter) => asked_marks(filter),
        None => None,
    }
}

// The marks of all rules together, if each asks for some.
fn marks_of_rules(rules: &[&Rule]) -> Option<u64>
    ensures { IfSome result (λ asked. All (λ r. RuleAsks asked r.now) rules.now) }
{
    let mut asked = 0u64;
    for rule in rules {
        asked |= marks_of_rule(rule)?;
    }
    Some(asked)
}

fn only_fills(rule: &Rule) -> bool
    ensures { result ≡ only_fills rule.now }
{
    rule.symbolizers
        .iter()
        .all(|symbolizer| is_fill(*symbolizer))
}

fn all_only_fill(rules: &[&Rule]) -> bool
    ensures { result ≡ list_all (λ r. only_fills r.now) rules.now }
{
    rules.iter().all(|rule| only_fills(rule))
}

fn filters_of<'a>(alloc: Global, rules: &[&'a Rule]) -> Result<Vec<&'a Option<Expr>>, NoMemory>
    ensures { IfOk result (λ v. map (λ f. option_map tree_of f.now) v.items
        ≡ map (λ r. r.now.filter) rules.now) }
{
    let mut filters = Vec::new(alloc);
    for rule in rules {
        let rule: &'a Rule = *rule;
        filters.push(&rule.filter)?;
    }
    Ok(filters)
}

impl<'a> ScaledStyle<'a> {
    /// The style at this denominator.
    pub(crate) fn of(
        alloc: Global,
        style: &'a Style,
        denominator: u64,
    ) -> Result<ScaledStyle<'a>, NoMemory>
        requires { 100 * denominator < 2 ^ 64 }
        ensures { IfOk result
            (λ s. s ≡ record { style = style.entry.now; denominator = denominator }) }
    {
        let rules = active_rules(alloc, style.rules.as_slice(), denominator)?;
        let asked = marks_of_rules(rules.as_slice());
        let just_fills = all_only_fill(rules.as_slice());
        Ok(ScaledStyle {
            style,
            denominator,
            rules,
            asked,
            just_fills,
        })
    }

    /// Its rules that are at scale, in order.
    pub(crate) fn rules(&self) -> &[&'a Rule]
        ensures { map (λ r. r.now) result.now
            ≡ filter (at_scale self.now.denominator) self.now.style.rules }
    {
        self.rules.as_slice()
    }

    /// The filters of its rules that are at scale, asked of no attributes.
    pub(crate) fn filters(&self, alloc: Global) -> Result<FilterTable<'a>, NoMemory>
        ensures { IfOk result (λ t. t ≡ record { filters = filters_at self.now; attrs = [] }) }
    {
        let filters = filters_of(alloc, self.rules.as_slice())?;
        FilterTable::of(alloc, filters.as_slice())
    }

    /// The marks of attributes of which an item has one where a rule draws it, if it is known that it has.
    pub(crate) fn asked(&self) -> Option<u64>
        ensures { IfSome result
            (λ asked. PassesOver asked self.now.denominator self.now.style) }
    {
        self.asked
    }

    /// Whether it is known of some features that it does not draw them.
    pub(crate) fn passes_over(&self) -> bool {
        self.just_fills || self.asked.is_some()
    }

    /// Whether the feature may be drawn in the window, by the marks of its attributes and by its box; if not, the picture
    /// stays as it is.
    pub(crate) fn may_draw(&self, w: Window, shared: &SharedFeature) -> bool
        requires { IsWindow w }
        ensures { result ≡ false → LeavesAll w self.now (feature shared.now) }
    {
        self.may_match(shared) && self.may_paint(w, shared)
    }

    // Whether a rule may match the feature, by the marks of its attributes.
    fn may_match(&self, shared: &SharedFeature) -> bool
        ensures { result ≡ false
            → drawing_rules shared.now.attrs self.now.denominator self.now.style ≡ [] }
    {
        match self.asked {
            Some(asked) => shared.may_have(asked),
            None => true,
        }
    }

    // Whether a rule that matches the feature may paint a pixel: what is filled has the centre of each that it paints.
    fn may_paint(&self, w: Window, shared: &SharedFeature) -> bool
        requires { IsWindow w }
        ensures { result ≡ false → LeavesAll w self.now (feature shared.now) }
    {
        !self.just_fills || may_have_centre(w, shared.bbox())
    }

    /// Whether one of its rules that are at scale has a filter. No proof rests on it.
    pub(crate) fn has_filter(&self) -> bool {
        self.rules.iter().any(|rule| rule.filter.is_some())
    }

    /// Which of the Filter rules that match are drawn.
    pub(crate) fn filter_mode(&self) -> FilterMode
        ensures { result ≡ self.now.style.filter_mode }
    {
        let style = self.style;
        style.filter_mode
    }

    /// Makes known to a proof that the symbolizers of every rule are within their ranges.
    pub(crate) fn know(&self)
        ensures { KeepsRanges self.now.style }
    {
        self.style.know();
    }
}
