//! The pass of a style over items, and the rules that each item meets.
ghost use Rattle.std.specs.Prelude.{◌≡◌, ◌+◌, ◌*◌, ◌^◌, ◌<◌, IfOk, OnOk, fold, map, drop, length};
ghost use Rattle.plain_world.specs.World.{IsWindow};
ghost use Rattle.plain_drawing.specs.Drawing.{feature, item_attrs};
ghost use Rattle.plain_drawing.specs.inner.Pictures.{with_item, with_style};
ghost use Rattle.tile_render.specs.inner.Chosen.{filters_at, is_chosen, with_rule, with_chosen, DrawsAs};
ghost use Rattle.tile_render.specs.inner.Items.{item_of, items_in};
ghost use Rattle.tile_render.specs.inner.Nearby.{IsSource, FromData};
ghost use Rattle.tile_render.specs.inner.Regions.{around};

use crate::ahead::from_the_first;
use crate::canvas::Canvas;
use crate::items::{Item, Items, Source};
use crate::nearby::NearData;
use crate::regions::around;
use crate::rules::{Choice, first_match, is_chosen};
use crate::scaled::ScaledStyle;
use crate::symbolizers::draw_symbolizer;
use data_versions::{LayerView, SharedFeature};
use farm_base::NoMemory;
use filter_expr::FilterTable;
use plain_drawing::{FilterMode, Rule, Style};
use plain_world::Window;
use std::alloc::Global;

// Draws an item by a rule, whatever its filter and scales: each symbolizer in order.
#[tactic(auto, unfolding(crate::specs::inner::Chosen::with_rule))]
fn draw_rule(
    alloc: Global,
    item: Item<'_>,
    rule: &Rule,
    canvas: &mut Canvas,
) -> Result<(), NoMemory>
    ensures drawn { OnOk result (canvas.new.image
        ≡ with_rule canvas.old.window (item_of item.entry) canvas.old.image rule.now) }
    ensures window { canvas.new.window ≡ canvas.old.window }
{
    for symbolizer in &rule.symbolizers {
        draw_symbolizer(alloc, item, *symbolizer, canvas)?;
    }
    Ok(())
}

// Draws an item by those of the rules that are chosen. Their filters begin at this place of the table.
#[tactic(auto, using(crate::proofs::Tables::place_there, crate::proofs::Tables::filter_there))]
fn draw_rules(
    alloc: Global,
    item: Item<'_>,
    choice: Choice,
    table: &FilterTable<'_>,
    begin: usize,
    rules: &[&Rule],
    canvas: &mut Canvas,
) -> Result<(), NoMemory>
    requires room { begin + length rules.now < 2 ^ 64 }
    requires filters { map (λ r. r.now.filter) rules.now ≡ drop begin table.now.filters }
    requires attrs { table.now.attrs ≡ item_attrs (item_of item) }
    ensures drawn { OnOk result (canvas.new.image
        ≡ fold (with_chosen canvas.old.window (item_of item.entry) (is_chosen choice
        (item_attrs (item_of item.entry)))) canvas.old.image (map (λ r. r.now) rules.now)) }
    ensures window { canvas.new.window ≡ canvas.old.window }
{
    for number in 0..rules.len() {
        let rule = rules[number];
        if !is_chosen(choice, table, begin + number, rule) {
            continue;
        }
        draw_rule(alloc, item, rule, canvas)?;
    }
    Ok(())
}

// Draws an item by a style: by the Filter rules that are taken, or where none matches by every ElseFilter
// rule.
fn draw_item<'a>(
    alloc: Global,
    scaled: &ScaledStyle<'a>,
    table: &mut FilterTable<'a>,
    item: Item<'a>,
    canvas: &mut Canvas,
) -> Result<(), NoMemory>
    requires { table.old.filters ≡ filters_at scaled.now }
    ensures drawn { OnOk result (canvas.new.image
        ≡ with_item canvas.old.window scaled.now.denominator scaled.now.style canvas.old.image
        (item_of item.entry)) }
    ensures window { canvas.new.window ≡ canvas.old.window }
    ensures table { table.new.filters ≡ table.old.filters }
{
    table.look(item.attrs());
    let rules = scaled.rules();
    match first_match(rules, table) {
        Some(place) => {
            draw_rule(alloc, item, rules[place], canvas)?;
            match scaled.filter_mode() {
                FilterMode::All => {
                    let rest = &rules[place + 1..];
                    draw_rules(
                        alloc,
                        item,
                        Choice::Matching,
                        table,
                        place + 1,
                        rest,
                        canvas,
                    )
                }
                FilterMode::First => Ok(()),
            }
        }
        None => draw_rules(alloc, item, Choice::Fallback, table, 0, rules, canvas),
    }
}

// Draws a feature by a style. It is not looked at where it is known that it is not drawn.
fn draw_shared<'a>(
    alloc: Global,
    scaled: &ScaledStyle<'a>,
    table: &mut FilterTable<'a>,
    shared: &'a SharedFeature,
    canvas: &mut Canvas,
) -> Result<(), NoMemory>
    requires { table.old.filters ≡ filters_at scaled.now }
    ensures drawn { OnOk result (canvas.new.image
        ≡ with_item canvas.old.window scaled.now.denominator scaled.now.style canvas.old.image
        (feature shared.now)) }
    ensures window { canvas.new.window ≡ canvas.old.window }
    ensures table { table.new.filters ≡ table.old.filters }
{
    if !scaled.may_draw(canvas.window(), shared) {
        return Ok(());
    }
    draw_item(
        alloc,
        scaled,
        table,
        Item::Feature(shared.feature()),
        canvas,
    )
}

// Draws the features of a layer of data by a style, in order. Those that are too far from the window to
// paint any of its pixels are passed over.
fn draw_features<'a>(
    alloc: Global,
    scaled: &ScaledStyle<'a>,
    features: &LayerView<'a>,
    canvas: &mut Canvas,
) -> Result<(), NoMemory>
    ensures drawn { OnOk result (canvas.new.image
        ≡ fold (with_item canvas.old.window scaled.now.denominator scaled.now.style)
        canvas.old.image (map feature features.now)) }
    ensures window { canvas.new.window ≡ canvas.old.window }
{
    scaled.know();
    let mut table = scaled.filters(alloc)?;
    let near = around(canvas.window());
    let mut walk = features.near(near, scaled.asked());
    while let Some(feature) = walk.next() {
        draw_shared(alloc, scaled, &mut table, feature, canvas)?;
    }
    Ok(())
}

// Those of the features of which it is not known that the style does not draw them in the window, in order.
fn that_may_be_drawn<'a>(
    alloc: Global,
    scaled: &ScaledStyle<'_>,
    w: Window,
    features: &[&'a SharedFeature],
) -> Result<Vec<&'a SharedFeature>, NoMemory>
    requires { IsWindow w }
    ensures { IfOk result (λ chosen. DrawsAs w scaled.now (map (λ f. f.now) chosen.items)
        (map (λ f. f.now) features.now)) }
{
    let mut chosen = Vec::new(alloc);
    for feature in features {
        let feature: &'a SharedFeature = *feature;
        if scaled.may_draw(w, feature) {
            chosen.push(feature)?;
        }
    }
    Ok(chosen)
}

fn draw_each<'a>(
    alloc: Global,
    scaled: &ScaledStyle<'a>,
    table: &mut FilterTable<'a>,
    features: &[&'a SharedFeature],
    canvas: &mut Canvas,
) -> Result<(), NoMemory>
    requires { table.old.filters ≡ filters_at scaled.now }
    ensures drawn { OnOk result (canvas.new.image
        ≡ fold (with_item canvas.old.window scaled.now.denominator scaled.now.style)
        canvas.old.image (map feature (map (λ f. f.now) features.now))) }
    ensures window { canvas.new.window ≡ canvas.old.window }
{
    let mut ahead = from_the_first(canvas.painted());
    for k in 0..features.len() {
        ahead.read(scaled, features, k, canvas.painted())?;
        let feature = features[k].feature();
        draw_item(alloc, scaled, table, Item::Feature(feature), canvas)?;
    }
    Ok(())
}

fn draw_listed<'a>(
    alloc: Global,
    scaled: &ScaledStyle<'a>,
    features: &[&'a SharedFeature],
    canvas: &mut Canvas,
) -> Result<(), NoMemory>
    ensures drawn { OnOk result (canvas.new.image
        ≡ fold (with_item canvas.old.window scaled.now.denominator scaled.now.style)
        canvas.old.image (map feature (map (λ f. f.now) features.now))) }
    ensures window { canvas.new.window ≡ canvas.old.window }
{
    if features.is_empty() {
        return Ok(());
    }
    let mut table = scaled.filters(alloc)?;
    if !scaled.passes_over() {
        return draw_each(alloc, scaled, &mut table, features, canvas);
    }
    let chosen = that_may_be_drawn(alloc, scaled, canvas.window(), features)?;
    draw_each(alloc, scaled, &mut table, chosen.as_slice(), canvas)
}

// Draws the features of a layer of data by a style, in order: those that are kept of it, where they are kept.
fn draw_source<'a>(
    alloc: Global,
    scaled: &ScaledStyle<'a>,
    source: &Source<'a>,
    nearby: &mut NearData<'a>,
    canvas: &mut Canvas,
) -> Result<(), NoMemory>
    requires source { IsSource nearby.old.layers source.now }
    requires near { nearby.old.around ≡ around canvas.old.window }
    ensures drawn { OnOk result (canvas.new.image
        ≡ fold (with_item canvas.old.window scaled.now.denominator scaled.now.style)
        canvas.old.image (map feature source.now.features)) }
    ensures window { canvas.new.window ≡ canvas.old.window }
    ensures nearby { nearby.new ≡ nearby.old }
{
    scaled.know();
    // Read for what it says of the window: it is one.
    let _window = canvas.window();
    let asked = scaled.asked();
    nearby.keep(alloc, source, asked)?;
    match nearby.kept(source.name, asked) {
        Some(layer) if layer.has_all => {
            draw_listed(alloc, scaled, layer.features.as_slice(), canvas)
        }
        _ => draw_features(alloc, scaled, &source.features, canvas),
    }
}

/// Draws all items of a layer by a style: one pass. Where no rule of the style is at scale, none is looked at.
#[tactic(auto, unfolding(plain_drawing::specs::inner::Pictures::with_style))]
pub(crate) fn draw_style<'a>(
    alloc: Global,
    denominator: u64,
    style: &'a Style,
    items: &Items<'a>,
    nearby: &mut NearData<'a>,
    canvas: &mut Canvas,
) -> Result<(), NoMemory>
    requires denominator { 100 * denominator < 2 ^ 64 }
    requires source { FromData nearby.old.layers items.now }
    requires near { nearby.old.around ≡ around canvas.old.window }
    ensures drawn { OnOk result (canvas.new.image ≡ with_style canvas.old.window denominator
        (items_in items.now) canvas.old.image style.entry.now) }
    ensures window { canvas.new.window ≡ canvas.old.window }
    ensures nearby { nearby.new ≡ nearby.old }
{
    let scaled = ScaledStyle::of(alloc, style, denominator)?;
    if scaled.rules().is_empty() {
        return Ok(());
    }
    match items {
        Items::Raster(grid) => {
            let grid = *grid;
            let mut table = scaled.filters(alloc)?;
            draw_item(alloc, &scaled, &mut table, Item::Raster(grid), canvas)
        }
        Items::Features(source) => draw_source(alloc, &scaled, source, nearby, canvas),
        Items::Nothing => Ok(()),
    }
}
