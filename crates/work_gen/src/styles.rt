//! The style.
ghost use Rattle.std.specs.Prelude.{◌≡◌, ◌<◌, ◌≤◌, [], ◌∷◌, ◌++◌, IfOk, OnOk, IsTrue, codes, pos};
ghost use Rattle.plain_filters.specs.Filters.{tree_of, compare_tree, name_tree, number_tree};
ghost use Rattle.plain_filters.specs.declared.expr.CompareSign.TheVariants as sign;
ghost use Rattle.plain_drawing.specs.Styles.{is_text_to};
ghost use Rattle.work_gen.specs.Work as spec;

use farm_base::{NoMemory, Text};
use plain_drawing::{FilterMode, LayerRef, MapStyle, Rule, Style, Symbolizer};
use plain_filters::{CompareSign, Expr};
use plain_shapes::{Colour, LineCap};
use std::alloc::Global;

/// The whole of an opacity, in thousandths.
const OPAQUE: u32 = 1000;

fn colour(number: u8) -> Colour
    requires { number < 12 }
    ensures { result ≡ spec.work_colour number }
{
    Colour {
        r: 20 * number,
        g: 255 - 20 * number,
        b: 128,
    }
}

// What a rule paints: land is filled, roads are two pixels wide with round ends, spots six pixels wide
// and high.
fn paint(number: u8) -> Symbolizer
    requires { number < 12 }
    ensures { result ≡ spec.paint_of number }
{
    let colour = colour(number);
    match number / 4 {
        0 => Symbolizer::Polygon {
            fill: colour,
            fill_opacity: OPAQUE,
        },
        1 => Symbolizer::Line {
            stroke: colour,
            stroke_width: 200,
            stroke_opacity: OPAQUE,
            stroke_linecap: LineCap::Round,
        },
        _ => Symbolizer::Markers {
            fill: colour,
            width: 600,
            height: 600,
            opacity: OPAQUE,
        },
    }
}

fn filter(alloc: Global, kind: u8) -> Result<Expr, NoMemory>
    ensures { IfOk result (λ e. tree_of e
        ≡ compare_tree (name_tree (codes "kind")) sign.Equal (number_tree (pos kind))) }
{
    let name = Box::new(alloc, Expr::Name(Text::of(alloc, "kind")?))?;
    let number = Box::new(alloc, Expr::Number(i64::from(kind)))?;
    Ok(Expr::Compare(name, CompareSign::Equal, number))
}

#[tactic(auto, unfolding(crate::specs::Work::work_rule), using(crate::proofs::Sound::paint_passes))]
fn rule(alloc: Global, number: u8) -> Result<Rule, NoMemory>
    requires { number < 12 }
    ensures { IfOk result (λ r. r ≡ spec.work_rule number) }
{
    let mut symbolizers = Vec::new(alloc);
    symbolizers.push(paint(number))?;
    Ok(Rule {
        filter: Some(filter(alloc, number % 4)?),
        else_filter: false,
        min_scale_denominator: 0,
        max_scale_denominator: None,
        symbolizers,
    })
}

fn add_rule(alloc: Global, rules: &mut Vec<Rule>, number: u8) -> Result<(), NoMemory>
    requires { number < 12 }
    ensures { OnOk result (rules.new.items ≡ rules.old.items ++ spec.work_rule number ∷ []) }
{
    rules.push(rule(alloc, number)?)?;
    Ok(())
}

#[tactic(auto, unfolding(crate::specs::Work::work_style))]
fn style(alloc: Global, name: &str, first: u8) -> Result<Style, NoMemory>
    requires first { first ≤ 8 }
    requires fits { IsTrue (is_text_to 64 name.now) }
    ensures { IfOk result (λ s. s ≡ spec.work_style name.now first) }
{
    let mut rules = Vec::new(alloc);
    add_rule(alloc, &mut rules, first)?;
    add_rule(alloc, &mut rules, first + 1)?;
    add_rule(alloc, &mut rules, first + 2)?;
    add_rule(alloc, &mut rules, first + 3)?;
    Ok(Style {
        name: Text::of(alloc, name)?,
        filter_mode: FilterMode::All,
        rules,
    })
}

#[tactic(auto, unfolding(crate::specs::Work::work_layer))]
fn layer(alloc: Global, name: &str) -> Result<LayerRef, NoMemory>
    requires { IsTrue (is_text_to 64 name.now) }
    ensures { IfOk result (λ l. l ≡ spec.work_layer name.now) }
{
    let mut styles = Vec::new(alloc);
    styles.push(Text::of(alloc, name)?)?;
    Ok(LayerRef {
        name: Text::of(alloc, name)?,
        source: Text::of(alloc, name)?,
        minimum_scale_denominator: 0,
        maximum_scale_denominator: None,
        styles,
    })
}

fn add_style(alloc: Global, styles: &mut Vec<Style>, name: &str, first: u8) -> Result<(), NoMemory>
    requires first { first ≤ 8 }
    requires fits { IsTrue (is_text_to 64 name.now) }
    ensures { OnOk result
        (styles.new.items ≡ styles.old.items ++ spec.work_style name.now first ∷ []) }
{
    styles.push(style(alloc, name, first)?)?;
    Ok(())
}

fn add_layer(alloc: Global, layers: &mut Vec<LayerRef>, name: &str) -> Result<(), NoMemory>
    requires { IsTrue (is_text_to 64 name.now) }
    ensures { OnOk result (layers.new.items ≡ layers.old.items ++ spec.work_layer name.now ∷ []) }
{
    layers.push(layer(alloc, name)?)?;
    Ok(())
}

fn styles(alloc: Global) -> Result<Vec<Style>, NoMemory>
    ensures { IfOk result (λ v. v.items ≡ spec.work_style (codes "land") 0
        ∷ spec.work_style (codes "roads") 4 ∷ spec.work_style (codes "spots") 8 ∷ []) }
{
    let mut styles = Vec::new(alloc);
    add_style(alloc, &mut styles, "land", 0)?;
    add_style(alloc, &mut styles, "roads", 4)?;
    add_style(alloc, &mut styles, "spots", 8)?;
    Ok(styles)
}

fn layers(alloc: Global) -> Result<Vec<LayerRef>, NoMemory>
    ensures { IfOk result (λ v. v.items ≡ spec.work_layer (codes "land")
        ∷ spec.work_layer (codes "roads") ∷ spec.work_layer (codes "spots") ∷ []) }
{
    let mut layers = Vec::new(alloc);
    add_layer(alloc, &mut layers, "land")?;
    add_layer(alloc, &mut layers, "roads")?;
    add_layer(alloc, &mut layers, "spots")?;
    Ok(layers)
}

/// A white map of three layers, each in the style of its name.
#[tactic(auto, unfolding(crate::specs::Work::map_style, crate::specs::Work::work_style, crate::specs::Work::work_layer))]
pub fn map_style(alloc: Global) -> Result<MapStyle, NoMemory>
    ensures { IfOk result (λ s. s ≡ spec.map_style) }
{
    let styles = styles(alloc)?;
    let layers = layers(alloc)?;
    Ok(MapStyle {
        background_color: Colour {
            r: 255,
            g: 255,
            b: 255,
        },
        styles,
        layers,
        rasters: Vec::new(alloc),
        grids: Vec::new(alloc),
    })
}
