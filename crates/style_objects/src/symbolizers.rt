//! The symbolizers of a rule.
ghost use Rattle.std.specs.Prelude.{◌≡◌, ◌≤◌, [], length, codes, IsTrue, IfOk};
ghost use Rattle.std.specs.List.{list_all};
ghost use Rattle.serde_json.specs.View.{view, items_view};
ghost use Rattle.farm_base.specs.Earlier.{each_after};
ghost use Rattle.plain_drawing.specs.Styles.{is_paint};
ghost use Rattle.reading.specs.Lists.{list_of};
ghost use Rattle.reading.specs.Steps.{seen, Gives};
ghost use Rattle.reading.specs.Values.{needed, text as spec_text};
ghost use Rattle.serde_json.specs.Find.{get};
ghost use Rattle.style_objects.specs.TextReadings.{text_reading};
ghost use Rattle.style_objects.specs.Tables as spec;
ghost use Rattle.style_objects.specs.Places.{at_place};
ghost use Rattle.style_objects.specs.declared.fault.Part.TheVariants as part;
ghost use Rattle.style_objects.specs.declared.fault.StyleFault.TheVariants as fault;
ghost use Rattle.plain_drawing.specs.Limits.{most_symbolizers};

use crate::fault::{At, StyleFault};
use crate::keys::{Object, open};
use crate::kinds::{
    any_text_or_none, cap_or_butt, colour_at, colour_or, opacity_or_full, width_at, width_or,
};
use paint_texts::Colour;
use plain_drawing::Symbolizer;
use reading::{ReadItem, read_list, text};
use serde_json::Value;
use std::alloc::Global;

const GRAY: Colour = Colour {
    r: 128,
    g: 128,
    b: 128,
};

const BLACK: Colour = Colour { r: 0, g: 0, b: 0 };

#[tactic(auto, unfolding(crate::specs::Tables::polygon_of))]
fn polygon(object: &Value, at: At) -> Result<Symbolizer, StyleFault>
    ensures value { result ≡ spec.polygon_of text_reading at (view object.now) }
    ensures fits { IfOk result (λ s. IsTrue (is_paint s)) }
{
    open(object, Object::PolygonSymbolizer, at)?;
    let fill = colour_or(object, "fill", GRAY, at)?;
    let fill_opacity = opacity_or_full(object, "fill-opacity", at)?;
    Ok(Symbolizer::Polygon { fill, fill_opacity })
}

#[tactic(auto, unfolding(crate::specs::Tables::line_symbolizer_of))]
fn line(object: &Value, at: At) -> Result<Symbolizer, StyleFault>
    ensures value { result ≡ spec.line_symbolizer_of text_reading at (view object.now) }
    ensures fits { IfOk result (λ s. IsTrue (is_paint s)) }
{
    open(object, Object::LineSymbolizer, at)?;
    let stroke = colour_or(object, "stroke", BLACK, at)?;
    let stroke_width = width_or(object, "stroke-width", 100, at)?;
    let stroke_opacity = opacity_or_full(object, "stroke-opacity", at)?;
    let stroke_linecap = cap_or_butt(object, "stroke-linecap", at)?;
    any_text_or_none(object, "stroke-linejoin", at)?;
    Ok(Symbolizer::Line {
        stroke,
        stroke_width,
        stroke_opacity,
        stroke_linecap,
    })
}

#[tactic(auto, unfolding(crate::specs::Tables::markers_of))]
fn markers(object: &Value, at: At) -> Result<Symbolizer, StyleFault>
    ensures value { result ≡ spec.markers_of text_reading at (view object.now) }
    ensures fits { IfOk result (λ s. IsTrue (is_paint s)) }
{
    open(object, Object::MarkersSymbolizer, at)?;
    let fill = colour_at(object, "fill", at)?;
    let width = width_at(object, "width", at)?;
    let height = width_at(object, "height", at)?;
    let opacity = opacity_or_full(object, "opacity", at)?;
    Ok(Symbolizer::Markers {
        fill,
        width,
        height,
        opacity,
    })
}

#[tactic(auto, unfolding(crate::specs::Tables::raster_symbolizer_of))]
fn raster(object: &Value, at: At) -> Result<Symbolizer, StyleFault>
    ensures value { result ≡ spec.raster_symbolizer_of text_reading at (view object.now) }
    ensures fits { IfOk result (λ s. IsTrue (is_paint s)) }
{
    open(object, Object::RasterSymbolizer, at)?;
    let opacity = opacity_or_full(object, "opacity", at)?;
    Ok(Symbolizer::Raster { opacity })
}

#[tactic(auto, unfolding(crate::specs::Tables::symbolizer_named))]
fn named(name: &str, object: &Value, at: At) -> Result<Symbolizer, StyleFault>
    ensures value { result ≡ spec.symbolizer_named text_reading name.now at (view object.now) }
    ensures fits { IfOk result (λ s. IsTrue (is_paint s)) }
{
    match name {
        "PolygonSymbolizer" => polygon(object, at),
        "LineSymbolizer" => line(object, at),
        "MarkersSymbolizer" => markers(object, at),
        "RasterSymbolizer" => raster(object, at),
        _ => Err(StyleFault::Unsupported(at)),
    }
}

fn name_of(object: &Value, at: At) -> Result<&str, StyleFault>
    ensures { seen (λ s. s.now) result ≡ needed (fault.Shape at) (spec_text (fault.Shape at))
        (get (codes "symbolizer") (view object.now)) }
{
    match object.get("symbolizer") {
        Some(value) => text(value, StyleFault::Shape(at)),
        None => Err(StyleFault::Shape(at)),
    }
}

#[tactic(auto, unfolding(crate::specs::Tables::symbolizer_of))]
fn symbolizer(object: &Value, at: At) -> Result<Symbolizer, StyleFault>
    ensures value { result ≡ spec.symbolizer_of text_reading at (view object.now) }
    ensures fits { IfOk result (λ s. IsTrue (is_paint s)) }
{
    named(name_of(object, at)?, object, at)
}

// The symbolizers of a rule of a style.
#[derive(Drop)]
struct SymbolizerItems {
    style: u32,
    rule: u32,
}

impl ReadItem for SymbolizerItems {
    type Item = Symbolizer;

    type Fault = StyleFault;

    ghost limit = { λ r. most_symbolizers };

    ghost reads = { λ r before d. spec.symbolizer_of text_reading (at_place part.Symbolizer r.style r.rule (length before)) d };

    ghost keeps = { λ r before s. is_paint s };

    fn read(
        &self,
        _alloc: Global,
        before: &[Symbolizer],
        value: &Value,
    ) -> Result<Symbolizer, StyleFault> {
        symbolizer(
            value,
            At::symbolizer(self.style, self.rule, before.len() as u32),
        )
    }
}

pub fn symbolizers(
    alloc: Global,
    style: u32,
    rule: u32,
    items: &[Value],
) -> Result<Vec<Symbolizer>, StyleFault>
    requires { length items.now ≤ most_symbolizers }
    ensures value { Gives fault.NoMemory
        (λ v. v.items) (list_of (λ before e. spec.symbolizer_of text_reading
        (at_place part.Symbolizer style rule (length before)) e) (items_view items.now)) result }
    ensures fits { IfOk result (λ v. IsTrue (list_all is_paint v.items)) }
    ensures count { IfOk result (λ v. length v.items ≤ most_symbolizers) }
{
    read_list(alloc, &SymbolizerItems { style, rule }, items)
}
