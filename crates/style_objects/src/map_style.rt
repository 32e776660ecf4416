//! The map, and the whole text.
ghost use Rattle.std.specs.Prelude.{◌≡◌, ◌≤◌, length};
ghost use Rattle.serde_json.specs.View.{view, items_view};
ghost use Rattle.reading.specs.Steps.{Gives};
ghost use Rattle.style_objects.specs.TextReadings.{TextReading, SaysGrammar, text_reading};
ghost use Rattle.style_objects.specs.Tables as spec;
ghost use Rattle.style_objects.specs.inner.Parts as parts;
ghost use Rattle.plain_drawing.specs.Limits.{most_styles, most_map_layers, most_rasters};
ghost use Rattle.style_objects.specs.Places.{at_place};
ghost use Rattle.style_objects.specs.declared.fault.Part.TheVariants as part;
ghost use Rattle.style_objects.specs.declared.fault.StyleFault.TheVariants as fault;

use crate::fault::{At, StyleFault};
use crate::keys::{Object, open};
use crate::kinds::{colour_or, list_or_none};
use crate::layers::layers;
use crate::rasters::rasters;
use crate::style_list::styles;
use paint_texts::Colour;
use plain_drawing::{MOST_MAP_LAYERS, MOST_RASTERS, MOST_STYLES, MapStyle};
use reading::{read_json, within};
use serde_json::Value;
use std::alloc::Global;

const WHITE: Colour = Colour {
    r: 255,
    g: 255,
    b: 255,
};

#[tactic(auto, unfolding(crate::specs::inner::Parts::map_lists))]
fn map_lists(
    alloc: Global,
    background_color: Colour,
    style_items: &[Value],
    layer_items: &[Value],
    raster_items: &[Value],
) -> Result<MapStyle, StyleFault>
    requires styles { length style_items.now ≤ most_styles }
    requires layers { length layer_items.now ≤ most_map_layers }
    requires rasters { length raster_items.now ≤ most_rasters }
    ensures { Gives fault.NoMemory
        (λ x. x) (parts.map_lists text_reading background_color (items_view style_items.now)
        (items_view layer_items.now) (items_view raster_items.now)) result }
{
    let rasters = rasters(alloc, raster_items)?;
    let styles = match styles(alloc, style_items) {
        Ok(styles) => styles,
        Err(fault) => {
            drop(rasters);
            return Err(fault);
        }
    };
    let layers = match layers(alloc, styles.as_slice(), layer_items) {
        Ok(layers) => layers,
        Err(fault) => {
            drop(rasters);
            drop(styles);
            return Err(fault);
        }
    };
    Ok(MapStyle {
        background_color,
        styles,
        layers,
        rasters,
        grids: Vec::new(alloc),
    })
}

#[tactic(auto, unfolding(crate::specs::inner::Parts::map_by_parts))]
fn map_by_parts(alloc: Global, object: &Value) -> Result<MapStyle, StyleFault>
    ensures { Gives fault.NoMemory (λ x. x)
        (parts.map_by_parts text_reading (at_place part.Map 0 0 0) (view object.now)) result }
{
    let at = At::map();
    open(object, Object::Map, at)?;
    let found_styles = within(object.get("styles"), MOST_STYLES, StyleFault::Range(at))?;
    let found_layers = within(object.get("layers"), MOST_MAP_LAYERS, StyleFault::Range(at))?;
    let found_rasters = within(object.get("rasters"), MOST_RASTERS, StyleFault::Range(at))?;
    let background_color = colour_or(object, "background-color", WHITE, at)?;
    let style_items = found_styles.ok_or(StyleFault::Shape(at))?;
    let layer_items = found_layers.ok_or(StyleFault::Shape(at))?;
    let raster_items = list_or_none(found_rasters, object.get("rasters"), at)?;
    map_lists(
        alloc,
        background_color,
        style_items,
        layer_items,
        raster_items,
    )
}

fn map_style(alloc: Global, object: &Value) -> Result<MapStyle, StyleFault>
    ensures { Gives fault.NoMemory (λ x. x)
        (spec.map_object text_reading (at_place part.Map 0 0 0) (view object.now)) result }
{
    map_by_parts(alloc, object)
}

/// Reads a style: the map that its text says, without grids, or the first fault in reading order.
///
/// The text is JSON with Mapnik's style objects; attribute values are strings, as Mapnik's XML has
/// them. The map object is read first with its own keys, then the rasters, the styles and the layers,
/// each in order; a style before its rules, a rule before its symbolizers. Of each object: Shape where
/// it is no object; Unsupported for an unknown key; Range where a list in it passes its limit; then its
/// keys in the order of the table in `docs/maps/styles.md`.
pub fn read_style(alloc: Global, bytes: &[u8]) -> Result<MapStyle, StyleFault>
    // The answer is what the text says, where its filters, colours and numbers are what their grammars say,
    ensures grammar { (says : TextReading) → SaysGrammar says
        → Gives fault.NoMemory (λ x. x) (spec.style_by says bytes.now) result }

    // which a function says too.
    ensures value { Gives fault.NoMemory (λ x. x) (spec.style_in bytes.now) result }
{
    read(alloc, bytes)
}

// The style that the text says, where its texts are read by the functions that go over them.
#[tactic(auto, unfolding(crate::specs::Tables::style_by))]
fn read(alloc: Global, bytes: &[u8]) -> Result<MapStyle, StyleFault>
    ensures { Gives fault.NoMemory (λ x. x) (spec.style_in bytes.now) result }
{
    let value = read_json(alloc, bytes, StyleFault::NotJson)?;
    map_style(alloc, &value)
}
