//! The keys of the objects of a style text.
ghost use Rattle.std.specs.Prelude.{◌≡◌, map};
ghost use Rattle.serde_json.specs.View.{view};
ghost use Rattle.style_objects.specs.Keys.{opened_as};
ghost use Rattle.style_objects.specs.inner.Keys as inner;

use crate::fault::{At, StyleFault};
use reading::opened;
use serde_json::Value;

/// The objects of a style text.
#[derive(Clone, Copy)]
pub enum Object {
    Map,
    Style,
    Rule,
    Layer,
    Raster,
    PolygonSymbolizer,
    LineSymbolizer,
    MarkersSymbolizer,
    RasterSymbolizer,
}

fn keys_of(kind: Object) -> &'static [&'static str]
    ensures { map (λ s. s.now) result.now ≡ inner.keys_of kind }
{
    match kind {
        Object::Map => &["background-color", "styles", "layers", "rasters"],
        Object::Style => &["name", "filter-mode", "rules"],
        Object::Rule => &[
            "Filter",
            "ElseFilter",
            "MinScaleDenominator",
            "MaxScaleDenominator",
            "symbolizers",
        ],
        Object::Layer => &[
            "name",
            "source",
            "minimum-scale-denominator",
            "maximum-scale-denominator",
            "styles",
        ],
        Object::Raster => &["name", "file", "west", "north", "pixel"],
        Object::PolygonSymbolizer => &["symbolizer", "fill", "fill-opacity"],
        Object::LineSymbolizer => &[
            "symbolizer",
            "stroke",
            "stroke-width",
            "stroke-opacity",
            "stroke-linecap",
            "stroke-linejoin",
        ],
        Object::MarkersSymbolizer => &["symbolizer", "fill", "width", "height", "opacity"],
        Object::RasterSymbolizer => &["symbolizer", "opacity"],
    }
}

/// The first step of each object: Shape where the value is none, Unsupported where it has another key
/// than those of its kind.
#[tactic(auto, unfolding(crate::specs::Keys::opened_as))]
pub fn open(value: &Value, kind: Object, at: At) -> Result<(), StyleFault>
    ensures { result ≡ opened_as (inner.keys_of kind) at (view value.now) }
{
    opened(
        value,
        StyleFault::Shape(at),
        StyleFault::Unsupported(at),
        keys_of(kind),
    )
}
