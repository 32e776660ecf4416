//! Styles: which symbolizers a map draws, on which features, at which scales.
ghost use Rattle.std.specs.Prelude.{◌≡◌, IsTrue, All};
ghost use Rattle.std.specs.List.{list_all};
ghost use Rattle.plain_drawing.specs.Styles.{grids_match, is_paint, KeepsRanges};

use crate::grid::Grid;
use farm_base::Text;
use plain_filters::Expr;
use plain_shapes::{Colour, LineCap};
use std::marker::Model;

/// How the Filter rules of a style are taken (Mapnik's `filter-mode`): all that match, or the first one.
#[derive(Clone, Copy)]
pub enum FilterMode {
    All,
    First,
}

/// What a rule paints. Opacities are in thousandths, from 0 to 1,000; widths and heights in hundredths of a
/// pixel, from 1 to 6,400.
#[derive(Clone, Copy)]
pub enum Symbolizer {
    /// Fills polygons.
    Polygon {
        fill: Colour,
        fill_opacity: u32,
    },
    /// Strokes lines and the rings of polygons.
    Line {
        stroke: Colour,
        stroke_width: u64,
        stroke_opacity: u32,
        stroke_linecap: LineCap,
    },
    /// Draws an ellipse at each point.
    Markers {
        fill: Colour,
        width: u64,
        height: u64,
        opacity: u32,
    },
    /// Draws a grid in its own colours.
    Raster {
        opacity: u32,
    },
}

/// A rule: what it paints, on the features that its filter holds of, at its scales. The bounds of the scale
/// denominator are in hundredths; the least one belongs to the scales, the greatest one does not.
///
/// A rule has no filter beside `else_filter`, and at most 16 symbolizers.
#[derive(Drop)]
pub struct Rule {
    pub filter: Option<Expr>,
    pub else_filter: bool,
    pub min_scale_denominator: u64,
    pub max_scale_denominator: Option<u64>,
    pub symbolizers: Vec<Symbolizer>,
}

impl Model for Rule {
    ghost use Rattle.std.specs.Prelude.{option_map};
    ghost use Rattle.plain_filters.specs.Filters.{tree_of};
    ghost use Rattle.plain_drawing.specs.Styles.{Rule, IsRule};
    ghost use Rattle.plain_filters.specs.inner.FilterCodes.{filter_code};
    ghost use Rattle.std.specs.Coded.{codes};

    ghost Value = { Rule };

    ghost coded = { Prim.hlevel (codes, filter_code) };

    ghost view = { λ r. record {
      filter = option_map tree_of r.filter;
      else_filter = r.else_filter;
      min_scale_denominator = r.min_scale_denominator;
      max_scale_denominator = r.max_scale_denominator;
      symbolizers = r.symbolizers.items;
    } };

    ghost invariant = { λ r. IsRule r.else_filter (option_map tree_of r.filter)
        r.symbolizers.items };
}

// Makes known what a rule keeps: its symbolizers are within their ranges.
fn know_rule(rule: &Rule)
    ensures { IsTrue (list_all is_paint rule.now.symbolizers) }
{
    let _symbolizers = rule.symbolizers.as_slice();
}

// Makes known what each of the rules keeps.
fn know_rules(rules: &[Rule])
    ensures { All (λ r. IsTrue (list_all is_paint r.symbolizers)) rules.now }
{
    for rule in rules {
        know_rule(rule);
    }
}

/// A style: its name of 1 to 64 bytes and at most 256 rules.
#[derive(Drop)]
pub struct Style {
    pub name: Text,
    pub filter_mode: FilterMode,
    pub rules: Vec<Rule>,
}

impl Model for Style {
    ghost use Rattle.plain_drawing.specs.Styles.{Style, IsStyle};
    ghost use Rattle.plain_filters.specs.inner.FilterCodes.{filter_code};
    ghost use Rattle.std.specs.Coded.{codes};

    ghost Value = { Style };

    ghost coded = { Prim.hlevel (codes, filter_code) };

    ghost view = { λ s. record {
      name = s.name;
      filter_mode = s.filter_mode;
      rules = s.rules.items;
    } };

    ghost invariant = { λ s. IsStyle s.name s.rules.items };
}

impl Style {
    /// Makes known to a proof that the symbolizers of every rule are within their ranges, which a style's value
    /// alone does not tell. Nothing else happens.
    pub fn know(&self)
        ensures { KeepsRanges self.now }
    {
        know_rules(&self.rules);
    }
}

// Makes known what each of the styles keeps.
fn know_styles(styles: &[Style])
    ensures { All KeepsRanges styles.now }
{
    for style in styles {
        style.know();
    }
}

/// A layer of a map: its name, the data layer or raster that it draws, both of 1 to 64 bytes, its scales as
/// those of a rule, and the names of the styles that draw it, in order.
#[derive(Drop)]
pub struct LayerRef {
    pub name: Text,
    pub source: Text,
    pub minimum_scale_denominator: u64,
    pub maximum_scale_denominator: Option<u64>,
    pub styles: Vec<Text>,
}

impl Model for LayerRef {
    ghost use Rattle.plain_drawing.specs.Styles.{LayerRef, IsLayerRef};

    ghost Value = { LayerRef };

    ghost view = { λ l. record {
      name = l.name;
      source = l.source;
      minimum_scale_denominator = l.minimum_scale_denominator;
      maximum_scale_denominator = l.maximum_scale_denominator;
      styles = l.styles.items;
    } };

    ghost invariant = { λ l. IsLayerRef l.name l.source };
}

/// A raster of a map: its name of 1 to 64 bytes, its file of 1 to 100 bytes, the west and north edge of its
/// grid, each at most `2^30`, and the side of its pixels, from 1 to `2^30`, in world units.
#[derive(Drop)]
pub struct RasterRef {
    pub name: Text,
    pub file: Text,
    pub west: u32,
    pub north: u32,
    pub pixel: u32,
}

impl Model for RasterRef {
    ghost use Rattle.plain_drawing.specs.Styles.{RasterRef, IsRasterRef};

    ghost Value = { RasterRef };

    ghost view = { λ r. record {
      name = r.name;
      file = r.file;
      west = r.west;
      north = r.north;
      pixel = r.pixel;
    } };

    ghost invariant = { λ r. IsRasterRef r.name r.file r.west r.north r.pixel };
}

/// A whole map style: at most 256 styles, 64 layers and 2 rasters, each with names that differ, every style
/// that a layer names among the styles, and as grids none, or one for each raster in order.
#[derive(Drop)]
pub struct MapStyle {
    pub background_color: Colour,
    pub styles: Vec<Style>,
    pub layers: Vec<LayerRef>,
    pub rasters: Vec<RasterRef>,
    pub grids: Vec<Grid>,
}

impl Model for MapStyle {
    ghost use Rattle.plain_drawing.specs.Styles.{MapStyle, IsMapStyle};
    ghost use Rattle.plain_filters.specs.inner.FilterCodes.{filter_code};
    ghost use Rattle.std.specs.Coded.{codes};

    ghost Value = { MapStyle };

    ghost coded = { Prim.hlevel (codes, filter_code) };

    ghost view = { λ m. record {
      background_color = m.background_color;
      styles = m.styles.items;
      layers = m.layers.items;
      rasters = m.rasters.items;
      grids = m.grids.items;
    } };

    ghost invariant = { λ m. IsMapStyle m.styles.items m.layers.items m.rasters.items m.grids.items };
}

impl MapStyle {
    /// Makes known to a proof that the symbolizers of every style are within their ranges, which the law that
    /// a feature changes nothing outside of its reach asks for. Nothing else happens.
    pub fn know(&self)
        ensures { All KeepsRanges self.now.styles }
    {
        know_styles(&self.styles);
    }

    /// The same style with these grids for its rasters.
    pub fn bind(self, grids: Vec<Grid>) -> MapStyle
        requires { IsTrue (grids_match self.rasters grids.items) }
        ensures { result ≡ record self { grids = grids.items } }
    {
        let MapStyle {
            background_color,
            styles,
            layers,
            rasters,
            grids: _,
        } = self;
        MapStyle {
            background_color,
            styles,
            layers,
            rasters,
            grids,
        }
    }
}
