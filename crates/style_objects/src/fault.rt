//! Where in a style text a fault stands, and what it is.
ghost use Rattle.std.specs.Prelude.{◌≡◌};
ghost use Rattle.style_objects.specs.declared.fault.StyleFault.TheVariants as fault;

use farm_base::NoMemory;
use filter_expr::FilterFault;
use reading::ReadFault;
use std::alloc::{AllocError, AllocFailed};

/// The kind of object of a style text that a fault stands in.
#[derive(Clone, Copy)]
pub enum Part {
    Map,
    Style,
    Rule,
    Symbolizer,
    Layer,
    Raster,
}

/// An object of a style text by its places, counted from 0: a style by its own, a rule by style and
/// rule, a symbolizer by style, rule and symbolizer, a layer and a raster by their own. Numbers that
/// do not apply are 0.
#[derive(Clone, Copy)]
pub struct At {
    pub part: Part,
    pub first: u32,
    pub second: u32,
    pub third: u32,
}

/// Why a style text was refused: the first fault in reading order, with the object it stands in.
#[derive(Clone, Copy)]
pub enum StyleFault {
    /// The text is no JSON.
    NotJson,
    /// An object, list or value of the wrong kind, or a key that must be there and is not.
    Shape(At),
    /// A filter text that the filter grammar refuses; never for want of memory.
    Filter(At, FilterFault),
    /// A text outside its grammar or set, or a name of no bytes or of too many.
    Text(At),
    /// A layer names a style that the text does not have.
    NoStyle(At),
    /// A style, layer or raster has the name of an earlier one.
    Double(At),
    /// A key or a symbolizer that this map drawer does not know.
    Unsupported(At),
    /// A list, a width or a number past its limits.
    Range(At),
    /// Want of memory.
    NoMemory,
}

impl At {
    ghost use Rattle.std.specs.Prelude.{◌≡◌};
    ghost use Rattle.style_objects.specs.declared.fault.Part.TheVariants as kind;
    ghost use Rattle.style_objects.specs.Places.{at_place};

    /// The map itself.
    pub fn map() -> At
        ensures { result ≡ at_place kind.Map 0 0 0 }
    {
        At::of(Part::Map, 0, 0, 0)
    }

    /// A style by its place.
    pub fn style(style: u32) -> At
        ensures { result ≡ at_place kind.Style style 0 0 }
    {
        At::of(Part::Style, style, 0, 0)
    }

    /// A rule by style and rule.
    pub fn rule(style: u32, rule: u32) -> At
        ensures { result ≡ at_place kind.Rule style rule 0 }
    {
        At::of(Part::Rule, style, rule, 0)
    }

    /// A symbolizer by style, rule and symbolizer.
    pub fn symbolizer(style: u32, rule: u32, symbolizer: u32) -> At
        ensures { result ≡ at_place kind.Symbolizer style rule symbolizer }
    {
        At::of(Part::Symbolizer, style, rule, symbolizer)
    }

    /// A layer by its place.
    pub fn layer(layer: u32) -> At
        ensures { result ≡ at_place kind.Layer layer 0 0 }
    {
        At::of(Part::Layer, layer, 0, 0)
    }

    /// A raster by its place.
    pub fn raster(raster: u32) -> At
        ensures { result ≡ at_place kind.Raster raster 0 0 }
    {
        At::of(Part::Raster, raster, 0, 0)
    }

    fn of(part: Part, first: u32, second: u32, third: u32) -> At
        ensures { result ≡ at_place part first second third }
    {
        At {
            part,
            first,
            second,
            third,
        }
    }
}

impl ReadFault for StyleFault {
    ghost memory = { fault.NoMemory };

    fn no_memory() -> StyleFault {
        StyleFault::NoMemory
    }
}

impl From<NoMemory> for StyleFault {
    ghost from_gives = { λ _ e. e ≡ fault.NoMemory };

    fn from(_refused: NoMemory) -> StyleFault {
        StyleFault::NoMemory
    }
}

impl From<AllocError> for StyleFault {
    ghost from_gives = { λ _ e. e ≡ fault.NoMemory };

    fn from(_refused: AllocError) -> StyleFault {
        StyleFault::NoMemory
    }
}

impl<T: Drop> From<AllocFailed<T>> for StyleFault {
    ghost from_gives = { λ _ e. e ≡ fault.NoMemory };

    fn from(_refused: AllocFailed<T>) -> StyleFault {
        StyleFault::NoMemory
    }
}
