//! Faults of style texts.
ghost use Rattle.std.specs.Prelude.{◌≡◌, ◌++◌, Some, IfOk, codes};
ghost use Rattle.std.specs.Fmt.{decimal};
ghost use Rattle.exit_status.specs.StyleFaults as spec;

use crate::told::FaultText;
use farm_base::{NoMemory, Text};
use filter_expr::FilterFault;
use std::alloc::Global;
use style_objects::{At, Part, StyleFault};

// The text of a style's fault: its number, with the kind and the three places of the object that it
// stands in, and the number and offset of a filter's fault.
impl FaultText for StyleFault {
    ghost use Rattle.exit_status.specs.StyleFaults.{style_text};

    ghost text = { style_text };

    fn text(self, alloc: Global) -> Result<Text, NoMemory> {
        match self {
            StyleFault::NotJson => Text::of(alloc, "style 1"),
            StyleFault::Shape(at) => text_at(alloc, "style 2", at),
            StyleFault::Filter(at, filter) => filter_text_at(alloc, at, filter),
            StyleFault::Text(at) => text_at(alloc, "style 4", at),
            StyleFault::NoStyle(at) => text_at(alloc, "style 5", at),
            StyleFault::Double(at) => text_at(alloc, "style 6", at),
            StyleFault::Unsupported(at) => text_at(alloc, "style 7", at),
            StyleFault::Range(at) => text_at(alloc, "style 8", at),
            StyleFault::NoMemory => Err(NoMemory),
        }
    }
}

/// The word of a part of a style.
pub fn part_text(part: Part) -> &'static str
    ensures { result.now ≡ spec.part_text part }
{
    match part {
        Part::Map => "map",
        Part::Style => "style",
        Part::Rule => "rule",
        Part::Symbolizer => "symbolizer",
        Part::Layer => "layer",
        Part::Raster => "raster",
    }
}

fn text_at(alloc: Global, fault: &str, at: At) -> Result<Text, NoMemory>
    ensures { IfOk result (λ t. t ≡ fault.now ++ spec.at_text at) }
{
    let part = part_text(at.part);
    let text = format!(in alloc; "{fault} at {part} {} {} {}", at.first, at.second, at.third)?;
    Ok(Text::from_string(text))
}

fn filter_text_at(alloc: Global, at: At, fault: FilterFault) -> Result<Text, NoMemory>
    ensures { IfOk result (λ t. spec.filter_text_at at fault ≡ Some t) }
{
    match fault {
        FilterFault::Bad(offset) => offset_text_at(alloc, at, "filter 1", offset),
        FilterFault::NumberRange(offset) => offset_text_at(alloc, at, "filter 2", offset),
        FilterFault::TooDeep(offset) => offset_text_at(alloc, at, "filter 3", offset),
        FilterFault::NoMemory => Err(NoMemory),
    }
}

fn offset_text_at(alloc: Global, at: At, filter: &str, offset: usize) -> Result<Text, NoMemory>
    ensures { IfOk result (λ t. t ≡ codes "style 3" ++ spec.at_text at ++ codes " " ++ filter.now ++
        codes " " ++ decimal offset) }
{
    let style = text_at(alloc, "style 3", at)?;
    offset_text(alloc, style.as_str(), filter, offset)
}

fn offset_text(alloc: Global, style: &str, filter: &str, offset: usize) -> Result<Text, NoMemory>
    ensures { IfOk result (λ t. t ≡ style.now ++ codes " " ++ filter.now ++ codes " " ++ decimal
        offset) }
{
    Ok(Text::from_string(format!(in alloc; "{style} {filter} {offset}")?))
}
