//! The styles of a map.
ghost use Rattle.std.specs.Prelude.{◌≡◌, ◌≤◌, [], length, IsTrue, IfOk};
ghost use Rattle.serde_json.specs.View.{view, items_view};
ghost use Rattle.farm_base.specs.Earlier.{each_after};
ghost use Rattle.plain_drawing.specs.Styles.{style_apart};
ghost use Rattle.plain_drawing.specs.Styles as plain;
ghost use Rattle.reading.specs.Lists.{list_of};
ghost use Rattle.reading.specs.Steps.{Gives};
ghost use Rattle.style_objects.specs.TextReadings.{text_reading};
ghost use Rattle.style_objects.specs.Tables as spec;
ghost use Rattle.style_objects.specs.Places.{at_place};
ghost use Rattle.style_objects.specs.declared.fault.Part.TheVariants as part;
ghost use Rattle.style_objects.specs.declared.fault.StyleFault.TheVariants as fault;
ghost use Rattle.plain_drawing.specs.Limits.{most_styles};

use crate::fault::{At, StyleFault};
use crate::keys::{Object, open};
use crate::kinds::{mode_or_all, text_to};
use crate::rules::rules;
use farm_base::Text;
use plain_drawing::{MOST_RULES, Style};
use plain_shapes::MOST_NAME_BYTES;
use reading::{ReadItem, read_list, within};
use serde_json::Value;
use std::alloc::Global;

/// Whether a style of this name is among them.
pub fn style_has(name: &str, styles: &[Style]) -> bool
    ensures { result ≡ plain.style_has name.now styles.now }
{
    styles.iter().any(|s| s.name.as_str() == name)
}

#[tactic(auto, unfolding(crate::specs::Tables::style_of))]
fn style(alloc: Global, place: u32, before: &[Style], object: &Value) -> Result<Style, StyleFault>
    ensures value { Gives fault.NoMemory (λ x. x) (spec.style_of text_reading
        (at_place part.Style place 0 0) before.now (view object.now)) result }
    ensures apart { IfOk result (λ s. IsTrue (style_apart before.now s)) }
{
    let at = At::style(place);
    open(object, Object::Style, at)?;
    let found = within(object.get("rules"), MOST_RULES, StyleFault::Range(at))?;
    let name = text_to(object, "name", MOST_NAME_BYTES, at)?;
    let filter_mode = mode_or_all(object, "filter-mode", at)?;
    let items = found.ok_or(StyleFault::Shape(at))?;
    if style_has(name, before) {
        return Err(StyleFault::Double(at));
    }
    let rules = rules(alloc, place, items)?;
    let Ok(name) = Text::of(alloc, name) else {
        drop(rules);
        return Err(StyleFault::NoMemory);
    };
    Ok(Style {
        name,
        filter_mode,
        rules,
    })
}

// The styles of a map.
#[derive(Drop)]
struct StyleItems {}

impl ReadItem for StyleItems {
    type Item = Style;

    type Fault = StyleFault;

    ghost limit = { λ r. most_styles };

    ghost reads = { λ r before d. spec.style_of text_reading (at_place part.Style (length before) 0 0) before d };

    ghost keeps = { λ r before s. style_apart before s };

    fn read(&self, alloc: Global, before: &[Style], value: &Value) -> Result<Style, StyleFault> {
        style(alloc, before.len() as u32, before, value)
    }
}

pub fn styles(alloc: Global, items: &[Value]) -> Result<Vec<Style>, StyleFault>
    requires { length items.now ≤ most_styles }
    ensures value { Gives fault.NoMemory (λ v. v.items) (list_of
        (λ before e. spec.style_of text_reading (at_place part.Style (length before) 0 0) before e)
        (items_view items.now)) result }
    ensures apart { IfOk result (λ v. IsTrue (each_after style_apart [] v.items)) }
    ensures count { IfOk result (λ v. length v.items ≤ most_styles) }
{
    read_list(alloc, &StyleItems {}, items)
}
