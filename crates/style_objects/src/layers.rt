//! The layers of a map.
ghost use Rattle.std.specs.Prelude.{◌≡◌, ◌≤◌, ◌<◌, ◌^◌, [], length, IsTrue, IfOk};
ghost use Rattle.std.specs.List.{list_all};
ghost use Rattle.serde_json.specs.View.{view, items_view};
ghost use Rattle.farm_base.specs.Earlier.{each_after};
ghost use Rattle.plain_drawing.specs.Styles.{layer_apart};
ghost use Rattle.plain_drawing.specs.Styles as plain;
ghost use Rattle.reading.specs.Lists.{list_of};
ghost use Rattle.reading.specs.Steps.{Gives};
ghost use Rattle.style_objects.specs.TextReadings.{text_reading};
ghost use Rattle.style_objects.specs.Tables as spec;
ghost use Rattle.style_objects.specs.Places.{at_place};
ghost use Rattle.style_objects.specs.declared.fault.Part.TheVariants as part;
ghost use Rattle.style_objects.specs.declared.fault.StyleFault.TheVariants as fault;
ghost use Rattle.plain_drawing.specs.Limits.{most_map_layers};

use crate::fault::{At, StyleFault};
use crate::keys::{Object, open};
use crate::kinds::{a_text_to, bound_or_none, scale_or_zero, text_to, two_texts};
use crate::style_list::style_has;
use farm_base::Text;
use plain_drawing::{LayerRef, Style};
use plain_shapes::MOST_NAME_BYTES;
use reading::{ReadItem, list, read_list};
use serde_json::Value;
use std::alloc::Global;

// The names of a layer's styles.
#[derive(Drop)]
struct NameItems<'a> {
    styles: &'a [Style],
    at: At,
}

impl ReadItem for NameItems<'_> {
    type Item = Text;

    type Fault = StyleFault;

    ghost limit = { λ r. 2 ^ 64 };

    ghost reads = { λ r before d. spec.style_name_of r.styles.now r.at before d };

    ghost keeps = { λ r before name. plain.style_has name r.styles.now };

    #[tactic(auto, unfolding(crate::specs::Tables::style_name_of))]
    fn read(&self, alloc: Global, _before: &[Text], value: &Value) -> Result<Text, StyleFault> {
        let name = a_text_to(value, MOST_NAME_BYTES, self.at)?;
        if !style_has(name, self.styles) {
            return Err(StyleFault::NoStyle(self.at));
        }
        match Text::of(alloc, name) {
            Ok(name) => Ok(name),
            Err(_) => Err(StyleFault::NoMemory),
        }
    }
}

fn style_names(
    alloc: Global,
    styles: &[Style],
    at: At,
    items: &[Value],
) -> Result<Vec<Text>, StyleFault>
    requires { length items.now < 2 ^ 64 }
    ensures value { Gives fault.NoMemory (λ v. v.items)
        (list_of (spec.style_name_of styles.now at) (items_view items.now)) result }
    ensures known { IfOk result
        (λ v. IsTrue (list_all (λ name. plain.style_has name styles.now) v.items)) }
{
    read_list(alloc, &NameItems { styles, at }, items)
}

fn layer_has(name: &str, layers: &[LayerRef]) -> bool
    ensures { result ≡ plain.layer_has name.now layers.now }
{
    layers.iter().any(|l| l.name.as_str() == name)
}

#[tactic(auto, unfolding(crate::specs::Tables::layer_of))]
fn layer(
    alloc: Global,
    styles: &[Style],
    place: u32,
    before: &[LayerRef],
    object: &Value,
) -> Result<LayerRef, StyleFault>
    ensures value { Gives fault.NoMemory (λ x. x) (spec.layer_of text_reading styles.now
        (at_place part.Layer place 0 0) before.now (view object.now)) result }
    ensures apart { IfOk result (λ l. IsTrue (layer_apart styles.now before.now l)) }
{
    let at = At::layer(place);
    open(object, Object::Layer, at)?;
    let name = text_to(object, "name", MOST_NAME_BYTES, at)?;
    let source = text_to(object, "source", MOST_NAME_BYTES, at)?;
    let minimum_scale_denominator = scale_or_zero(object, "minimum-scale-denominator", at)?;
    let maximum_scale_denominator = bound_or_none(object, "maximum-scale-denominator", at)?;
    let items = list(object.get("styles"), StyleFault::Shape(at))?;
    let names = style_names(alloc, styles, at, items)?;
    if layer_has(name, before) {
        drop(names);
        return Err(StyleFault::Double(at));
    }
    let Ok((name, source)) = two_texts(alloc, name, source) else {
        drop(names);
        return Err(StyleFault::NoMemory);
    };
    Ok(LayerRef {
        name,
        source,
        minimum_scale_denominator,
        maximum_scale_denominator,
        styles: names,
    })
}

// The layers of a map over its styles.
#[derive(Drop)]
struct LayerItems<'a> {
    styles: &'a [Style],
}

impl ReadItem for LayerItems<'_> {
    type Item = LayerRef;

    type Fault = StyleFault;

    ghost limit = { λ r. most_map_layers };

    ghost reads = { λ r before d. spec.layer_of text_reading r.styles.now (at_place part.Layer (length before) 0 0) before d };

    ghost keeps = { λ r before l. layer_apart r.styles.now before l };

    fn read(
        &self,
        alloc: Global,
        before: &[LayerRef],
        value: &Value,
    ) -> Result<LayerRef, StyleFault> {
        layer(alloc, self.styles, before.len() as u32, before, value)
    }
}

pub fn layers(alloc: Global, styles: &[Style], items: &[Value]) -> Result<Vec<LayerRef>, StyleFault>
    requires { length items.now ≤ most_map_layers }
    ensures value { Gives fault.NoMemory
        (λ v. v.items) (list_of (λ before e. spec.layer_of text_reading styles.now
        (at_place part.Layer (length before) 0 0) before e) (items_view items.now)) result }
    ensures apart { IfOk result (λ v. IsTrue (each_after (layer_apart styles.now) [] v.items)) }
    ensures count { IfOk result (λ v. length v.items ≤ most_map_layers) }
{
    read_list(alloc, &LayerItems { styles }, items)
}
