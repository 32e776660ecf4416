//! The layers of a map and the styles that they name.
ghost use Rattle.std.specs.Prelude.{◌≡◌, ◌*◌, ◌^◌, ◌<◌, OnOk, find};
ghost use Rattle.std.specs.Option.{option_copied};
ghost use Rattle.std.specs.Str.{bytes_eq};
ghost use Rattle.plain_drawing.specs.inner.Pictures.{with_layer, with_map};
ghost use Rattle.tile_render.specs.inner.Regions.{around};

use crate::canvas::Canvas;
use crate::items::items_of;
use crate::nearby::NearData;
use crate::regions::around;
use crate::styles::draw_style;
use data_versions::Snapshot;
use farm_base::NoMemory;
use plain_drawing::{LayerRef, MapStyle, Style};
use scale_rules::active;
use std::alloc::Global;

fn find_style<'a>(styles: &'a [Style], name: &str) -> Option<&'a Style>
    ensures { option_copied result ≡ find (λ s. bytes_eq s.name name.now) styles.now }
{
    styles.iter().find(|style| style.name.as_str() == name)
}

// Draws a layer, if it is at scale: all its items by each of the styles that it names, in order.
#[tactic(auto, unfolding(plain_drawing::specs::inner::Pictures::with_layer))]
fn draw_layer<'a>(
    alloc: Global,
    denominator: u64,
    style: &'a MapStyle,
    layer: &'a LayerRef,
    nearby: &mut NearData<'a>,
    canvas: &mut Canvas,
) -> Result<(), NoMemory>
    requires denominator { 100 * denominator < 2 ^ 64 }
    requires near { nearby.old.around ≡ around canvas.old.window }
    ensures drawn { OnOk result (canvas.new.image ≡ with_layer canvas.old.window denominator style.entry.now nearby.old.layers canvas.old.image layer.entry.now) }
    ensures window { canvas.new.window ≡ canvas.old.window }
    ensures nearby { nearby.new ≡ nearby.old }
{
    let least = layer.minimum_scale_denominator;
    if !active(least, layer.maximum_scale_denominator, denominator) {
        return Ok(());
    }
    let items = items_of(style, nearby.snapshot(), layer.source.as_str());
    for name in &layer.styles {
        let Some(named) = find_style(&style.styles, name.as_str()) else {
            continue;
        };
        draw_style(alloc, denominator, named, &items, nearby, canvas)?;
    }
    Ok(())
}

/// Draws all layers of a map style, the first lowest.
#[tactic(auto, unfolding(plain_drawing::specs::inner::Pictures::with_map))]
pub(crate) fn draw_map(
    alloc: Global,
    denominator: u64,
    style: &MapStyle,
    snapshot: &Snapshot,
    canvas: &mut Canvas,
) -> Result<(), NoMemory>
    requires { 100 * denominator < 2 ^ 64 }
    ensures drawn { OnOk result (canvas.new.image
        ≡ with_map canvas.old.window denominator style.now snapshot.now canvas.old.image) }
    ensures window { canvas.new.window ≡ canvas.old.window }
{
    let mut nearby = NearData::of(alloc, snapshot, around(canvas.window()));
    for layer in &style.layers {
        draw_layer(alloc, denominator, style, layer, &mut nearby, canvas)?;
    }
    Ok(())
}
