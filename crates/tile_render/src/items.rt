//! What a layer draws: a grid, or the features of a layer of data.
ghost use Rattle.std.specs.Prelude.{◌≡◌, find};
ghost use Rattle.std.specs.Option.{option_copied};
ghost use Rattle.std.specs.Str.{bytes_eq};
ghost use Rattle.plain_drawing.specs.Drawing.{items_of, item_attrs};
ghost use Rattle.tile_render.specs.inner.Items.{item_of, items_in};
ghost use Rattle.tile_render.specs.inner.Nearby.{FromData};

use data_versions::{LayerView, Snapshot};
use farm_base::Attr;
use geo_model::Feature;
use plain_drawing::{Grid, MapStyle};

/// One item that is drawn: a feature, or a grid, which has no attributes.
#[derive(Clone, Copy)]
pub(crate) enum Item<'a> {
    Feature(&'a Feature),
    Raster(&'a Grid),
}

/// A layer of data that is drawn: its name and its features.
#[derive(Drop)]
pub(crate) struct Source<'a> {
    pub name: &'a str,
    pub features: LayerView<'a>,
}

/// All items of a layer.
#[derive(Drop)]
pub(crate) enum Items<'a> {
    Raster(&'a Grid),
    Features(Source<'a>),
    Nothing,
}

impl<'a> Item<'a> {
    /// The item's attributes.
    pub(crate) fn attrs(self) -> &'a [Attr]
        ensures { result.now ≡ item_attrs (item_of self.entry) }
    {
        match self {
            Item::Feature(feature) => feature.attrs(),
            Item::Raster(_) => &[],
        }
    }
}

fn find_grid<'a>(grids: &'a [Grid], name: &str) -> Option<&'a Grid>
    ensures { option_copied result ≡ find (λ g. bytes_eq g.name name.now) grids.now }
{
    grids.iter().find(|grid| grid.name.as_str() == name)
}

/// What a layer with this source draws: the bound grid of the name, else the features of the data's layer
/// of the name, else nothing.
pub(crate) fn items_of<'a>(style: &'a MapStyle, snapshot: &'a Snapshot, name: &'a str) -> Items<'a>
    ensures items { items_in result
        ≡ items_of style.entry.now.grids snapshot.entry.now name.entry.now }
    ensures source { FromData snapshot.entry.now result }
{
    match find_grid(&style.grids, name) {
        Some(grid) => Items::Raster(grid),
        None => match snapshot.layer(name) {
            Some(features) => Items::Features(Source { name, features }),
            None => Items::Nothing,
        },
    }
}
