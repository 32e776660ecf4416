//! The data to begin with, and the updates that change them.
ghost use Rattle.std.specs.Prelude.{◌≡◌};
ghost use Rattle.plain_shapes.specs.Data.{IsDataset, IsUpdate};

use farm_base::Text;
use geo_model::Feature;
use std::marker::Model;

/// A layer of data: a name and its features in order.
#[derive(Drop)]
pub struct Layer {
    pub name: Text,
    pub features: Vec<Feature>,
}

impl Model for Layer {
    ghost use Rattle.plain_shapes.specs.Features.{Layer};

    ghost Value = { Layer };

    ghost view = { λ l. record { name = l.name; features = l.features.items } };
}

/// A change of one layer: the ids to be removed, and then the features to be put.
#[derive(Drop)]
pub struct Change {
    pub layer: Text,
    pub remove: Vec<u64>,
    pub put: Vec<Feature>,
}

impl Model for Change {
    ghost use Rattle.plain_shapes.specs.Data.{Change};

    ghost Value = { Change };

    ghost view = { λ c. record { layer = c.layer; remove = c.remove.items; put = c.put.items } };
}

/// Data to begin with: at most 64 layers of distinct names of 1 to 64 bytes, each with at most 1,000,000
/// features of distinct ids. Contracts see them as the list of their layers.
#[derive(Drop)]
pub struct Dataset {
    layers: Vec<Layer>,
}

impl Model for Dataset {
    ghost use Rattle.std.specs.Prelude.{List};
    ghost use Rattle.plain_shapes.specs.Features.{Layer};
    ghost use Rattle.plain_shapes.specs.Data.{IsDataset};

    ghost Value = { List Layer };

    ghost view = { λ d. d.layers.items };

    ghost invariant = { λ d. IsDataset d.layers.items };
}

impl Dataset {
    /// The data of these layers. The caller sees to it that there are at most 64 layers,
    /// that their names have 1 to 64 bytes and are distinct, and that each has at most 1,000,000 features,
    /// of distinct ids.
    pub fn of(layers: Vec<Layer>) -> Dataset
        requires { IsDataset layers.items }
        ensures { result ≡ layers.items }
    {
        Dataset { layers }
    }

    /// The layers in order.
    pub fn layers(&self) -> &[Layer]
        ensures value { result.now ≡ self.now }
        ensures valid { IsDataset self.now }
    {
        self.layers.as_slice()
    }

    /// The layers as a vector, which is moved out.
    pub(crate) fn into_layers(self) -> Vec<Layer>
        ensures value { result.items ≡ self }
        ensures valid { IsDataset self }
    {
        self.layers
    }
}

/// An update: at most 1,000,000 changes, each of a layer whose name has 1 to 64 bytes and with at most
/// 1,000,000 puts. Contracts see it as the list of its changes.
#[derive(Drop)]
pub struct Update {
    changes: Vec<Change>,
}

impl Model for Update {
    ghost use Rattle.std.specs.Prelude.{List};
    ghost use Rattle.plain_shapes.specs.Data.{Change, IsUpdate};

    ghost Value = { List Change };

    ghost view = { λ u. u.changes.items };

    ghost invariant = { λ u. IsUpdate u.changes.items };
}

impl Update {
    /// The update of these changes. The caller sees to it that there are at most 1,000,000
    /// changes, that their layers' names have 1 to 64 bytes, and that each has at most 1,000,000 puts.
    pub fn of(changes: Vec<Change>) -> Update
        requires { IsUpdate changes.items }
        ensures { result ≡ changes.items }
    {
        Update { changes }
    }

    /// The changes in order.
    pub fn changes(&self) -> &[Change]
        ensures value { result.now ≡ self.now }
        ensures valid { IsUpdate self.now }
    {
        self.changes.as_slice()
    }
}
