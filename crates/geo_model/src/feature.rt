//! A feature: an id, a shape and attributes that keep the limits of the farm's data.
ghost use Rattle.std.specs.Prelude.{◌≡◌, IfOk, MatchResult, Some, None};
ghost use Rattle.geo_model.specs.Bounds.{bounds_of, IsLeastBounds};
ghost use Rattle.geo_model.specs.Shapes.{parts_of, fault_of, IsShape, IsAttrs};

use crate::bounds::{Bounds, bounds_of};
use crate::checks::{check_attrs, check_shape, parts_of};
use crate::copies::{copy_attrs, copy_geometry};
use crate::faults::GeoFault;
use farm_base::{Attr, NoMemory};
use plain_shapes::Geometry;
use std::alloc::Global;
use std::marker::Model;

/// A feature, which contracts see as its id, its shape and its attributes. Its parts have no fault: see
/// [`make_feature`].
#[derive(Drop)]
pub struct Feature {
    id: u64,
    geometry: Geometry,
    attrs: Vec<Attr>,
    bounds: Bounds,
}

impl Model for Feature {
    ghost use Rattle.std.specs.Prelude.{◌≡◌, None};
    ghost use Rattle.plain_shapes.specs.Features.{Feature};
    ghost use Rattle.geo_model.specs.Bounds.{bounds_of};
    ghost use Rattle.geo_model.specs.Shapes.{parts_of, fault_of};

    ghost Value = { Feature };

    ghost view = { λ f. record { id = f.id; geometry = f.geometry; attrs = f.attrs.items } };

    ghost invariant = { λ f. (fault_of f.geometry f.attrs.items ≡ None)
        × (f.bounds ≡ bounds_of (parts_of f.geometry)) };
}

/// The feature of the parts, or their first fault in the order of [`GeoFault`].
pub fn make_feature(id: u64, geometry: Geometry, attrs: Vec<Attr>) -> Result<Feature, GeoFault>
    ensures made { IfOk result
        (λ f. f ≡ record { id = id; geometry = geometry; attrs = attrs.items }) }
    ensures first { MatchResult result (λ _. fault_of geometry attrs.items ≡ None)
        (λ e. fault_of geometry attrs.items ≡ Some e) }
{
    check_shape(&geometry)?;
    check_attrs(attrs.as_slice())?;
    let bounds = bounds_of(parts_of(&geometry));
    Ok(Feature {
        id,
        geometry,
        attrs,
        bounds,
    })
}

impl Feature {
    /// The feature's id.
    pub fn id(&self) -> u64
        ensures { result ≡ self.now.id }
    {
        self.id
    }

    /// The feature's shape, in which there are enough points, all within the world, and at most 65,536.
    pub fn geometry(&self) -> &Geometry
        ensures value { result.now ≡ self.now.geometry }
        ensures valid { IsShape self.now.geometry }
    {
        &self.geometry
    }

    /// The feature's attributes: at most 64, of distinct names.
    pub fn attrs(&self) -> &[Attr]
        ensures value { result.now ≡ self.now.attrs }
        ensures valid { IsAttrs self.now.attrs }
    {
        self.attrs.as_slice()
    }

    /// The least rectangle that holds all points of the feature.
    pub fn bbox(&self) -> Bounds
        ensures value { result ≡ bounds_of (parts_of self.now.geometry) }
        ensures least { IsLeastBounds result (parts_of self.now.geometry) }
    {
        self.bounds
    }

    /// An equal feature.
    pub fn copy(&self, alloc: Global) -> Result<Feature, NoMemory>
        ensures { IfOk result (λ f. f ≡ self.now) }
    {
        Ok(Feature {
            id: self.id,
            geometry: copy_geometry(alloc, &self.geometry)?,
            attrs: copy_attrs(alloc, self.attrs.as_slice())?,
            bounds: self.bounds,
        })
    }
}
