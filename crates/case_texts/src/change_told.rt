//! What the layers of data hold after an update, in lines.
use crate::fault_told::tell_fault;
use data_versions::{ApplyFault, LayerView, Snapshot, Update, apply};
use geo_json::read_update;
use noted_puts::Letters;
use std::alloc::Global;

fn tell_layer(told: &mut Letters, view: &LayerView<'_>) {
    for place in 0..view.len() {
        match view.get(place) {
            Some(feature) => {
                told.put_next(feature.id());
                told.put("@");
                told.put_number(feature.bbox().west);
            }
            None => told.put(" none"),
        }
    }
    told.put("\n");
}

fn tell_layers(told: &mut Letters, snapshot: &Snapshot) {
    for name in ["land", "sea"] {
        if let Some(view) = snapshot.layer(name) {
            told.put(name);
            tell_layer(told, &view);
        }
    }
}

fn tell_refusal(told: &mut Letters, fault: ApplyFault) {
    match fault {
        ApplyFault::NoLayer(change) => told.put_with("no layer", change),
        ApplyFault::NoFeature(change, id) => {
            told.put_with("no feature", change);
            told.put_next(id);
        }
        ApplyFault::TooMany(change) => told.put_with("too many", change),
        ApplyFault::NoMemory => told.cut(),
    }
}

fn tell_applied(alloc: Global, told: &mut Letters, old: &Snapshot, update: &Update) {
    match apply(alloc, old, update) {
        Ok(next) => {
            tell_layers(told, &next);
            drop(next);
        }
        Err(fault) => tell_refusal(told, fault),
    }
}

/// The fault of the update, or a line for each layer after it.
pub(crate) fn tell_change(alloc: Global, told: &mut Letters, old: &Snapshot, text: &[u8]) {
    match read_update(alloc, text) {
        Ok(update) => {
            tell_applied(alloc, told, old, &update);
            drop(update);
        }
        Err(fault) => tell_fault(alloc, told, fault),
    }
}
