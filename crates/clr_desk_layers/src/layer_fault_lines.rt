//! The line of the first layer that can't be read.

ghost use Rattle.std.specs.Prelude.{◌≡◌, IfOk};
ghost use Rattle.clr_desk_layers.specs.FaultyLayers.{fault_line, table_at};

use clr_layer_changes::{FaultyLayer, GivenLayer};
use clr_layer_faults::table_fault_line;
use std::alloc::{AllocError, Global};

/// Returns the table of the layer at a position, as it is named with the layer, or no bytes past the last layer.
fn table_at(layers: &[GivenLayer], at: usize) -> &str
    ensures { result.now ≡ table_at layers.now at }
{
    match layers.get(at) {
        Some(layer) => layer.table.as_str(),
        None => "",
    }
}

/// Returns the line of the first layer with a fault: the name of its table, the fault's number and name, and the number of the record.
pub(crate) fn fault_line(
    alloc: Global,
    layers: &[GivenLayer],
    faulty: &FaultyLayer,
) -> Result<Vec<u8>, AllocError>
    ensures { IfOk result (λ line. line.items ≡ fault_line layers.now faulty.now) }
{
    table_fault_line(
        alloc,
        table_at(layers, faulty.layer),
        faulty.fault,
        faulty.number,
    )
}
