// Lookups in the tables of a state. Without a record every field of the answer is zero.
// After crates/prom-ui/src/local_projection_state.rs.
#![tactic(auto)]

pub mod positions;

ghost use Rattle.std.specs.Prelude.{◌≡◌};
ghost use Rattle.spec_patch.specs.Sizes.{projection_bindings, projection_availabilities, projection_entries};
ghost use Rattle.std.proofs.Math.Option.{none, some};
ghost use Rattle.spec_projection.specs.Projection.{NodeAvailability, Projection};
ghost use Rattle.spec_projection.specs.Lookups.{binding_of, binding_mark, availability_of, availability_mark, entry_of, entry_mark};
ghost use Rattle.spec_projection.specs.Valid.{FitsNodeAvailability, Valid};
ghost use Rattle.panel_rows.specs.Rows.{binding_width, availability_width, entry_width, binding_row, availability_row, entry_row};
ghost use Rattle.local_projection_state.specs.Stores.{Stored};
ghost use Rattle.panel_rows.specs.Lookup.{value_lookup, availability_lookup};

use panel_entries::find;
use panel_rows::values::{AvailabilityLookup, ValueLookup};
use panel_rows::{fields, values};

// The value of a binding in a table of bindings, and its mark.
pub fn binding_value(table: &[u8], count: usize, node: u64, slot: u32) -> ValueLookup
    ensures { (p : Projection) → Stored binding_row binding_width projection_bindings count table.now p.bindings → Valid p
        → result ≡ value_lookup (binding_mark p node slot) (binding_of p node slot) }
{
    let width = panel_rows::BINDING_WIDTH;
    match bytes_records::find_pair_place(
        table,
        width,
        count,
        node,
        panel_rows::SLOT_WIDTH,
        slot as u64,
    ) {
        Ok(at) => {
            let row = bytes_records::record_at(table, width, count, at);
            values::stored_value(row, panel_rows::BINDING_VALUE, fields::binding_mark(row))
        }
        Err(_) => values::no_value(),
    }
}

fn no_availability() -> AvailabilityLookup
    ensures { result ≡ availability_lookup none none }
{
    AvailabilityLookup {
        found: false,
        mark: 0,
        availability: 0,
    }
}

// The availability that is stored in a row, and its mark.
fn stored_availability(row: &[u8]) -> AvailabilityLookup
    ensures { (a : NodeAvailability) → FitsNodeAvailability a → row.now ≡ availability_row a → result ≡ availability_lookup (some a.mark) (some a.availability) }
{
    AvailabilityLookup {
        found: true,
        mark: fields::availability_mark(row),
        availability: fields::availability_byte(row),
    }
}

// A node's availability in a table of availabilities, and its mark.
pub fn node_availability(table: &[u8], count: usize, node: u64) -> AvailabilityLookup
    ensures { (p : Projection) → Stored availability_row availability_width projection_availabilities count table.now p.availabilities → Valid p
        → result ≡ availability_lookup (availability_mark p node) (availability_of p node) }
{
    let width = panel_rows::AVAILABILITY_WIDTH;
    match bytes_records::find_place(table, width, count, node) {
        Ok(at) => stored_availability(bytes_records::record_at(table, width, count, at)),
        Err(_) => no_availability(),
    }
}

// The value of a collection's key in a table of entries, and its mark.
pub fn entry_value(table: &[u8], count: usize, collection: u64, key: u64) -> ValueLookup
    ensures { (p : Projection) → Stored entry_row entry_width projection_entries count table.now p.entries → Valid p
        → result ≡ value_lookup (entry_mark p collection key) (entry_of p collection key) }
{
    let width = panel_rows::ENTRY_WIDTH;
    match find::find_entry(table, width, count, collection, key) {
        Some(at) => {
            let row = bytes_records::record_at(table, width, count, at);
            values::stored_value(row, panel_rows::ENTRY_VALUE, fields::entry_mark(row))
        }
        None => values::no_value(),
    }
}
