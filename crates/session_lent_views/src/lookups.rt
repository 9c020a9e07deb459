// Look-ups in the tables of a lent session; none where head and table cannot be a session's. Without a record every field of the answer is zero.
ghost use Rattle.session_lent_views.specs.Views.{BindingView, AvailabilityView, EntryView, CountView, PlaceView, LengthView};

use crate::tables;
use panel_lengths::lookup;
use panel_lookups::positions;
use panel_lookups::positions::EntryLookup;
use panel_rows::values::{AvailabilityLookup, ValueLookup};

// The value of a binding, and its mark.
pub fn binding_value(head: &[u64], bindings: &[u8], node: u64, slot: u32) -> Option<ValueLookup>
    ensures { BindingView head.now bindings.now node slot result }
{
    let count = tables::binding_rows(head, bindings.len())?;
    Some(panel_lookups::binding_value(bindings, count, node, slot))
}

// A node's availability, and its mark.
pub fn node_availability(head: &[u64], availability: &[u8], node: u64) -> Option<AvailabilityLookup>
    ensures { AvailabilityView head.now availability.now node result }
{
    let count = tables::availability_rows(head, availability.len())?;
    Some(panel_lookups::node_availability(availability, count, node))
}

// The value of a collection's key, and its mark.
pub fn entry_value(head: &[u64], entries: &[u8], collection: u64, key: u64) -> Option<ValueLookup>
    ensures { EntryView head.now entries.now collection key result }
{
    let count = tables::entry_rows(head, entries.len())?;
    Some(panel_lookups::entry_value(entries, count, collection, key))
}

// How many entries a collection has.
pub fn entry_count(head: &[u64], entries: &[u8], collection: u64) -> Option<usize>
    ensures { CountView head.now entries.now collection result }
{
    let count = tables::entry_rows(head, entries.len())?;
    Some(positions::entry_count(entries, count, collection))
}

// The entry at a position of its collection, from 0, and its mark.
pub fn entry_at(
    head: &[u64],
    entries: &[u8],
    collection: u64,
    position: usize,
) -> Option<EntryLookup>
    ensures { PlaceView head.now entries.now collection position result }
{
    let count = tables::entry_rows(head, entries.len())?;
    Some(positions::entry_at(entries, count, collection, position))
}

// How many entries a collection has, told by the table of lengths alone.
pub fn collection_length(head: &[u64], lengths: &[u8], collection: u64) -> Option<usize>
    ensures { LengthView head.now lengths.now collection result }
{
    tables::length_rows(head, lengths.len())?;
    Some(lookup::collection_length(lengths, collection) as usize)
}
