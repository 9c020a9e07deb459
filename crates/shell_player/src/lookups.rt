// Lookups in the projection of a session. Without a record every field of the answer is zero.
ghost use Rattle.std.specs.Prelude.{◌≡◌};
ghost use Rattle.spec_projection.specs.Lookups.{binding_of, binding_mark, availability_of, availability_mark, entry_of, entry_mark, entry_at, entry_count};
ghost use Rattle.spec_session.specs.Session.{Session};
ghost use Rattle.panel_rows.specs.Lookup.{value_lookup, availability_lookup};
ghost use Rattle.panel_lookups.specs.Nth.{entry_lookup};
ghost use Rattle.shell_player.specs.Holds.{Holds};

use crate::session::ShellSession;
use panel_lengths::lookup;
use panel_lookups::positions;
use panel_lookups::positions::EntryLookup;
use panel_rows::values::{AvailabilityLookup, ValueLookup};

impl ShellSession {
    // The value of a binding, and its mark.
    pub fn binding_value(self, node: u64, slot: u32) -> ValueLookup
        ensures { (m : Session) → Holds self m → result ≡ value_lookup (binding_mark m.projection node slot) (binding_of m.projection node slot) }
    {
        let table = self.local_projection.bindings;
        let counts = self.local_projection.counts;
        panel_lookups::binding_value(&table, counts.bindings, node, slot)
    }

    // A node's availability, and its mark.
    pub fn node_availability(self, node: u64) -> AvailabilityLookup
        ensures { (m : Session) → Holds self m → result ≡ availability_lookup (availability_mark m.projection node) (availability_of m.projection node) }
    {
        let table = self.local_projection.availability;
        let counts = self.local_projection.counts;
        panel_lookups::node_availability(&table, counts.availabilities, node)
    }

    // The value of a collection's key, and its mark.
    pub fn entry_value(self, collection: u64, key: u64) -> ValueLookup
        ensures { (m : Session) → Holds self m → result ≡ value_lookup (entry_mark m.projection collection key) (entry_of m.projection collection key) }
    {
        let table = self.local_projection.entries;
        let counts = self.local_projection.counts;
        panel_lookups::entry_value(&table, counts.entries, collection, key)
    }

    // How many entries a collection has.
    pub fn entry_count(self, collection: u64) -> usize
        ensures { (m : Session) → Holds self m → result ≡ entry_count m.projection collection }
    {
        let table = self.local_projection.entries;
        let counts = self.local_projection.counts;
        positions::entry_count(&table, counts.entries, collection)
    }

    // How many entries a collection has, as it is stored, without a look at the entries.
    pub fn collection_length(self, collection: u64) -> u64
        ensures { (m : Session) → Holds self m → result ≡ entry_count m.projection collection }
    {
        let table = self.local_projection.lengths;
        lookup::collection_length(&table, collection)
    }

    // The entry at a position of its collection, from 0, and its mark.
    pub fn entry_at(self, collection: u64, position: usize) -> EntryLookup
        ensures { (m : Session) → Holds self m → result ≡ entry_lookup (entry_at m.projection collection position) }
    {
        let table = self.local_projection.entries;
        let counts = self.local_projection.counts;
        positions::entry_at(&table, counts.entries, collection, position)
    }
}
