// The exported calls that read a session: look-ups, a page of them, the listing and the print of a collection.
ghost use Rattle.std.specs.Prelude.{◌≡◌};
ghost use Rattle.std.proofs.Math.Option.{Option};
ghost use Rattle.spec_page.specs.Page.{PageEntry};
ghost use Rattle.panel_page.specs.PageTable.{answer_row, FitsAnswer, page_lookup};
ghost use Rattle.session_lent_views.specs.Views.{BindingView, AvailabilityView, EntryView, CountView, PlaceView, LengthView, ListingCall, PrintCall, PageCall};
ghost use Rattle.c_answers.specs.Counts.{count_told, listing_told, print_told, page_told};
ghost use Rattle.c_answers.specs.Values.{value_told, entry_told, place_told, availability_told};
ghost use Rattle.c_exports.specs.Calls.{Told};

use c_answers::counts::GeysertrayCount;
use c_answers::values::{
    GeysertrayAvailability, GeysertrayEntry, GeysertrayPagePlace, GeysertrayValue,
};
use c_answers::{counts, values};
use local_projection_state::LocalProjectionState;
use panel_page::rows::PageLookup;
use session_lent::head;
use session_lent_views::{listing, lookups, page, print};

// The value of a binding.
pub fn geysertray_binding_value(
    head: &[u64; head::NUMBERS],
    bindings: &[u8; LocalProjectionState::BINDING_BYTES],
    node: u64,
    slot: u32,
) -> GeysertrayValue
    ensures { Told value_told (BindingView head.now bindings.now node slot) result }
{
    let answer = lookups::binding_value(head, bindings, node, slot);
    values::value_told(answer)
}

// The availability of a node.
pub fn geysertray_node_availability(
    head: &[u64; head::NUMBERS],
    availability: &[u8; LocalProjectionState::AVAILABILITY_BYTES],
    node: u64,
) -> GeysertrayAvailability
    ensures { Told availability_told (AvailabilityView head.now availability.now node) result }
{
    let answer = lookups::node_availability(head, availability, node);
    values::availability_told(answer)
}

// The value of a collection's key.
pub fn geysertray_entry_value(
    head: &[u64; head::NUMBERS],
    entries: &[u8; LocalProjectionState::ENTRY_BYTES],
    collection: u64,
    key: u64,
) -> GeysertrayValue
    ensures { Told value_told (EntryView head.now entries.now collection key) result }
{
    let answer = lookups::entry_value(head, entries, collection, key);
    values::value_told(answer)
}

// How many entries a collection has, counted in the table of entries.
pub fn geysertray_entry_count(
    head: &[u64; head::NUMBERS],
    entries: &[u8; LocalProjectionState::ENTRY_BYTES],
    collection: u64,
) -> GeysertrayCount
    ensures { Told count_told (CountView head.now entries.now collection) result }
{
    let answer = lookups::entry_count(head, entries, collection);
    counts::count_told(answer)
}

// The entry at a position of a collection, from 0.
pub fn geysertray_entry_at(
    head: &[u64; head::NUMBERS],
    entries: &[u8; LocalProjectionState::ENTRY_BYTES],
    collection: u64,
    position: usize,
) -> GeysertrayEntry
    ensures { Told entry_told (PlaceView head.now entries.now collection position) result }
{
    let answer = lookups::entry_at(head, entries, collection, position);
    values::entry_told(answer)
}

// How many entries a collection has, told by the table of lengths alone.
pub fn geysertray_collection_length(
    head: &[u64; head::NUMBERS],
    lengths: &[u8; LocalProjectionState::LENGTH_BYTES],
    collection: u64,
) -> GeysertrayCount
    ensures { Told count_told (LengthView head.now lengths.now collection) result }
{
    let answer = lookups::collection_length(head, lengths, collection);
    counts::count_told(answer)
}

// Looks up to 64 keys of a collection up together: a row of GEYSERTRAY_PAGE_WIDTH bytes for each, in their order, and the count is that of the
// rows; 16 for more keys, 14 for too little room. What is behind the rows stays.
pub fn geysertray_collection_page(
    head: &[u64; head::NUMBERS],
    entries: &[u8; LocalProjectionState::ENTRY_BYTES],
    collection: u64,
    keys: &[u64],
    answers: &mut [u8],
) -> GeysertrayCount
    ensures { Told page_told (λ a. PageCall head.now entries.now collection keys.now answers.old a answers.new) result }
{
    let answer = page::collection_page(head, entries, collection, keys, answers);
    counts::page_told(answer)
}

// Takes a row of a page apart. Of other bytes it tells some value, or none.
pub fn geysertray_page_row(row: &[u8; PageLookup::WIDTH]) -> GeysertrayPagePlace
    ensures { (a : Option PageEntry) → FitsAnswer a → row.now ≡ answer_row a → result ≡ place_told (page_lookup a) }
{
    let place = PageLookup::read(row);
    values::place_told(place)
}

// Prints a collection for paper, whole or not at all; the count is that of the bytes; 14 for too little room. What is behind them stays.
pub fn geysertray_print_collection(
    head: &[u64; head::NUMBERS],
    entries: &[u8; LocalProjectionState::ENTRY_BYTES],
    collection: u64,
    out: &mut [u8],
) -> GeysertrayCount
    ensures { Told print_told (λ a. PrintCall head.now entries.now collection out.old a out.new) result }
{
    let answer = print::print_collection(head, entries, collection, out);
    counts::print_told(answer)
}

// Writes the listing of a session's panel, whole or not at all; the count is that of the bytes; 14 for too little room. What is behind them stays.
pub fn geysertray_listing(
    head: &[u64; head::NUMBERS],
    bindings: &[u8; LocalProjectionState::BINDING_BYTES],
    availability: &[u8; LocalProjectionState::AVAILABILITY_BYTES],
    entries: &[u8; LocalProjectionState::ENTRY_BYTES],
    out: &mut [u8],
) -> GeysertrayCount
    ensures { Told listing_told (λ a. ListingCall head.now bindings.now availability.now entries.now out.old a out.new) result }
{
    let answer = listing::write_projection(head, bindings, availability, entries, out);
    counts::listing_told(answer)
}
