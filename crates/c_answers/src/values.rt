// Looked-up values as numbers and the bytes of a text.
ghost use Rattle.std.specs.Prelude.{◌≡◌};
ghost use Rattle.c_answers.specs.Values.{bit, value_number_to, value_told, entry_told, place_told, availability_told};

use panel_lookups::positions::EntryLookup;
use panel_page::rows::PageLookup;
use panel_rows::values;
use panel_rows::values::{AvailabilityLookup, ValueLookup};
use projection_patch::patch::ProjectionPatchValue;

// 0, or 3 for no session in the memory; found is 1, or 0 and then every other number and byte is 0; the mark is the id of the patch that last
// gave the value. The kinds are 1 quad (N 0, F 1, T 2, S 3), 2 signed, 3 text, 4 unsigned, 5 score, which stands in unsigned_number.
#[repr(C)]
#[derive(Clone, Copy)]
pub struct GeysertrayValue {
    pub disposition: u64,
    pub found: u64,
    pub mark: u64,
    pub kind: u64,
    pub quad: u64,
    pub signed_number: i64,
    pub unsigned_number: u64,
    pub text_length: u64,
    pub text: [u8; ProjectionPatchValue::TEXT_BYTES],
}

// Likewise; the availability is 0 Available, 1 Unavailable, 2 Hidden, 3 Pending, 4 Stale.
#[repr(C)]
#[derive(Clone, Copy)]
pub struct GeysertrayAvailability {
    pub disposition: u64,
    pub found: u64,
    pub mark: u64,
    pub availability: u64,
}

// The entry at a position: its key, and its value.
#[repr(C)]
#[derive(Clone, Copy)]
pub struct GeysertrayEntry {
    pub key: u64,
    pub value: GeysertrayValue,
}

// A key of a page: its position in the collection, and its value.
#[repr(C)]
#[derive(Clone, Copy)]
pub struct GeysertrayPagePlace {
    pub position: u64,
    pub value: GeysertrayValue,
}

const NO_SESSION: u64 = 3;

fn bit(is: bool) -> u64
    ensures { result ≡ bit is }
{
    u64::from(is)
}

fn value_to(disposition: u64, value: ValueLookup) -> GeysertrayValue
    ensures { result ≡ value_number_to disposition value }
{
    let text = value.text;
    GeysertrayValue {
        disposition,
        found: bit(value.found),
        mark: value.mark,
        kind: value.kind as u64,
        quad: value.quad as u64,
        signed_number: value.signed,
        unsigned_number: value.unsigned,
        text_length: value.text_len as u64,
        text,
    }
}

pub fn value_told(answer: Option<ValueLookup>) -> GeysertrayValue
    ensures { result ≡ value_told answer }
{
    match answer {
        Some(value) => value_to(0, value),
        None => value_to(NO_SESSION, values::no_value()),
    }
}

pub fn entry_told(answer: Option<EntryLookup>) -> GeysertrayEntry
    ensures { result ≡ entry_told answer }
{
    match answer {
        Some(entry) => GeysertrayEntry {
            key: entry.key,
            value: value_to(0, entry.value),
        },
        None => GeysertrayEntry {
            key: 0,
            value: value_to(NO_SESSION, values::no_value()),
        },
    }
}

pub fn place_told(place: PageLookup) -> GeysertrayPagePlace
    ensures { result ≡ place_told place }
{
    GeysertrayPagePlace {
        position: place.position,
        value: value_to(0, place.value),
    }
}

pub fn availability_told(answer: Option<AvailabilityLookup>) -> GeysertrayAvailability
    ensures { result ≡ availability_told answer }
{
    match answer {
        Some(node) => GeysertrayAvailability {
            disposition: 0,
            found: bit(node.found),
            mark: node.mark,
            availability: node.availability as u64,
        },
        None => GeysertrayAvailability {
            disposition: NO_SESSION,
            found: 0,
            mark: 0,
            availability: 0,
        },
    }
}
