// The fields of a row, read from any bytes: a field that is cut short is the number that is left of it.
ghost use Rattle.std.specs.Prelude.{◌≡◌, ◌≤◌, take, drop};
ghost use Rattle.panel_rows.specs.Rows.{field_at, node_in, slot_in, availability_in, collection_in, key_in, binding_mark_in, availability_mark_in, entry_mark_in};

use crate::{
    AVAILABILITY, AVAILABILITY_MARK, BINDING_MARK, BINDING_SLOT, ENTRY_KEY, ENTRY_MARK, ID_WIDTH,
    MARK_WIDTH, SLOT_WIDTH,
};

// The fields before an offset.
pub fn key_part(row: &[u8], at: usize) -> &[u8]
    ensures { result.now ≡ take at row.now }
{
    row.get(..at).unwrap_or(row)
}

// What stands from an offset on. Behind the end it is an empty part of the row and not `&[]`: the compiler keeps one address so.
pub fn value_part(row: &[u8], at: usize) -> &[u8]
    ensures { result.now ≡ drop at row.now }
{
    row.get(at..).unwrap_or(&row[..0])
}

// The number of so many bytes from an offset on.
pub fn number_at(row: &[u8], at: usize, size: usize) -> u64
    requires { size ≤ 8 }
    ensures { result ≡ field_at at size row.now }
{
    bytes_records::keys::number_of(key_part(value_part(row, at), size))
}

pub fn binding_node(row: &[u8]) -> u64
    ensures { result ≡ node_in row.now }
{
    number_at(row, 0, ID_WIDTH)
}

pub fn binding_slot(row: &[u8]) -> u64
    ensures { result ≡ slot_in row.now }
{
    number_at(row, BINDING_SLOT, SLOT_WIDTH)
}

pub fn binding_mark(row: &[u8]) -> u64
    ensures { result ≡ binding_mark_in row.now }
{
    number_at(row, BINDING_MARK, MARK_WIDTH)
}

pub fn availability_node(row: &[u8]) -> u64
    ensures { result ≡ node_in row.now }
{
    number_at(row, 0, ID_WIDTH)
}

pub fn availability_mark(row: &[u8]) -> u64
    ensures { result ≡ availability_mark_in row.now }
{
    number_at(row, AVAILABILITY_MARK, MARK_WIDTH)
}

pub fn availability_byte(row: &[u8]) -> u8
    ensures { result ≡ availability_in row.now }
{
    row.get(AVAILABILITY).copied().unwrap_or(0)
}

pub fn entry_collection(row: &[u8]) -> u64
    ensures { result ≡ collection_in row.now }
{
    number_at(row, 0, ID_WIDTH)
}

pub fn entry_key(row: &[u8]) -> u64
    ensures { result ≡ key_in row.now }
{
    number_at(row, ENTRY_KEY, ID_WIDTH)
}

pub fn entry_mark(row: &[u8]) -> u64
    ensures { result ≡ entry_mark_in row.now }
{
    number_at(row, ENTRY_MARK, MARK_WIDTH)
}
