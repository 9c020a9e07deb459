// The rows of an answer table: whether the key was found, its position in the collection, its mark, and its value's canonical bytes padded
// with zeros. A key that was not found has a row of zeros.
ghost use Rattle.std.specs.Prelude.{◌≡◌, ◌∷◌, ◌+◌};
ghost use Rattle.std.proofs.Math.Option.{Option, none};
ghost use Rattle.spec_patch.specs.Encode.{u64 as eightBytes};
ghost use Rattle.spec_page.specs.Page.{PageEntry};
ghost use Rattle.panel_page.specs.PageTable.{answer_row, FitsAnswer, page_lookup};

use panel_rows::values::ValueLookup;
use panel_rows::{fields, values};

const FOUND_WIDTH: usize = 1;

const POSITION_WIDTH: usize = 8;

const PAGE_MARK: usize = FOUND_WIDTH + POSITION_WIDTH;

const PAGE_VALUE: usize = PAGE_MARK + panel_rows::MARK_WIDTH;

// The value of a key with its mark, and its position in the collection, from 0; or every field zero.
#[derive(Drop)]
pub struct PageLookup {
    pub position: u64,
    pub value: ValueLookup,
}

impl PageLookup {
    // The most keys of a page.
    pub const KEYS: usize = 64;

    // The bytes of a row.
    pub const WIDTH: usize = PAGE_VALUE + panel_rows::VALUE_WIDTH;

    // Takes a row apart.
    pub fn read(row: &[u8]) -> PageLookup
        ensures { (a : Option PageEntry) → FitsAnswer a → row.now ≡ answer_row a → result ≡ page_lookup a }
    {
        if fields::number_at(row, 0, FOUND_WIDTH) == 0 {
            return no_answer();
        }
        let position = fields::number_at(row, FOUND_WIDTH, POSITION_WIDTH);
        let mark = fields::number_at(row, PAGE_MARK, panel_rows::MARK_WIDTH);
        let value = values::stored_value(row, PAGE_VALUE, mark);
        PageLookup { position, value }
    }
}

fn no_answer() -> PageLookup
    ensures { result ≡ page_lookup none }
{
    let value = values::no_value();
    PageLookup { position: 0, value }
}

// What stands in a row before the mark.
pub(crate) fn answer_head(position: u64) -> [u8; PAGE_MARK]
    ensures { result ≡ 1 ∷ eightBytes position }
{
    let mut head = [0u8; PAGE_MARK];
    head[0] = 1;
    bytes_wire::write_u64_at(&mut head, FOUND_WIDTH, position);
    head
}
