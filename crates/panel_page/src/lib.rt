// Looks up a page of keys together: 02, Job 7. The keys are indexed once, and then each row of the table is read once.
#![tactic(auto)]

mod entries;
mod index;
mod places;
pub mod rows;

ghost use Rattle.std.specs.Prelude.{◌≡◌, ◌*◌, ◌/◌, ◌≤◌, length};
ghost use Rattle.spec_patch.specs.Sizes.{projection_entries};
ghost use Rattle.spec_projection.specs.Projection.{Projection};
ghost use Rattle.spec_projection.specs.Valid.{Valid};
ghost use Rattle.spec_page.specs.Page.{page_keys, page_number, page_refusal, table_left};
ghost use Rattle.panel_rows.specs.Rows.{entry_width, entry_row};
ghost use Rattle.local_projection_state.specs.Stores.{Stored};
ghost use Rattle.panel_page.specs.PageTable.{page_width, page_bytes, page_refusal_of, page_answer, OtherPlacesKept};

use rows::PageLookup;

#[derive(Clone, Copy)]
pub enum PageRefusal {
    TooManyKeys,
    TooFewPlaces,
}

impl PageRefusal {
    // 02's number.
    pub fn number(self) -> u64
        ensures { result ≡ page_number (page_refusal_of self) }
    {
        match self {
            PageRefusal::TooManyKeys => 16,
            PageRefusal::TooFewPlaces => 14,
        }
    }
}

// Makes answers the rows of the keys: those that are found, and zeros for the others.
fn fill_page(table: &[u8], count: usize, collection: u64, keys: &[u64], answers: &mut [u8])
    requires { (length keys.now ≤ page_keys) × (length answers.old ≡ length keys.now * page_width) }
    ensures { (p : Projection) → Stored entry_row entry_width projection_entries count table.now p.entries → Valid p
        → answers.new ≡ page_bytes p collection keys.now }
{
    let mut heads = [0usize; index::KEY_PLACES];
    let mut earlier = [0usize; PageLookup::KEYS];
    index::index_keys(keys, &mut heads, &mut earlier);
    places::change_places(answers, keys.len(), false);
    entries::answer_rows(table, count, collection, keys, &heads, &earlier, answers);
    places::change_places(answers, keys.len(), true);
}

// Looks the keys of a collection up in a table of entries, and writes one row for each into the answers, in their order; the answer is how
// many. Places behind the last key stay; a refusal leaves every byte. Of a table that stores no projection the rows hold some of its bytes, or are zero.
pub fn collection_page(
    table: &[u8],
    count: usize,
    collection: u64,
    keys: &[u64],
    answers: &mut [u8],
) -> Result<usize, PageRefusal>
    ensures told { result ≡ page_answer (length keys.now) (page_refusal (length keys.now) (length answers.old / page_width)) }
    ensures written { (p : Projection) → Stored entry_row entry_width projection_entries count table.now p.entries → Valid p
        → answers.new ≡ table_left (page_refusal (length keys.now) (length answers.old / page_width)) (page_bytes p collection keys.now) answers.old }
    ensures kept { OtherPlacesKept answers.old answers.new result }
{
    if PageLookup::KEYS < keys.len() {
        return Err(PageRefusal::TooManyKeys);
    }
    if answers.len() / PageLookup::WIDTH < keys.len() {
        return Err(PageRefusal::TooFewPlaces);
    }
    let end = keys.len() * PageLookup::WIDTH;
    fill_page(table, count, collection, keys, &mut answers[..end]);
    Ok(keys.len())
}
