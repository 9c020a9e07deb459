// A page of keys of a lent session, looked up together: 02, Job 7.
ghost use Rattle.session_lent_views.specs.Views.{PageCall};

use crate::tables;
use panel_page::PageRefusal;

// One row for each key of a collection, in their order; none where the slices cannot hold a session. Places behind the last key stay; a refusal
// and none leave every byte.
pub fn collection_page(
    head: &[u64],
    entries: &[u8],
    collection: u64,
    keys: &[u64],
    answers: &mut [u8],
) -> Option<Result<usize, PageRefusal>>
    ensures { PageCall head.now entries.now collection keys.now answers.old result answers.new }
{
    let count = tables::entry_rows(head, entries.len())?;
    Some(panel_page::collection_page(entries, count, collection, keys, answers))
}
