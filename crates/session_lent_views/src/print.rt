// The print of a collection of a lent session.
ghost use Rattle.session_lent_views.specs.Views.{PrintCall};

use crate::tables;
use panel_print::PrintRefusal;

// Prints a collection into a lent slice, whole or not at all; none where the slices cannot hold a session. 14 and none leave every byte.
pub fn print_collection(
    head: &[u64],
    entries: &[u8],
    collection: u64,
    out: &mut [u8],
) -> Option<Result<usize, PrintRefusal>>
    ensures { PrintCall head.now entries.now collection out.old result out.new }
{
    let count = tables::entry_rows(head, entries.len())?;
    Some(panel_print::print_collection(entries, count, collection, out))
}
