// The listing of a lent session's projection.
ghost use Rattle.session_lent_views.specs.Views.{ListingCall};

use patch_part_writer::written::WriteRefusal;
use session_lent::{head, shape};

// Writes the listing into a lent slice, whole or not at all; none where the slices cannot hold a session. 14 and none leave every byte.
pub fn write_projection(
    head: &[u64],
    bindings: &[u8],
    availability: &[u8],
    entries: &[u8],
    out: &mut [u8],
) -> Option<Result<usize, WriteRefusal>>
    ensures { ListingCall head.now bindings.now availability.now entries.now out.old result out.new }
{
    if !shape::half_shaped(head, bindings.len(), availability.len(), entries.len()) {
        return None;
    }
    let counts = head::counts_in(head);
    Some(listing_panel::write_tables(bindings, availability, entries, counts, out))
}
