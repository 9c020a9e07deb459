// The listing of the set that stands on standard input: what both listing programs do, each in its edition.
#![tactic(auto)]

ghost use Rattle.std.specs.Prelude.{◌≤◌, IfOk};
ghost use Rattle.listing_lines.specs.ListingBytes.{listing_bytes};

use listing_lines::tables::LISTING_BYTES;
use projection_patch::patch::{ProjectionPatchEdition, ProjectionPatchSet};
use std::io;

// Reads a set of the edition, prints its listing, and answers how many bytes that has.
pub fn list_input<R: Input + Print>(rt: &R, edition: ProjectionPatchEdition) -> io::Result<usize>
    ensures { IfOk result (λ len. len ≤ listing_bytes) }
{
    // One byte more than a set may have is enough to tell that there are too many.
    let mut input = [0u8; ProjectionPatchSet::BYTES + 1];
    let n = bytes_input::read_full(&mut rt.reader(), &mut input)?;
    let mut lines = [0u8; LISTING_BYTES];
    if let Ok(len) = listing_panel::write_listing(&input[0..n], edition, &mut lines) {
        rt.write_all(&lines[0..len])?;
        return Ok(len);
    }
    Ok(0)
}
