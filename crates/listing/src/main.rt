// Reads a set of the first edition from standard input and prints its listing: 01, 'Listing'.
#![tactic(auto)]

use projection_patch::patch::ProjectionPatchEdition;
use std::io;

fn main(rt: HostRuntime) -> io::Result<()> {
    listing_input::list_input(&rt, ProjectionPatchEdition::V1)?;
    Ok(())
}
