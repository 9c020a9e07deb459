// Reads a set of the second edition from standard input and prints its listing: 01, 'Listing', and 02, 'Job 13'.
#![tactic(auto)]

use projection_patch::patch::ProjectionPatchEdition;
use std::io;

fn main(rt: HostRuntime) -> io::Result<()> {
    listing_input::list_input(&rt, ProjectionPatchEdition::V2)?;
    Ok(())
}
