// Batches on a session in lent memory. Each reads the half in which the session stands and writes the other, in one plan's memory for all.
use crate::{sessions, sums};
use local_projection_state::LocalProjectionState;
use patch_walk::SetCounts;
use projection_patch::patch::ProjectionPatchEdition;
use session_lent::{batch, creation, head};

// Two numbers for each pair of a node and a slot.
const PAIR_NUMBERS: usize = 2 * sessions::NODES;

// Slot 1 of each node.
fn pairs() -> [u64; PAIR_NUMBERS] {
    let mut all = [1u64; PAIR_NUMBERS];
    for i in 0..sessions::NODES {
        all[2 * i] = i as u64 + 1;
    }
    all
}

// One batch with a number, and the number of the next: it rises where the batch was applied.
fn send<'a>(
    nodes: &[u64],
    pairs: &[u64],
    collections: &[u64],
    head: &[u64],
    bindings: &'a [u8],
    availability: &'a [u8],
    entries: &'a [u8],
    number: u64,
    counts: SetCounts,
    set: &[u8],
    to_head: &mut [u64],
    to_bindings: &mut [u8],
    to_availability: &mut [u8],
    to_entries: &mut [u8],
    to_lengths: &mut [u8],
    plan_bindings: &mut [u8; panel_plan::BINDING_BYTES],
    plan_availability: &mut [u8; LocalProjectionState::AVAILABILITY_BYTES],
    plan_entries: &mut [u8; panel_plan::ENTRY_BYTES],
) -> u64 {
    let answer = batch::apply_projection_patch_batch(
        head,
        nodes,
        pairs,
        collections,
        bindings,
        availability,
        entries,
        sessions::envelope(number, counts),
        counts.operation_count as u64,
        set,
        ProjectionPatchEdition::V1,
        to_head,
        to_bindings,
        to_availability,
        to_entries,
        to_lengths,
        plan_bindings,
        plan_availability,
        plan_entries,
    );
    match answer {
        Some(result) => sessions::raised(number, result),
        None => number,
    }
}

// Two batches, there from the first half to the second and then back, and the number of the next.
fn send_both(
    nodes: &[u64],
    pairs: &[u64],
    collections: &[u64],
    number: u64,
    away: SetCounts,
    forth: &[u8],
    home: SetCounts,
    back: &[u8],
    first_head: &mut [u64; head::NUMBERS],
    first_bindings: &mut [u8; LocalProjectionState::BINDING_BYTES],
    first_availability: &mut [u8; LocalProjectionState::AVAILABILITY_BYTES],
    first_entries: &mut [u8; LocalProjectionState::ENTRY_BYTES],
    first_lengths: &mut [u8; LocalProjectionState::LENGTH_BYTES],
    second_head: &mut [u64; head::NUMBERS],
    second_bindings: &mut [u8; LocalProjectionState::BINDING_BYTES],
    second_availability: &mut [u8; LocalProjectionState::AVAILABILITY_BYTES],
    second_entries: &mut [u8; LocalProjectionState::ENTRY_BYTES],
    second_lengths: &mut [u8; LocalProjectionState::LENGTH_BYTES],
    plan_bindings: &mut [u8; panel_plan::BINDING_BYTES],
    plan_availability: &mut [u8; LocalProjectionState::AVAILABILITY_BYTES],
    plan_entries: &mut [u8; panel_plan::ENTRY_BYTES],
) -> u64 {
    let next = send(
        nodes,
        pairs,
        collections,
        first_head,
        first_bindings,
        first_availability,
        first_entries,
        number,
        away,
        forth,
        second_head,
        second_bindings,
        second_availability,
        second_entries,
        second_lengths,
        plan_bindings,
        plan_availability,
        plan_entries,
    );
    send(
        nodes,
        pairs,
        collections,
        second_head,
        second_bindings,
        second_availability,
        second_entries,
        next,
        home,
        back,
        first_head,
        first_bindings,
        first_availability,
        first_entries,
        first_lengths,
        plan_bindings,
        plan_availability,
        plan_entries,
    )
}

// Two batches so many times, and how many were applied; the first of them has this number.
fn send_often(
    nodes: &[u64],
    pairs: &[u64],
    collections: &[u64],
    number: u64,
    forth: &[u8],
    back: &[u8],
    times: u64,
    first_head: &mut [u64; head::NUMBERS],
    first_bindings: &mut [u8; LocalProjectionState::BINDING_BYTES],
    first_availability: &mut [u8; LocalProjectionState::AVAILABILITY_BYTES],
    first_entries: &mut [u8; LocalProjectionState::ENTRY_BYTES],
    first_lengths: &mut [u8; LocalProjectionState::LENGTH_BYTES],
    second_head: &mut [u64; head::NUMBERS],
    second_bindings: &mut [u8; LocalProjectionState::BINDING_BYTES],
    second_availability: &mut [u8; LocalProjectionState::AVAILABILITY_BYTES],
    second_entries: &mut [u8; LocalProjectionState::ENTRY_BYTES],
    second_lengths: &mut [u8; LocalProjectionState::LENGTH_BYTES],
    plan_bindings: &mut [u8; panel_plan::BINDING_BYTES],
    plan_availability: &mut [u8; LocalProjectionState::AVAILABILITY_BYTES],
    plan_entries: &mut [u8; panel_plan::ENTRY_BYTES],
) -> u64 {
    let away = sessions::counted(forth);
    let home = sessions::counted(back);
    let mut next = number;
    for _ in 0..times {
        next = send_both(
            nodes,
            pairs,
            collections,
            next,
            away,
            forth,
            home,
            back,
            first_head,
            first_bindings,
            first_availability,
            first_entries,
            first_lengths,
            second_head,
            second_bindings,
            second_availability,
            second_entries,
            second_lengths,
            plan_bindings,
            plan_availability,
            plan_entries,
        );
    }
    sums::rise(number, next)
}

// A new session in the first half and its first two batches, and the number of the next.
fn start(
    nodes: &[u64],
    pairs: &[u64],
    collections: &[u64],
    fill: &[u8],
    forth: &[u8],
    first_head: &mut [u64; head::NUMBERS],
    first_bindings: &mut [u8; LocalProjectionState::BINDING_BYTES],
    first_availability: &mut [u8; LocalProjectionState::AVAILABILITY_BYTES],
    first_entries: &mut [u8; LocalProjectionState::ENTRY_BYTES],
    first_lengths: &mut [u8; LocalProjectionState::LENGTH_BYTES],
    second_head: &mut [u64; head::NUMBERS],
    second_bindings: &mut [u8; LocalProjectionState::BINDING_BYTES],
    second_availability: &mut [u8; LocalProjectionState::AVAILABILITY_BYTES],
    second_entries: &mut [u8; LocalProjectionState::ENTRY_BYTES],
    second_lengths: &mut [u8; LocalProjectionState::LENGTH_BYTES],
    plan_bindings: &mut [u8; panel_plan::BINDING_BYTES],
    plan_availability: &mut [u8; LocalProjectionState::AVAILABILITY_BYTES],
    plan_entries: &mut [u8; panel_plan::ENTRY_BYTES],
) -> u64 {
    let creation = creation::create_session(
        1,
        sessions::limits(),
        nodes,
        pairs,
        collections,
        first_head,
        first_bindings,
        first_availability,
        first_entries,
        first_lengths,
    );
    let Ok(()) = creation else {
        return 0;
    };
    let filled = sessions::counted(fill);
    let away = sessions::counted(forth);
    send_both(
        nodes,
        pairs,
        collections,
        1,
        filled,
        fill,
        away,
        forth,
        first_head,
        first_bindings,
        first_availability,
        first_entries,
        first_lengths,
        second_head,
        second_bindings,
        second_availability,
        second_entries,
        second_lengths,
        plan_bindings,
        plan_availability,
        plan_entries,
    )
}

// A session with anchors for nodes 1 to 64, slot 1 of each and collections 1 to 4, that is filled and goes forth; then it goes back and forth.
fn use_halves(
    fill: &[u8],
    forth: &[u8],
    back: &[u8],
    times: u64,
    first_head: &mut [u64; head::NUMBERS],
    first_bindings: &mut [u8; LocalProjectionState::BINDING_BYTES],
    first_availability: &mut [u8; LocalProjectionState::AVAILABILITY_BYTES],
    first_entries: &mut [u8; LocalProjectionState::ENTRY_BYTES],
    first_lengths: &mut [u8; LocalProjectionState::LENGTH_BYTES],
    second_head: &mut [u64; head::NUMBERS],
    second_bindings: &mut [u8; LocalProjectionState::BINDING_BYTES],
    second_availability: &mut [u8; LocalProjectionState::AVAILABILITY_BYTES],
    second_entries: &mut [u8; LocalProjectionState::ENTRY_BYTES],
    second_lengths: &mut [u8; LocalProjectionState::LENGTH_BYTES],
    plan_bindings: &mut [u8; panel_plan::BINDING_BYTES],
    plan_availability: &mut [u8; LocalProjectionState::AVAILABILITY_BYTES],
    plan_entries: &mut [u8; panel_plan::ENTRY_BYTES],
) -> u64 {
    let nodes = sessions::nodes();
    let pairs = pairs();
    let collections = [1u64, 2, 3, 4];
    let number = start(
        &nodes,
        &pairs,
        &collections,
        fill,
        forth,
        first_head,
        first_bindings,
        first_availability,
        first_entries,
        first_lengths,
        second_head,
        second_bindings,
        second_availability,
        second_entries,
        second_lengths,
        plan_bindings,
        plan_availability,
        plan_entries,
    );
    send_often(
        &nodes,
        &pairs,
        &collections,
        number,
        back,
        forth,
        times,
        first_head,
        first_bindings,
        first_availability,
        first_entries,
        first_lengths,
        second_head,
        second_bindings,
        second_availability,
        second_entries,
        second_lengths,
        plan_bindings,
        plan_availability,
        plan_entries,
    )
}

// Applies a set that fills the panel, and both others in turn, and counts the batches of these that were applied.
pub(crate) fn apply_often(fill: &[u8], forth: &[u8], back: &[u8], times: u64) -> u64 {
    let mut first_head = [0u64; head::NUMBERS];
    let mut first_bindings = [0u8; LocalProjectionState::BINDING_BYTES];
    let mut first_availability = [0u8; LocalProjectionState::AVAILABILITY_BYTES];
    let mut first_entries = [0u8; LocalProjectionState::ENTRY_BYTES];
    let mut first_lengths = [0u8; LocalProjectionState::LENGTH_BYTES];
    let mut second_head = [0u64; head::NUMBERS];
    let mut second_bindings = [0u8; LocalProjectionState::BINDING_BYTES];
    let mut second_availability = [0u8; LocalProjectionState::AVAILABILITY_BYTES];
    let mut second_entries = [0u8; LocalProjectionState::ENTRY_BYTES];
    let mut second_lengths = [0u8; LocalProjectionState::LENGTH_BYTES];
    let mut plan_bindings = [0u8; panel_plan::BINDING_BYTES];
    let mut plan_availability = [0u8; LocalProjectionState::AVAILABILITY_BYTES];
    let mut plan_entries = [0u8; panel_plan::ENTRY_BYTES];
    use_halves(
        fill,
        forth,
        back,
        times,
        &mut first_head,
        &mut first_bindings,
        &mut first_availability,
        &mut first_entries,
        &mut first_lengths,
        &mut second_head,
        &mut second_bindings,
        &mut second_availability,
        &mut second_entries,
        &mut second_lengths,
        &mut plan_bindings,
        &mut plan_availability,
        &mut plan_entries,
    )
}
