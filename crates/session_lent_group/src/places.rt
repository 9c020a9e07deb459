// What is left of a group on its way, and where its session stands.
ghost use Rattle.std.specs.Prelude.{◌≡◌};
ghost use Rattle.session_lent_group.specs.Sendings.{whole_group, left_from, turned_half};

use session_group::GroupBatch;
use session_steps::answers::ProjectionPatchApplicationResult;

// A half by its place among those that are lent: the session's own, or one of the two to work in.
#[derive(Clone, Copy)]
pub enum LentHalf {
    Own,
    First,
    Second,
}

// The batches that are left: those from a place on, and the byte at which the set of the next one begins. An array and its count, since the engine
// has no heap.
#[derive(Clone, Copy)]
pub struct GroupLeft {
    pub batches: [GroupBatch; GroupBatch::MOST],
    pub count: usize,
    pub place: usize,
    pub at: usize,
}

// The first batch that was refused, by its place, and its answer.
#[derive(Drop)]
pub struct RefusedBatch {
    pub place: usize,
    pub answer: ProjectionPatchApplicationResult,
}

// A whole group.
pub(crate) fn first_left(batches: [GroupBatch; GroupBatch::MOST], count: usize) -> GroupLeft
    ensures { result ≡ whole_group batches count }
{
    GroupLeft {
        batches,
        count,
        place: 0,
        at: 0,
    }
}

// The same group, from another place on.
pub(crate) fn left_from(left: GroupLeft, place: usize, at: usize) -> GroupLeft
    ensures { result ≡ left_from left place at }
{
    GroupLeft { place, at, ..left }
}

// The half, told with the two to work in exchanged.
pub(crate) fn turned(half: LentHalf) -> LentHalf
    ensures { result ≡ turned_half half }
{
    match half {
        LentHalf::Own => LentHalf::Own,
        LentHalf::First => LentHalf::Second,
        LentHalf::Second => LentHalf::First,
    }
}
