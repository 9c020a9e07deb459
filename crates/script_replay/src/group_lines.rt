// Lines of a group: its batches, and their sets end to end in hex.
ghost use Rattle.std.specs.Prelude.{◌≡◌, map, ◌≤◌, length, take};
ghost use Rattle.spec_group.specs.Group.{group_batches};
ghost use Rattle.spec_replay.specs.Lines.{space};
ghost use Rattle.spec_replay.specs.Script.{line_bytes, line_members, group, group_arguments};
ghost use Rattle.spec_replay.specs.Replay.{State, replay_line};
ghost use Rattle.session_group.specs.Groups.{batch_means};
ghost use Rattle.script_parser.specs.Fields.{fields_after};
ghost use Rattle.script_parser.specs.Meaning.{member_of, first_members, set_from};
ghost use Rattle.script_calls.specs.ReplayHolds.{ReplayHolds, ReplayStepped};

use crate::setup_lines;
use script_calls::groups;
use script_calls::state::{ReplayState, ReplayStep};
use script_parser::members::GroupFields;
use script_parser::{GroupMember, members};
use session_gates::gates::OrderedProjectionPatchBatchEnvelope;
use session_group::GroupBatch;
use session_lifecycle::state::ShellSessionId;

// The most bytes that the hex of a line can spell.
const SETS_BYTES: usize = 65536;

fn group_batch(member: GroupMember) -> GroupBatch
    ensures { batch_means result ≡ member_of member }
{
    let batch = member.batch;
    let edition = member.edition;
    let envelope = OrderedProjectionPatchBatchEnvelope {
        session_id: ShellSessionId(batch.session_id),
        sequence_no: batch.sequence_no,
        patch_count: batch.patch_count,
        stimulus_bytes: batch.stimulus_bytes,
    };
    GroupBatch {
        envelope,
        declared_target_reference_count: batch.target_references,
        edition,
        bytes: member.bytes as usize,
    }
}

// As many as a group can have.
fn first_batches(members: [GroupMember; GroupFields::MOST]) -> [GroupBatch; GroupBatch::MOST]
    ensures { map batch_means result ≡ map member_of (take group_batches members) }
{
    let first = members[0];
    let mut batches = [group_batch(first); GroupBatch::MOST];
    for i in 0..GroupBatch::MOST {
        batches[i] = group_batch(members[i]);
    }
    batches
}

// Sends the batches with the sets whose hex starts at an index of the line. What is no hex makes it any other line.
fn send_group(
    state: ReplayState,
    members: [GroupMember; GroupFields::MOST],
    count: usize,
    from: usize,
    number: u64,
    line: &[u8],
    out: &mut [u8],
) -> ReplayStep
    ensures { (m : State) → ReplayHolds state m → length line.now ≤ line_bytes → count ≤ line_members
        → ReplayStepped state out.old out.new result (replay_line number m (set_from line.now from (group (first_members count members)))) }
{
    let batches = first_batches(members);
    let mut sets = [0u8; SETS_BYTES];
    match script_parser::decode_set(line, from, &mut sets) {
        Ok(len) => groups::apply_group(state, batches, count, &sets[0..len], out),
        Err(_) => setup_lines::other(state, number, out),
    }
}

// A group, whose word ends at index end of the line.
pub(crate) fn run_group(
    state: ReplayState,
    end: usize,
    number: u64,
    line: &[u8],
    out: &mut [u8],
) -> ReplayStep
    ensures { (m : State) → ReplayHolds state m → length line.now ≤ line_bytes
        → ReplayStepped state out.old out.new result (replay_line number m (group_arguments (fields_after space line.now end))) }
{
    match members::read_group(line, end) {
        Some(fields) => {
            let batches = fields.members;
            send_group(state, batches, fields.count, fields.from, number, line, out)
        }
        None => setup_lines::other(state, number, out),
    }
}
