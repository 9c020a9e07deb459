// The batches of a group, as many as stand in a line, and where the hex of their sets starts.
ghost use Rattle.std.specs.Prelude.{◌≡◌, ◌≤◌, length, IfSome};
ghost use Rattle.spec_replay.specs.Lines.{space};
ghost use Rattle.spec_replay.specs.Script.{Command, comma, member_parts, line_members, group_arguments};
ghost use Rattle.spec_group.specs.Group.{GroupBatch};
ghost use Rattle.script_parser.specs.Fields.{fields_after};
ghost use Rattle.script_parser.specs.Members.{member_then, member_made, group_then};

use crate::fields::{COMMA, NumberFields, SPACE};
use crate::{BatchLine, GroupMember, fields, forms};

// The batches of a group in the first places, and where the hex of their sets starts.
#[derive(Clone, Copy)]
pub struct GroupFields {
    pub members: [GroupMember; GroupFields::MOST],
    pub count: usize,
    pub from: usize,
}

impl GroupFields {
    // So many batches can stand in a line.
    pub const MOST: usize = 16;
}

// The batch of seven numbers, the sixth of which is to be an edition.
fn member_of(values: [u64; NumberFields::MOST]) -> Option<GroupMember>
    ensures { (next : GroupBatch → Command) → member_then result next ≡ member_made values next }
{
    let batch = BatchLine {
        session_id: values[0],
        sequence_no: values[1],
        patch_count: values[2],
        stimulus_bytes: values[3],
        target_references: values[4],
    };
    let edition = forms::numbered_edition(values[5])?;
    Some(GroupMember {
        batch,
        edition,
        bytes: values[6],
    })
}

// The batch of a field, which is lent with the byte before it.
fn read_member(part: &[u8]) -> Option<GroupMember>
    ensures { (next : GroupBatch → Command) → member_parts next (fields_after comma part.now 0) ≡ member_then result next }
{
    let numbers = fields::read_numbers(part, 0, NumberFields::MOST, COMMA)?;
    if numbers.end < part.len() {
        return None;
    }
    member_of(numbers.values)
}

// Reads the fields behind the word, which ends at index end: the last one is the hex of the sets, and each before it a batch. None where the
// line is no group.
pub fn read_group(line: &[u8], end: usize) -> Option<GroupFields>
    ensures told { group_arguments (fields_after space line.now end) ≡ group_then line.now result }
    ensures within { IfSome result (λ r. (r.count ≤ line_members) × (length r.members ≡ line_members)) }
{
    let mut members = [GroupMember::NONE; GroupFields::MOST];
    let mut count: usize = 0;
    let mut at = end;
    while at < line.len() {
        let from = at + 1;
        let to = fields::field_end(line, from, SPACE);
        if line.len() <= to {
            return Some(GroupFields {
                members,
                count,
                from,
            });
        }
        if GroupFields::MOST <= count {
            return None;
        }
        members[count] = read_member(&line[at..to])?;
        count += 1;
        at = to;
    }
    None
}
