// A line of a replay script, read as a command.
#![tactic(auto)]

mod fields;
mod forms;
mod imports;
pub mod keys;
pub mod members;
mod words;

ghost use Rattle.std.specs.Prelude.{◌≡◌, ◌<◌, length, drop};
ghost use Rattle.spec_replay.specs.Lines.{split, space};
ghost use Rattle.spec_replay.specs.Hex.{read_hex};
ghost use Rattle.spec_replay.specs.Script.{fields_command, command};
ghost use Rattle.bytes_hex.specs.Decoding.{decoding, decoded_into};
ghost use Rattle.script_parser.specs.Fields.{fields_after};
ghost use Rattle.script_parser.specs.Forms.{last_arguments, form_arguments, form_count, form_at};
ghost use Rattle.script_parser.specs.Meaning.{script_command_of, asked_of};

use bytes_hex::HexRefusal;
use fields::NumberFields;
use projection_patch::patch::{ProjectionPatchEdition, ProjectionPatchEnvelope};
use session_lifecycle::lifecycle::ShellTransitionInput;
use session_lifecycle::state::ShellLifecycleLimits;
use words::FormAt;

// The batch's envelope, and the declared count of target references.
#[derive(Clone, Copy)]
pub struct BatchLine {
    pub session_id: u64,
    pub sequence_no: u64,
    pub patch_count: u64,
    pub stimulus_bytes: u64,
    pub target_references: u64,
}

// A batch of a group, and how many bytes its set has.
#[derive(Clone, Copy)]
pub struct GroupMember {
    pub batch: BatchLine,
    pub edition: ProjectionPatchEdition,
    pub bytes: u64,
}

impl GroupMember {
    // What stands in the unused places of a line.
    pub(crate) const NONE: GroupMember = GroupMember {
        batch: BatchLine {
            session_id: 0,
            sequence_no: 0,
            patch_count: 0,
            stimulus_bytes: 0,
            target_references: 0,
        },
        edition: ProjectionPatchEdition::V1,
        bytes: 0,
    };
}

// A term list is brought in: into so many bytes, for a collection, under an envelope.
#[derive(Clone, Copy)]
pub struct ImportLine {
    pub room: u16,
    pub collection: u64,
    pub envelope: ProjectionPatchEnvelope,
}

// A line for the next creation.
#[derive(Clone, Copy)]
pub enum SetupLine {
    Session(u64, ShellLifecycleLimits),
    Node(u64),
    Binding(u64, u32),
    Collection(u64),
}

// A line that calls the session or the senders' turns, or makes one of these; or the edition of the sets from here on. A print has so many bytes.
#[derive(Clone, Copy)]
pub enum CallLine {
    Create,
    Apply(ShellTransitionInput),
    Show,
    ValueBinding(u64, u32),
    ValueNode(u64),
    ValueEntry(u64, u64),
    MarkBinding(u64, u32),
    MarkNode(u64),
    MarkEntry(u64, u64),
    Senders(u64),
    Wait(u64),
    Turn,
    Edition(ProjectionPatchEdition),
    Print(u64, u64),
    Length(u64),
}

// What a line asks for with its set, or its term list: a batch to be sent, or the rule behind its refusal; a conversion into so many bytes, and what the set depends on into so many places.
#[derive(Clone, Copy)]
pub enum SetLine {
    Batch(BatchLine),
    Check,
    List,
    Convert(u16),
    Depends(u16),
    Import(ImportLine),
    Explain(BatchLine),
}

// What a line asks for. WithSet holds where the hex of the set starts in the line; such a line is Other if that is no hex. Group and Page
// hold where the word ends, and read_group and read_page read the fields behind it.
#[derive(Clone, Copy)]
pub enum ScriptCommand {
    Nothing,
    Setup(SetupLine),
    Call(CallLine),
    WithSet(SetLine, usize),
    Group(usize),
    Page(usize),
    Other,
}

impl ScriptCommand {
    // The longest line in bytes, without its LF.
    pub const LINE_BYTES: usize = 131072;
}

// The command of a form and its numbers, whose last field ends at index end.
fn last_fields(
    line: &[u8],
    form: usize,
    values: [u64; NumberFields::MOST],
    end: usize,
) -> Option<ScriptCommand>
    requires { form < form_count }
    ensures { asked_of line.now result ≡ last_arguments (form_at form) values (fields_after space line.now end) }
{
    if forms::has_set(form) {
        let from = fields::last_hex(line, end)?;
        return forms::set_command(form, values, from);
    }
    if end < line.len() {
        return None;
    }
    forms::command_of(form, values)
}

// The command of a form with so many fields, whose words end at index end.
fn counted_fields(line: &[u8], form: usize, end: usize) -> Option<ScriptCommand>
    requires { form < form_count }
    ensures { asked_of line.now result ≡ form_arguments (form_at form) (fields_after space line.now end) }
{
    let count = forms::number_count(form);
    let numbers = fields::read_numbers(line, end, count, fields::SPACE)?;
    last_fields(line, form, numbers.values, numbers.end)
}

// A line that is neither too long nor a remark.
fn parse_fields(line: &[u8]) -> Option<ScriptCommand>
    ensures { asked_of line.now result ≡ fields_command (split space line.now) }
{
    let found = words::find_form(line);
    match found.form {
        FormAt::GROUP => Some(ScriptCommand::Group(found.end)),
        FormAt::PAGE => Some(ScriptCommand::Page(found.end)),
        FormAt::IMPORT => imports::read_import(line, found.end),
        _ => counted_fields(line, found.form, found.end),
    }
}

// Reads a line without its LF.
pub fn parse_line(line: &[u8]) -> ScriptCommand
    ensures { script_command_of line.now result ≡ command line.now }
{
    if ScriptCommand::LINE_BYTES < line.len() {
        return ScriptCommand::Other;
    }
    if line.is_empty() {
        return ScriptCommand::Nothing;
    }
    if line[0] == b'#' {
        return ScriptCommand::Nothing;
    }
    parse_fields(line).unwrap_or(ScriptCommand::Other)
}

// Decodes the hex that starts at index from and reaches to the end of the line.
pub fn decode_set(line: &[u8], from: usize, out: &mut [u8]) -> Result<usize, HexRefusal>
    ensures value { result ≡ decoding (length out.old) (read_hex (drop from line.now)) }
    ensures out_after { out.new ≡ decoded_into out.old (read_hex (drop from line.now)) }
{
    let text = line.get(from..).ok_or(HexRefusal::Malformed)?;
    bytes_hex::decode_hex(text, out)
}
