// The forms of commands: how many numbers each takes, whether a set stands behind them, and the command that they make.
ghost use Rattle.std.specs.Prelude.{◌≡◌, true, false, List, [], ℕ, ◌<◌, ◌≤◌, MatchOption};
ghost use Rattle.std.proofs.Math.Option.{some};
ghost use Rattle.spec_replay.specs.Script as script;
ghost use Rattle.spec_replay.specs.Script.{numbered_edition};
ghost use Rattle.session_lifecycle.specs.Meaning.{stimulus_of};
ghost use Rattle.script_parser.specs.Fields.{most_numbers};
ghost use Rattle.script_parser.specs.Forms.{first_base, form_count, form_at};
ghost use Rattle.script_parser.specs.Meaning.{edition_read, set_from, script_command_of, asked_of};

use crate::fields::NumberFields;
use crate::words::FormAt;
use crate::{BatchLine, CallLine, ScriptCommand, SetLine, SetupLine};
use projection_patch::patch::ProjectionPatchEdition;
use session_lifecycle::lifecycle::{
    ShellLifecycleCommand, ShellLifecycleStimulus, ShellTransitionInput,
};
use session_lifecycle::state::ShellLifecycleLimits;

// The shape of a batch's fields, which two words share.
const BATCH: usize = 0x15;

// How many numbers each form takes, and 0x10 more where a set stands behind them; 0 for a form of any number of fields. The second words stand before the first, each table in its
// own order with a place for none behind it.
const SHAPES: [usize; 41] = [
    1, 1, 1, 1, 1, 0, 2, 1, 2, 0, 2, 1, 2, 0, 0, 0, 5, 1, 2, 1, 0, 0, BATCH, 0x10, 0x10, 0, 0, 1,
    1, 0, 1, 0x11, 0, 0x11, 2, 0, 1, 0, 0, BATCH, 0,
];

pub(crate) fn number_count(form: usize) -> usize
    requires { form < form_count }
    ensures { (result ≡ (form_at form).count) × (result ≤ most_numbers) }
{
    let shapes = SHAPES;
    shapes[form] % 0x10
}

pub(crate) fn has_set(form: usize) -> bool
    requires { form < form_count }
    ensures { result ≡ (form_at form).with_set }
{
    let shapes = SHAPES;
    0x10 <= shapes[form]
}

// A number that is no greater than the most.
fn at_most(number: u64, most: u64) -> Option<u64>
    ensures { MatchOption result (most < number) (λ n. (n ≡ number) × (n ≤ most)) }
{
    if number <= most { Some(number) } else { None }
}

fn lifecycle_step(command: ShellLifecycleCommand, bytes: u64) -> ScriptCommand
    ensures { (line : List ℕ) → script_command_of line result ≡ script.apply (stimulus_of (ShellLifecycleStimulus.Command command)) bytes }
{
    ScriptCommand::Call(CallLine::Apply(ShellTransitionInput {
        stimulus: ShellLifecycleStimulus::Command(command),
        stimulus_bytes: bytes,
    }))
}

// The edition that a number names.
pub(crate) fn numbered_edition(number: u64) -> Option<ProjectionPatchEdition>
    ensures { edition_read result ≡ numbered_edition (some number) }
{
    match number {
        1 => Some(ProjectionPatchEdition::V1),
        2 => Some(ProjectionPatchEdition::V2),
        _ => None,
    }
}

// The command of a form of a second word; None where a number is not one that it takes.
fn second_command(form: usize, values: [u64; NumberFields::MOST]) -> Option<ScriptCommand>
    requires { form < first_base }
    ensures { (line : List ℕ) → asked_of line result ≡ (form_at form).makes values [] }
{
    let first = values[0];
    let second = values[1];
    match form {
        0 => Some(lifecycle_step(ShellLifecycleCommand::Activate, first)),
        1 => Some(lifecycle_step(ShellLifecycleCommand::Suspend, first)),
        2 => Some(lifecycle_step(ShellLifecycleCommand::Resume, first)),
        3 => Some(lifecycle_step(ShellLifecycleCommand::Close, first)),
        4 => Some(ScriptCommand::Call(CallLine::Apply(ShellTransitionInput {
            stimulus: ShellLifecycleStimulus::ExplicitNoOp,
            stimulus_bytes: first,
        }))),
        6 => {
            let slot = at_most(second, 0xffff_ffff)?;
            Some(ScriptCommand::Call(CallLine::ValueBinding(first, slot as u32)))
        }
        7 => Some(ScriptCommand::Call(CallLine::ValueNode(first))),
        8 => Some(ScriptCommand::Call(CallLine::ValueEntry(first, second))),
        10 => {
            let marked = at_most(second, 0xffff_ffff)?;
            Some(ScriptCommand::Call(CallLine::MarkBinding(first, marked as u32)))
        }
        11 => Some(ScriptCommand::Call(CallLine::MarkNode(first))),
        12 => Some(ScriptCommand::Call(CallLine::MarkEntry(first, second))),
        _ => None,
    }
}

// The command of a form of a first word, which has no set.
fn first_command(form: usize, values: [u64; NumberFields::MOST]) -> Option<ScriptCommand>
    requires { (first_base ≤ form) × ((form_at form).with_set ≡ false) }
    ensures { (line : List ℕ) → asked_of line result ≡ (form_at form).makes values [] }
{
    let first = values[0];
    let second = values[1];
    match form {
        16 => Some(ScriptCommand::Setup(SetupLine::Session(
            first,
            ShellLifecycleLimits {
                max_transition_stimulus_bytes: second,
                max_diagnostics_per_transition: values[2],
                max_patches_per_transition: values[3],
                max_target_references_per_transition: values[4],
            },
        ))),
        17 => Some(ScriptCommand::Setup(SetupLine::Node(first))),
        18 => {
            let bound = at_most(second, 0xffff_ffff)?;
            Some(ScriptCommand::Setup(SetupLine::Binding(first, bound as u32)))
        }
        19 => Some(ScriptCommand::Setup(SetupLine::Collection(first))),
        20 => Some(ScriptCommand::Call(CallLine::Create)),
        25 => Some(ScriptCommand::Call(CallLine::Show)),
        27 => Some(ScriptCommand::Call(CallLine::Senders(first))),
        28 => Some(ScriptCommand::Call(CallLine::Wait(first))),
        29 => Some(ScriptCommand::Call(CallLine::Turn)),
        30 => {
            let edition = numbered_edition(first)?;
            Some(ScriptCommand::Call(CallLine::Edition(edition)))
        }
        // No more bytes are lent than a line may ask for.
        34 => {
            let room = at_most(second, 131072)?;
            Some(ScriptCommand::Call(CallLine::Print(first, room)))
        }
        36 => Some(ScriptCommand::Call(CallLine::Length(first))),
        _ => None,
    }
}

// The command of a form without a set.
pub(crate) fn command_of(form: usize, values: [u64; NumberFields::MOST]) -> Option<ScriptCommand>
    requires { (form_at form).with_set ≡ false }
    ensures { (line : List ℕ) → asked_of line result ≡ (form_at form).makes values [] }
{
    if form < FormAt::FIRST {
        second_command(form, values)
    } else {
        first_command(form, values)
    }
}

// The command of a form with a set, whose hex starts at an index of the line. No more room is lent than a set may have bytes, and no more places
// than a line may ask for.
pub(crate) fn set_command(
    form: usize,
    values: [u64; NumberFields::MOST],
    from: usize,
) -> Option<ScriptCommand>
    requires { (form < form_count) × ((form_at form).with_set ≡ true) }
    ensures { (line : List ℕ) → asked_of line result ≡ set_from line from ((form_at form).makes values) }
{
    let first = values[0];
    let batch = BatchLine {
        session_id: first,
        sequence_no: values[1],
        patch_count: values[2],
        stimulus_bytes: values[3],
        target_references: values[4],
    };
    match form {
        22 => Some(ScriptCommand::WithSet(SetLine::Batch(batch), from)),
        23 => Some(ScriptCommand::WithSet(SetLine::Check, from)),
        24 => Some(ScriptCommand::WithSet(SetLine::List, from)),
        31 => {
            let room = at_most(first, 32768)?;
            Some(ScriptCommand::WithSet(SetLine::Convert(room as u16), from))
        }
        33 => {
            let places = at_most(first, 16384)?;
            Some(ScriptCommand::WithSet(SetLine::Depends(places as u16), from))
        }
        39 => Some(ScriptCommand::WithSet(SetLine::Explain(batch), from)),
        _ => None,
    }
}
