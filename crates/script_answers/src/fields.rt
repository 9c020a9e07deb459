// The fields of a session's answers, each with the tab before it.
ghost use Rattle.std.specs.Prelude.{[]};
ghost use Rattle.spec_replay.specs.Answers.{disposition_field, lifecycle_field, cursor_field, session_fields};
ghost use Rattle.bytes_printer.specs.Prints.{spaced_field, Prints};
ghost use Rattle.session_lifecycle.specs.Meaning.{disposition_means, diagnostics_mean, lifecycle_of, cursor_of};
ghost use Rattle.script_answers.specs.OpenFields.{open_fields};

use session_lifecycle::diagnostics::ShellDiagnostics;
use session_lifecycle::lifecycle::ShellTransitionDisposition;
use session_lifecycle::state::{ProjectionReplayCursor, ShellLifecycle};

fn print_disposition(
    out: &mut [u8],
    at: Option<usize>,
    disposition: ShellTransitionDisposition,
) -> Option<usize>
    ensures { Prints out.old at (spaced_field (disposition_field (disposition_means disposition))) out.new result }
{
    match disposition {
        ShellTransitionDisposition::Applied => {
            bytes_printer::print_field_bytes(out, at, b"applied")
        }
        ShellTransitionDisposition::NoChange => {
            bytes_printer::print_field_bytes(out, at, b"no-change")
        }
        ShellTransitionDisposition::Rejected => {
            bytes_printer::print_field_bytes(out, at, b"rejected")
        }
    }
}

pub fn print_lifecycle(
    out: &mut [u8],
    at: Option<usize>,
    lifecycle: ShellLifecycle,
) -> Option<usize>
    ensures { Prints out.old at (spaced_field (lifecycle_field (lifecycle_of lifecycle))) out.new result }
{
    match lifecycle {
        ShellLifecycle::Created => bytes_printer::print_field_bytes(out, at, b"created"),
        ShellLifecycle::Active => bytes_printer::print_field_bytes(out, at, b"active"),
        ShellLifecycle::Suspended => bytes_printer::print_field_bytes(out, at, b"suspended"),
        ShellLifecycle::Closed => bytes_printer::print_field_bytes(out, at, b"closed"),
    }
}

pub fn print_cursor(
    out: &mut [u8],
    at: Option<usize>,
    cursor: ProjectionReplayCursor,
) -> Option<usize>
    ensures { Prints out.old at (spaced_field (cursor_field (cursor_of cursor))) out.new result }
{
    match cursor {
        ProjectionReplayCursor::Uninitialized => bytes_printer::print_field_bytes(out, at, b"-"),
        ProjectionReplayCursor::At(number) => bytes_printer::print_field_u64(out, at, number),
    }
}

// Disposition, code, stage, logical and emitted count.
pub fn print_outcome(
    out: &mut [u8],
    at: Option<usize>,
    disposition: ShellTransitionDisposition,
    diagnostics: ShellDiagnostics,
) -> Option<usize>
    ensures { Prints out.old at (open_fields (session_fields (disposition_means disposition) (diagnostics_mean diagnostics) [])) out.new result }
{
    let word = print_disposition(out, at, disposition);
    let code = bytes_printer::print_field_u64(out, word, diagnostics.stable_code);
    let stage = bytes_printer::print_field_u64(out, code, diagnostics.evaluation_stage);
    let logical = bytes_printer::print_field_u64(out, stage, diagnostics.logical_diagnostic_count);
    bytes_printer::print_field_u64(out, logical, diagnostics.emitted_diagnostic_count)
}
