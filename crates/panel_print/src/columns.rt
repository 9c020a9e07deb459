// The columns of a line: 02, Job 10. Bytes are printed one by one; only a byte that begins a character takes a column.
ghost use Rattle.std.specs.Prelude.{◌≡◌, ◌∷◌, ◌≤◌, replicate};
ghost use Rattle.spec_panel_print.specs.Print.{text_width, blank, line_end, blank_lead, printed_character};
ghost use Rattle.bytes_printer.specs.Prints.{Prints};
ghost use Rattle.panel_print.specs.ByteFlow.{begins_character, column_after, broken_byte, flowed_bytes};

const TEXT_WIDTH: usize = 58;

const LEAD_WIDTH: usize = 22;

const SPACE: u8 = 32;

const DELETE: u8 = 127;

const FULL_STOP: u8 = 46;

pub(crate) fn print_spaces(out: &mut [u8], at: Option<usize>, n: usize) -> Option<usize>
    requires { n ≤ text_width }
    ensures { Prints out.old at (replicate n blank) out.new result }
{
    let spaces = [SPACE; TEXT_WIDTH];
    bytes_printer::print_bytes(out, at, &spaces[0..n])
}

fn print_line_break(out: &mut [u8], at: Option<usize>) -> Option<usize>
    ensures { Prints out.old at (line_end ∷ blank_lead) out.new result }
{
    let line = bytes_printer::print_newline(out, at);
    print_spaces(out, line, LEAD_WIDTH)
}

fn begins_character(byte: u8) -> bool
    ensures { result ≡ begins_character byte }
{
    byte < 0x80 || 0xc0 <= byte
}

// A control character is shown as a full stop.
fn shown_byte(byte: u8) -> u8
    ensures { result ≡ printed_character byte }
{
    match byte {
        DELETE => FULL_STOP,
        _ if byte < SPACE => FULL_STOP,
        _ => byte,
    }
}

fn column_after(column: usize, byte: u8) -> usize
    requires { column ≤ text_width }
    ensures after { result ≡ column_after column byte }
    ensures within { result ≤ text_width }
{
    if !begins_character(byte) {
        column
    } else if column == TEXT_WIDTH {
        1
    } else {
        column + 1
    }
}

// Prints a byte, behind a line break if it begins a character and the line is full.
fn print_broken_byte(out: &mut [u8], at: Option<usize>, column: usize, byte: u8) -> Option<usize>
    ensures { Prints out.old at (broken_byte column byte) out.new result }
{
    let shown = shown_byte(byte);
    if column != TEXT_WIDTH {
        return bytes_printer::print_byte(out, at, shown);
    }
    if begins_character(byte) {
        let line = print_line_break(out, at);
        return bytes_printer::print_byte(out, line, shown);
    }
    bytes_printer::print_byte(out, at, shown)
}

// Prints the bytes of a value in lines whose last is padded and ended.
pub(crate) fn print_columns(out: &mut [u8], from: Option<usize>, bytes: &[u8]) -> Option<usize>
    ensures { Prints out.old from (flowed_bytes 0 bytes.now) out.new result }
{
    let mut at = from;
    let mut column: usize = 0;
    for &byte in bytes {
        at = print_broken_byte(out, at, column, byte);
        column = column_after(column, byte);
    }
    let padded = print_spaces(out, at, TEXT_WIDTH - column);
    bytes_printer::print_newline(out, padded)
}
