// Bytes printed in lower-case hex.
ghost use Rattle.std.specs.Prelude.{◌≡◌, ◌<◌};
ghost use mathlib.Core.List.{flat_map};
ghost use Rattle.spec_replay.specs.Hex.{hex_character, byte_pair, hex_field};
ghost use Rattle.bytes_printer.specs.Prints.{spaced_field, Prints, Within};

fn hex_character(digit: u8) -> u8
    requires { digit < 16 }
    ensures { result ≡ hex_character digit }
{
    if digit < 10 {
        b'0' + digit
    } else {
        b'a' + (digit - 10)
    }
}

fn print_pair(out: &mut [u8], at: Option<usize>, byte: u8) -> Option<usize>
    ensures { Prints out.old at (byte_pair byte) out.new result }
{
    let high = hex_character(byte / 16);
    let first = bytes_printer::print_byte(out, at, high);
    let low = hex_character(byte % 16);
    bytes_printer::print_byte(out, first, low)
}

fn print_pairs(out: &mut [u8], from: Option<usize>, bytes: &[u8]) -> Option<usize>
    ensures { Within out.old from
        → Prints out.old from (flat_map byte_pair bytes.now) out.new result }
{
    let mut at = from;
    for &byte in bytes {
        at = print_pair(out, at, byte);
    }
    at
}

// A tab, then two digits for each byte, or a dash for no bytes.
pub fn print_field_hex(out: &mut [u8], at: Option<usize>, bytes: &[u8]) -> Option<usize>
    ensures { Prints out.old at (spaced_field (hex_field bytes.now)) out.new result }
{
    let start = bytes_printer::print_byte(out, at, 9);
    if bytes.len() == 0 {
        return bytes_printer::print_byte(out, start, 45);
    }
    print_pairs(out, start, bytes)
}
