// Fields of a line printed into a lent slice, one behind the other. A call goes on where the one before it ended. Each prints as much as
// fits; once something did not fit, nothing further is written.
#![tactic(auto)]

ghost use Rattle.std.specs.Prelude.{[], ◌∷◌};
ghost use Rattle.spec_decimal.specs.Decimal.{decimal, signed_decimal};
ghost use Rattle.bytes_printer.specs.Prints.{spaced_field, line_feed, Prints};

// Each answers the position behind what it printed, or None where that did not fit. What it takes is such an answer: from None it prints nothing and
// answers None, so that a line is a chain of calls with no test between them.
pub fn print_bytes(out: &mut [u8], at: Option<usize>, text: &[u8]) -> Option<usize>
    ensures { Prints out.old at text.now out.new result }
{
    let from = at?;
    let room = out.len().checked_sub(from)?;
    let count = text.len().min(room);
    out[from..from + count].copy_from_slice(&text[..count]);
    if count < text.len() {
        None
    } else {
        Some(from + count)
    }
}

// One byte is stored by itself: a copy of a length that the compiler does not know costs a call.
pub fn print_byte(out: &mut [u8], at: Option<usize>, byte: u8) -> Option<usize>
    ensures { Prints out.old at (byte ∷ []) out.new result }
{
    let from = at?;
    if out.len() <= from {
        return None;
    }
    out[from] = byte;
    Some(from + 1)
}

pub fn print_u64(out: &mut [u8], at: Option<usize>, n: u64) -> Option<usize>
    ensures { Prints out.old at (decimal n) out.new result }
{
    let digits = bytes_decimal::digits_of(n);
    let bytes = digits.bytes;
    let start = digits.start;
    print_bytes(out, at, &bytes[start..])
}

// Of a number below 0 a minus sign and the digits of its magnitude.
pub fn print_i64(out: &mut [u8], at: Option<usize>, z: i64) -> Option<usize>
    ensures { Prints out.old at (signed_decimal z) out.new result }
{
    if z < 0 {
        let sign = print_byte(out, at, 45);
        print_u64(out, sign, (-1 - z) as u64 + 1)
    } else {
        print_u64(out, at, z as u64)
    }
}

// A tab, then the field.
pub fn print_field_bytes(out: &mut [u8], at: Option<usize>, text: &[u8]) -> Option<usize>
    ensures { Prints out.old at (spaced_field text.now) out.new result }
{
    let start = print_byte(out, at, 9);
    print_bytes(out, start, text)
}

pub fn print_field_u64(out: &mut [u8], at: Option<usize>, n: u64) -> Option<usize>
    ensures { Prints out.old at (spaced_field (decimal n)) out.new result }
{
    let start = print_byte(out, at, 9);
    print_u64(out, start, n)
}

pub fn print_field_i64(out: &mut [u8], at: Option<usize>, z: i64) -> Option<usize>
    ensures { Prints out.old at (spaced_field (signed_decimal z)) out.new result }
{
    let start = print_byte(out, at, 9);
    print_i64(out, start, z)
}

pub fn print_newline(out: &mut [u8], at: Option<usize>) -> Option<usize>
    ensures { Prints out.old at (line_feed ∷ []) out.new result }
{
    print_byte(out, at, 10)
}
