// A text within a line: 02, Job 2. It is escaped while it is printed, in one pass.
ghost use Rattle.std.specs.Prelude.{[], ◌∷◌};
ghost use Rattle.spec_listing.specs.Escapes.{backslash, escaped_byte, escaped};
ghost use Rattle.bytes_printer.specs.Prints.{Prints, Within};

fn print_escape(out: &mut [u8], at: Option<usize>, letter: u8) -> Option<usize>
    ensures { Prints out.old at (backslash ∷ letter ∷ []) out.new result }
{
    let first = bytes_printer::print_byte(out, at, b'\\');
    bytes_printer::print_byte(out, first, letter)
}

// One byte of a text: a backslash, a tab, a newline or a carriage return as two, any other as it is.
fn print_text_byte(out: &mut [u8], at: Option<usize>, byte: u8) -> Option<usize>
    ensures { Prints out.old at (escaped_byte byte) out.new result }
{
    match byte {
        b'\\' => print_escape(out, at, b'\\'),
        b'\t' => print_escape(out, at, b't'),
        b'\n' => print_escape(out, at, b'n'),
        b'\r' => print_escape(out, at, b'r'),
        _ => bytes_printer::print_byte(out, at, byte),
    }
}

pub(crate) fn print_escaped(out: &mut [u8], from: Option<usize>, text: &[u8]) -> Option<usize>
    ensures { Within out.old from
        → Prints out.old from (escaped text.now) out.new result }
{
    let mut at = from;
    for &byte in text {
        at = print_text_byte(out, at, byte);
    }
    at
}
