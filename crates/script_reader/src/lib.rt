// Lines, in bytes that were read.
#![tactic(auto)]

ghost use Rattle.std.specs.Prelude.{◌≡◌, ◌+◌, ◌-◌, ◌≤◌, ◌==◌, length, drop, position};
ghost use Rattle.script_reader.specs.Lines.{first_script_line};

// The index of the first LF.
fn first_newline(bytes: &[u8]) -> Option<usize>
    ensures { result ≡ position (λ b. b == 10) bytes.now }
{
    bytes.iter().position(|byte| *byte == b'\n')
}

// Where the line that starts at index from ends: at the next LF, or at the end of the bytes.
pub fn line_end(bytes: &[u8], from: usize) -> usize
    ensures value { result ≡ from + length (first_script_line (drop from bytes.now)) }
    ensures upper_bound { result ≤ from + (length bytes.now - from) }
{
    let rest = bytes.get(from..).unwrap_or(&[]);
    from + first_newline(rest).unwrap_or(rest.len())
}
