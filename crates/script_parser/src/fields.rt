// The fields of a line, read one behind the other. A field's place is told by where the one before it ends.
ghost use Rattle.std.specs.Prelude.{◌≡◌, ◌+◌, ◌≤◌, eqb, length, drop};
ghost use Rattle.spec_lists.specs.Lists.{equal_lists};
ghost use Rattle.script_parser.specs.Fields.{first_field, NumberAfter, most_numbers, NumbersAfter, HexLast};

// Numbers in a row of fields, zeros in the places behind them, and where the last field ends.
#[derive(Clone, Copy)]
pub struct NumberFields {
    pub values: [u64; NumberFields::MOST],
    pub end: usize,
}

impl NumberFields {
    // No command, and no batch of a group, has more numbers.
    pub const MOST: usize = 7;
}

// What parts the fields of a line, and the numbers of a batch.
pub(crate) const SPACE: u8 = 32;

pub(crate) const COMMA: u8 = 44;

// Where the field that starts at index from ends: at the next separator, or at the end of the line.
pub(crate) fn field_end(line: &[u8], from: usize, separator: u8) -> usize
    ensures { result ≡ from + length (first_field separator (drop from line.now)) }
{
    for i in from..line.len() {
        if line[i] == separator {
            return i;
        }
    }
    line.len().max(from)
}

// Whether a field is the word.
pub(crate) fn is_word(field: &[u8], word: &[u8]) -> bool
    ensures { result ≡ equal_lists eqb word.now field.now }
{
    field == word
}

// The number behind the field that ends at index end, and where its own field ends; None for any other field, or none.
pub(crate) fn number_after(line: &[u8], end: usize, separator: u8) -> Option<(u64, usize)>
    ensures { NumberAfter separator line.now end result }
{
    if line.len() <= end {
        return None;
    }
    let from = end + 1;
    let to = field_end(line, from, separator);
    let n = bytes_decimal::read_u64(&line[from..to])?;
    Some((n, to))
}

// Where the field behind the one that ends at index end starts, if it is the last: it is to be hex.
pub(crate) fn last_hex(line: &[u8], end: usize) -> Option<usize>
    ensures { HexLast line.now end result }
{
    if line.len() <= end {
        return None;
    }
    let from = end + 1;
    if field_end(line, from, SPACE) < line.len() {
        return None;
    }
    Some(from)
}

// So many numbers behind the field that ends at index end.
pub(crate) fn read_numbers(
    line: &[u8],
    end: usize,
    count: usize,
    separator: u8,
) -> Option<NumberFields>
    requires { count ≤ most_numbers }
    ensures { NumbersAfter separator line.now end count result }
{
    let mut values = [0u64; NumberFields::MOST];
    let mut at = end;
    for i in 0..count {
        let (n, to) = number_after(line, at, separator)?;
        values[i] = n;
        at = to;
    }
    Some(NumberFields { values, end: at })
}
