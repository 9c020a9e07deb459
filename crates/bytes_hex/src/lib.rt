// Lower-case hex: decoded into a lent slice here, and printed.
#![tactic(auto)]

pub mod printing;

ghost use Rattle.std.specs.Prelude.{◌≡◌, ◌*◌, ◌≤◌, ◌<◌, length};
ghost use Rattle.std.specs.List.{list_all};
ghost use Rattle.bytes_wire.specs.Write.{overwrite};
ghost use Rattle.spec_replay.specs.Hex.{hex_pairs, read_hex};
ghost use Rattle.bytes_hex.specs.Decoding.{is_hex_digit, hex_value, is_pairs, pair_bytes, decoding, decoded_into};

// Why nothing was decoded and nothing written: the text is no hex, or there is no room for its bytes.
#[derive(Clone, Copy)]
pub enum HexRefusal {
    Malformed,
    NoRoom,
}

fn is_hex_digit(byte: u8) -> bool
    ensures { result ≡ is_hex_digit byte }
{
    matches!(byte, b'0'..=b'9' | b'a'..=b'f')
}

// The value of a digit, and 0 of any other byte.
fn hex_value(byte: u8) -> u8
    ensures { (result ≡ hex_value byte) × (result < 16) }
{
    match byte {
        b'0'..=b'9' => byte - b'0',
        b'a'..=b'f' => byte - b'a' + 10,
        _ => 0,
    }
}

fn are_hex_digits(text: &[u8]) -> bool
    ensures { result ≡ list_all is_hex_digit text.now }
{
    text.iter().all(|&byte| is_hex_digit(byte))
}

fn is_hex_pairs(text: &[u8]) -> bool
    ensures { result ≡ is_pairs text.now }
{
    text.len() % 2 == 0 && are_hex_digits(text)
}

// Stores the bytes of count pairs of digits.
fn store_pairs(text: &[u8], count: usize, out: &mut [u8])
    requires { (length text.now ≡ 2 * count) × (count ≤ length out.old) }
    ensures { out.new ≡ overwrite out.old 0 (pair_bytes text.now) }
{
    for i in 0..count {
        out[i] = 16 * hex_value(text[2 * i]) + hex_value(text[2 * i + 1]);
    }
}

fn decode_pairs(text: &[u8], out: &mut [u8]) -> Result<usize, HexRefusal>
    ensures value { result ≡ decoding (length out.old) (hex_pairs text.now) }
    ensures out_after { out.new ≡ decoded_into out.old (hex_pairs text.now) }
{
    if !is_hex_pairs(text) {
        return Err(HexRefusal::Malformed);
    }
    let count = text.len() / 2;
    if out.len() < count {
        return Err(HexRefusal::NoRoom);
    }
    store_pairs(text, count, out);
    Ok(count)
}

// Decodes pairs of lower-case digits, or a dash alone, which stands for no bytes.
pub fn decode_hex(text: &[u8], out: &mut [u8]) -> Result<usize, HexRefusal>
    ensures value { result ≡ decoding (length out.old) (read_hex text.now) }
    ensures out_after { out.new ≡ decoded_into out.old (read_hex text.now) }
{
    if text.is_empty() {
        return Err(HexRefusal::Malformed);
    }
    if text.len() == 1 && text[0] == b'-' {
        return Ok(0);
    }
    decode_pairs(text, out)
}
