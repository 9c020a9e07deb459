// The UTF-8 check of one text.

// The number of characters, or 0.
fn characters(text: &[u8]) -> u64 {
    bytes_utf8::check(text).map_or(0, |characters| characters as u64)
}

// Checks the text; its first byte is a new digit each time, which keeps the uses apart.
pub(crate) fn check_often(text: &mut [u8], times: u64) -> u64 {
    let mut last = 0;
    for left in (1..=times).rev() {
        bytes_wire::write_u8_at(text, 0, b'0' + (left % 8) as u8);
        last = characters(text);
    }
    last
}
