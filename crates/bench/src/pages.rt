// Pages of 64 keys of collection 1, and as many single look-ups, in the table of a session's entries.
ghost use Rattle.std.specs.Prelude.{◌≡◌, length};
ghost use Rattle.spec_page.specs.Page.{page_keys};

use crate::sums;
use panel_page::rows::PageLookup;
use panel_rows::values::ValueLookup;
use shell_player::session::ShellSession;

const ANSWER_BYTES: usize = PageLookup::KEYS * PageLookup::WIDTH;

// Keys of 1 to 120, no two of them equal.
fn page_keys() -> [u64; PageLookup::KEYS]
    ensures { page_keys ≡ length result }
{
    let mut keys = [0u64; PageLookup::KEYS];
    for i in 0..PageLookup::KEYS {
        keys[i] = (i as u64 * 17) % 120 + 1;
    }
    keys
}

fn text_length(value: ValueLookup) -> u64 {
    value.text_len as u64
}

fn look_up_singly(table: &[u8], count: usize, keys: &[u64]) -> u64 {
    let mut sum: u64 = 0;
    for &key in keys {
        sum = sums::mix(
            sum,
            text_length(panel_lookups::entry_value(table, count, 1, key)),
        );
    }
    sum
}

fn look_up_page(table: &[u8], count: usize, keys: &[u64], answers: &mut [u8]) -> u64 {
    match panel_page::collection_page(table, count, 1, keys, answers) {
        Ok(n) => n as u64,
        Err(refusal) => refusal.number(),
    }
}

// Takes each row of a page apart.
fn read_rows(answers: &[u8]) -> u64 {
    let mut sum: u64 = 0;
    for i in 0..PageLookup::KEYS {
        let row = bytes_records::record_at(answers, PageLookup::WIDTH, PageLookup::KEYS, i);
        let lookup = PageLookup::read(row);
        sum = sums::mix(sum, text_length(lookup.value));
    }
    sum
}

// Whether a byte of the answers is 0, so that none of them is written in vain.
fn test_byte(answers: &[u8], n: u64) -> u64 {
    let at = (n % ANSWER_BYTES as u64) as usize;
    if answers.len() <= at {
        return 0;
    }
    if answers[at] == 0 { 1 } else { 2 }
}

fn use_page(way: u8, table: &[u8], count: usize, keys: &[u64], answers: &mut [u8], n: u64) -> u64 {
    if way == b's' {
        return look_up_singly(table, count, keys);
    }
    let rows = look_up_page(table, count, keys, answers);
    if way == b'x' {
        return sums::mix(rows, read_rows(answers));
    }
    sums::mix(rows, test_byte(answers, n))
}

pub(crate) fn use_pages(way: u8, session: ShellSession, times: u64) -> u64 {
    let table = session.local_projection.entries;
    let counts = session.local_projection.counts;
    let count = counts.entries;
    let keys = page_keys();
    let mut answers = [0u8; ANSWER_BYTES];
    let mut sum: u64 = 0;
    for left in (1..=times).rev() {
        sum = sums::mix(sum, use_page(way, &table, count, &keys, &mut answers, left));
    }
    sum
}
