// Whether a text is UTF-8 by RFC 3629, and how many characters it has. A table of byte classes decides: each byte's class comes from it. Only
// whole groups of 16 bytes below 0x80 are passed ahead of it.
#![tactic(auto)]

ghost use Rattle.std.specs.Prelude.{◌+◌, ◌≤◌, ◌<◌, ◌≡◌, true, [], ◌∷◌, length, drop};
ghost use Rattle.bytes_utf8.specs.Classes.{class_of, IsClassTable, IsTailClass, tails, sequence, Leads};
ghost use Rattle.bytes_utf8.specs.Characters.{matches, length_after, character_length, if_any, AsciiBetween, TellsAscii, Reached};
ghost use Rattle.bytes_utf8.specs.Answer.{utf8_answer};

mod tables;

use tables::CLASSES;

// How far a text was read: so many bytes, which are so many characters.
#[derive(Clone, Copy)]
struct Position {
    at: usize,
    characters: usize,
}

// The class of a byte. The table is lent: a constant that is indexed is written out anew at each use.
fn class_of(classes: &[u8; 256], byte: u8) -> u8
    requires { IsClassTable classes.now }
    ensures { result ≡ class_of byte }
{
    classes[byte as usize]
}

// Whether a byte of one of the classes low to high stands at the position.
fn is_tail(classes: &[u8; 256], text: &[u8], at: usize, low: u8, high: u8) -> bool
    requires { IsClassTable classes.now × IsTailClass low × IsTailClass high }
    ensures { result ≡ matches (tails low high ∷ []) (drop at text.now) }
{
    if at < text.len() {
        let class = class_of(classes, text[at]);
        return low <= class && class <= high;
    }
    false
}

// The length of the sequence that the first byte begins, if its tails stand there, the first of them of the classes low to high.
fn sequence_length(
    classes: &[u8; 256],
    text: &[u8],
    low: u8,
    high: u8,
    length: usize,
) -> Option<usize>
    requires { IsClassTable classes.now × IsTailClass low × IsTailClass high × (2 ≤ length) }
    ensures { result ≡ if_any (length_after (sequence low high length) (drop 1 text.now)) }
{
    if !is_tail(classes, text, 1, low, high) {
        return None;
    }
    for i in 2..length {
        if !is_tail(classes, text, i, 1, 3) {
            return None;
        }
    }
    Some(length)
}

// The number of bytes of the character that the text begins with, if it begins with one.
fn character_length(classes: &[u8; 256], text: &[u8]) -> Option<usize>
    requires { IsClassTable classes.now × (0 < length text.now) }
    ensures { result ≡ if_any (character_length text.now) }
{
    match class_of(classes, text[0]) {
        0 => Some(1),
        4 => sequence_length(classes, text, 1, 3, 2),
        5 => sequence_length(classes, text, 3, 3, 3),
        6 => sequence_length(classes, text, 1, 3, 3),
        7 => sequence_length(classes, text, 1, 2, 3),
        8 => sequence_length(classes, text, 2, 3, 4),
        9 => sequence_length(classes, text, 1, 3, 4),
        10 => sequence_length(classes, text, 1, 1, 4),
        _ => None,
    }
}

// Eight bytes as a number: one load.
fn word_at(text: &[u8], at: usize) -> u64
    requires { at + 8 ≤ length text.now }
    ensures { TellsAscii text.now at 8 result }
{
    u64::from_le_bytes([
        text[at],
        text[at + 1],
        text[at + 2],
        text[at + 3],
        text[at + 4],
        text[at + 5],
        text[at + 6],
        text[at + 7],
    ])
}

// Whether the 16 bytes there are below 0x80, told by the highest bits of two words.
fn is_ascii(text: &[u8], at: usize) -> bool
    requires { at + 16 ≤ length text.now }
    ensures { result ≡ true → AsciiBetween text.now at (at + 16) }
{
    let low = word_at(text, at);
    let high = word_at(text, at + 8);
    low & 0x8080808080808080 == 0 && high & 0x8080808080808080 == 0
}

// The position behind the groups of 16 bytes below 0x80 that stand there.
fn groups_end(text: &[u8], from: usize) -> usize
    requires { from ≤ length text.now }
    ensures { AsciiBetween text.now from result }
{
    let mut i = from;
    // The position is the answer: a `for` over the groups would count it beside them.
    while 16 <= text.len() - i {
        if !is_ascii(text, i) {
            return i;
        }
        i += 16;
    }
    i
}

// The position behind the bytes of class 0 that stand there. Groups are tried only behind two of them, not at a lone space between words.
fn ascii_end(classes: &[u8; 256], text: &[u8], from: usize) -> usize
    requires { IsClassTable classes.now × (from ≤ length text.now) }
    ensures { AsciiBetween text.now from result }
{
    if from == text.len() {
        return from;
    }
    if class_of(classes, text[from]) != 0 {
        return from;
    }
    let next = from + 1;
    if next == text.len() {
        return next;
    }
    if class_of(classes, text[next]) != 0 {
        return next;
    }
    for i in groups_end(text, next)..text.len() {
        if class_of(classes, text[i]) != 0 {
            return i;
        }
    }
    text.len()
}

// The position behind a character of this width whose first byte is of this class, or the same position where none stands.
fn character_end(
    classes: &[u8; 256],
    text: &[u8],
    from: Position,
    lead: u8,
    width: usize,
) -> Position
    requires { IsClassTable classes.now × Reached text.now from.characters from.at × Leads lead width }
    ensures { Reached text.now result.characters result.at × (from.at ≤ result.at) }
{
    let at = from.at;
    if text.len() - at < width {
        return from;
    }
    if class_of(classes, text[at]) != lead {
        return from;
    }
    let Some(length) = sequence_length(classes, &text[at..], 1, 3, width) else {
        return from;
    };
    Position {
        at: at + length,
        characters: from.characters + 1,
    }
}

// The position behind all such characters there. A turn takes two.
fn row_end(classes: &[u8; 256], text: &[u8], from: Position, lead: u8, width: usize) -> Position
    requires { IsClassTable classes.now × Reached text.now from.characters from.at × Leads lead width }
    ensures { Reached text.now result.characters result.at × (from.at ≤ result.at) }
{
    let mut at = from.at;
    let mut characters = from.characters;
    // A turn ends where a character does, and may end the row: no range has these positions.
    while 2 * width <= text.len() - at {
        let one = character_end(classes, text, Position { at, characters }, lead, width);
        if one.at == at {
            return one;
        }
        let two = character_end(classes, text, one, lead, width);
        if two.at == one.at {
            return two;
        }
        at = two.at;
        characters = two.characters;
    }
    character_end(classes, text, Position { at, characters }, lead, width)
}

// The position behind characters that are taken by their classes, up to one of less than three bytes. It is the same position where none stands.
fn wide_end(classes: &[u8; 256], text: &[u8], from: Position) -> Position
    requires { IsClassTable classes.now × Reached text.now from.characters from.at × (from.at < length text.now) }
    ensures { Reached text.now result.characters result.at × (from.at ≤ result.at) × (result.at ≡ from.at → 0 ≡ character_length (drop from.at text.now)) }
{
    let mut at = from.at;
    let mut characters = from.characters;
    // Each character has its own length, so no range has these positions.
    while at < text.len() {
        let Some(length) = character_length(classes, &text[at..]) else {
            return Position { at, characters };
        };
        at += length;
        characters += 1;
        if length < 3 {
            return Position { at, characters };
        }
    }
    Position { at, characters }
}

// The position behind the characters of three bytes there, or else behind those taken by their classes.
fn other_end(classes: &[u8; 256], text: &[u8], from: Position) -> Position
    requires { IsClassTable classes.now × Reached text.now from.characters from.at × (from.at < length text.now) }
    ensures { Reached text.now result.characters result.at × (from.at ≤ result.at) × (result.at ≡ from.at → 0 ≡ character_length (drop from.at text.now)) }
{
    let at = from.at;
    let threes = row_end(classes, text, from, 6, 3);
    if at < threes.at {
        return threes;
    }
    wide_end(classes, text, from)
}

// The check of a text whose bytes before the position are below 0x80. Characters of two bytes and of one are passed in rows, as words and what
// stands between them, and where none stands other characters.
fn check_from(classes: &[u8; 256], text: &[u8], from: usize) -> Option<usize>
    requires { IsClassTable classes.now × AsciiBetween text.now 0 from }
    ensures { result ≡ utf8_answer text.now }
{
    let mut characters = from;
    let mut i = from;
    // A turn ends where a row does, so no range has these positions.
    while i < text.len() {
        let twos = row_end(classes, text, Position { at: i, characters }, 4, 2);
        let middle = twos.at;
        let end = ascii_end(classes, text, middle);
        if i < end {
            characters = twos.characters + (end - middle);
            i = end;
        } else {
            let next = other_end(classes, text, Position { at: i, characters });
            if next.at == i {
                return None;
            }
            characters = next.characters;
            i = next.at;
        }
    }
    Some(characters)
}

// The position behind the groups below 0x80 at the start. Where only a part of a group is left, the last 16 bytes are a group too.
fn front_end(text: &[u8]) -> usize
    ensures { AsciiBetween text.now 0 result }
{
    let len = text.len();
    if len < 16 {
        return 0;
    }
    let passed = groups_end(text, 0);
    if 16 <= len - passed {
        return passed;
    }
    if is_ascii(text, len - 16) {
        return len;
    }
    passed
}

// The number of characters of a text that is UTF-8. The table is written out for a text that is not whole groups of bytes below 0x80.
pub fn check(text: &[u8]) -> Option<usize>
    ensures { result ≡ utf8_answer text.now }
{
    let passed = front_end(text);
    if passed == text.len() {
        return Some(passed);
    }
    let classes = CLASSES;
    check_from(&classes, text, passed)
}
