// The words of a script: tables of words in lines of their own, and the number of the form that the first words of a line ask for.
ghost use Rattle.std.specs.Prelude.{◌≡◌, ◌+◌, ◌≤◌, length};
ghost use Rattle.spec_replay.specs.Lines.{space, split};
ghost use Rattle.script_parser.specs.Words.{index_of};
ghost use Rattle.script_parser.specs.Forms.{form_count};
ghost use Rattle.script_parser.specs.FormPlaces.{SecondWord, FormOf};

use crate::fields::{SPACE, field_end, is_word};

// The form of a command, and where its word ends.
#[derive(Clone, Copy)]
pub struct FormAt {
    pub form: usize,
    pub end: usize,
}

impl FormAt {
    // Where the forms of apply's words, of value's, of mark's and of the first words begin, and what is no form.
    const STIMULI: usize = 0;

    const VALUES: usize = 6;

    const MARKS: usize = 10;

    const NONE: usize = 15;

    pub(crate) const FIRST: usize = 16;

    // The forms of lines with any number of fields.
    pub(crate) const GROUP: usize = 35;

    pub(crate) const PAGE: usize = 37;

    // The form of a line with more numbers than others.
    pub(crate) const IMPORT: usize = 38;
}

// The number of the field among words that are parted by spaces: that of all of them where it is none.
fn word_index(words: &[u8], field: &[u8]) -> usize
    ensures { (result ≡ index_of field.now (split space words.now)) × (result ≤ length words.now + 1) }
{
    let mut at: usize = 0;
    let mut i: usize = 0;
    loop {
        let end = field_end(words, at, SPACE);
        if is_word(field, &words[at..end]) {
            return i;
        }
        if words.len() <= end {
            return i + 1;
        }
        at = end + 1;
        i += 1;
    }
}

// The form that the word behind the one that ends at index end asks for; those of its table begin at base.
fn second_form(line: &[u8], end: usize, words: &[u8], base: usize) -> FormAt
    requires { (base ≤ form_count) × (length words.now ≤ form_count + form_count) }
    ensures { SecondWord line.now end words.now base result }
{
    if line.len() <= end {
        return FormAt {
            form: FormAt::NONE,
            end,
        };
    }
    let from = end + 1;
    let to = field_end(line, from, SPACE);
    let index = word_index(words, &line[from..to]);
    FormAt {
        form: base + index,
        end: to,
    }
}

// The form that a line asks for.
pub(crate) fn find_form(line: &[u8]) -> FormAt
    ensures { FormOf line.now result }
{
    let end = field_end(line, 0, SPACE);
    let first = word_index(
        b"session node binding collection create apply batch check list show value senders wait turn edition convert mark depends print group length page import explain",
        &line[0..end],
    );
    if first == 5 {
        return second_form(
            line,
            end,
            b"activate suspend resume close noop",
            FormAt::STIMULI,
        );
    }
    if first == 10 {
        return second_form(line, end, b"binding node entry", FormAt::VALUES);
    }
    if first == 16 {
        return second_form(line, end, b"binding node entry", FormAt::MARKS);
    }
    FormAt {
        form: FormAt::FIRST + first,
        end,
    }
}
