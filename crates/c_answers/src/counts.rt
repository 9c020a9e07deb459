// Answers that count: entries, or what was written into lent memory.
ghost use Rattle.std.specs.Prelude.{◌≡◌};
ghost use Rattle.c_answers.specs.Counts.{counted_to, refused_to, not_counted, count_told, written_to, listing_told, print_to, print_told, page_to, page_told, import_told, conversion_told};

use panel_page::PageRefusal;
use panel_print::PrintRefusal;
use patch_converter::ConversionRefusal;
use patch_import::answer::ImportRefusal;
use patch_part_writer::written::WriteRefusal;

// 0 and how many; 2 and the number of the rule that refuses; 3 no session in the memory; 4 no such edition. A refusal leaves every byte.
#[repr(C)]
#[derive(Clone, Copy)]
pub struct GeysertrayCount {
    pub disposition: u64,
    pub number: u64,
    pub count: u64,
}

const NO_SESSION: u64 = 3;

fn counted(count: usize) -> GeysertrayCount
    ensures { result ≡ counted_to count }
{
    GeysertrayCount {
        disposition: 0,
        number: 0,
        count: count as u64,
    }
}

fn refused(number: u64) -> GeysertrayCount
    ensures { result ≡ refused_to number }
{
    GeysertrayCount {
        disposition: 2,
        number,
        count: 0,
    }
}

pub fn not_counted(disposition: u64) -> GeysertrayCount
    ensures { result ≡ not_counted disposition }
{
    GeysertrayCount {
        disposition,
        number: 0,
        count: 0,
    }
}

pub fn count_told(answer: Option<usize>) -> GeysertrayCount
    ensures { result ≡ count_told answer }
{
    match answer {
        Some(n) => counted(n),
        None => not_counted(NO_SESSION),
    }
}

pub fn written_to(answer: Result<usize, WriteRefusal>) -> GeysertrayCount
    ensures { result ≡ written_to answer }
{
    match answer {
        Ok(n) => counted(n),
        Err(refusal) => refused(refusal.number()),
    }
}

pub fn listing_told(answer: Option<Result<usize, WriteRefusal>>) -> GeysertrayCount
    ensures { result ≡ listing_told answer }
{
    match answer {
        Some(written) => written_to(written),
        None => not_counted(NO_SESSION),
    }
}

fn print_to(answer: Result<usize, PrintRefusal>) -> GeysertrayCount
    ensures { result ≡ print_to answer }
{
    match answer {
        Ok(n) => counted(n),
        Err(refusal) => refused(refusal.number()),
    }
}

pub fn print_told(answer: Option<Result<usize, PrintRefusal>>) -> GeysertrayCount
    ensures { result ≡ print_told answer }
{
    match answer {
        Some(print) => print_to(print),
        None => not_counted(NO_SESSION),
    }
}

fn page_to(answer: Result<usize, PageRefusal>) -> GeysertrayCount
    ensures { result ≡ page_to answer }
{
    match answer {
        Ok(n) => counted(n),
        Err(refusal) => refused(refusal.number()),
    }
}

pub fn page_told(answer: Option<Result<usize, PageRefusal>>) -> GeysertrayCount
    ensures { result ≡ page_told answer }
{
    match answer {
        Some(page) => page_to(page),
        None => not_counted(NO_SESSION),
    }
}

pub fn import_told(answer: Result<usize, ImportRefusal>) -> GeysertrayCount
    ensures { result ≡ import_told answer }
{
    match answer {
        Ok(n) => counted(n),
        Err(refusal) => refused(refusal.number()),
    }
}

pub fn conversion_told(answer: Result<usize, ConversionRefusal>) -> GeysertrayCount
    ensures { result ≡ conversion_told answer }
{
    match answer {
        Ok(n) => counted(n),
        Err(refusal) => refused(refusal.number()),
    }
}
