// The patch checks of one set: the place, how many findings there are, how many records were written, what the quick check says, and all numbers
// of the lent slice, which held 9 before; or the number of a refusal and the slice.
use check_quick::quick_set;
use check_quick::quick_set::QuickCheck;
use check_set::check_set as set_check;
use check_set::check_set::{CheckPlace, PatchSetCheck};
use projection_patch::patch::ProjectionPatchEdition;
use projection_patch::read_values::ProjectionPatchReadFault;
use std::io;

// The longest slice that is lent.
const NUMBERS: usize = check_set::list_set::FindingsListed::NUMBERS;

fn show(rt: &impl Print, number: u64) -> io::Result<()> {
    print!(rt; "{number} ")
}

fn show_place(rt: &impl Print, place: CheckPlace) -> io::Result<()> {
    match place {
        CheckPlace::Patch(index) => {
            rt.print("P ")?;
            show(rt, index as u64)
        }
        CheckPlace::Set => rt.print("S "),
    }
}

fn show_answer(
    rt: &impl Print,
    answer: Result<PatchSetCheck, ProjectionPatchReadFault>,
) -> io::Result<()> {
    match answer {
        Ok(checked) => {
            show_place(rt, checked.place)?;
            show(rt, checked.logical as u64)?;
            show(rt, checked.written as u64)
        }
        Err(fault) => rt.print(fault.number()),
    }
}

fn show_quick(
    rt: &impl Print,
    answer: Result<QuickCheck, ProjectionPatchReadFault>,
) -> io::Result<()> {
    match answer {
        Ok(QuickCheck::Clean { .. }) => rt.print("clean:"),
        Ok(QuickCheck::Found) => rt.print("found:"),
        Err(_) => rt.print(":"),
    }
}

fn show_numbers(rt: &impl Print, numbers: &[u64]) -> io::Result<()> {
    for number in numbers {
        print!(rt; " {number}")?;
    }
    rt.println("")
}

fn check_into(rt: &impl Print, set: &[u8], lent: &mut [u64]) -> io::Result<()> {
    show_answer(rt, set_check::check(set, ProjectionPatchEdition::V1, lent))?;
    show_quick(rt, quick_set::quick_check(set, ProjectionPatchEdition::V1))?;
    show_numbers(rt, lent)
}

pub(crate) fn check(rt: &impl Print, set: &[u8], places: usize) -> io::Result<()> {
    let mut lent = [9u64; NUMBERS];
    if places <= NUMBERS {
        check_into(rt, set, &mut lent[0..places])?;
    }
    Ok(())
}
