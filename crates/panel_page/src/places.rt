// The places of an answer table. While a page is filled, a place whose first byte is 0 stands for a row of zeros, whatever else it holds: so only
// the places of keys that were not found are cleared, at the end.
ghost use Rattle.std.specs.Prelude.{◌≡◌, List, map, ℕ, ◌*◌, length};
ghost use Rattle.bytes_records.specs.Table.{HoldsRows};
ghost use Rattle.panel_page.specs.PageTable.{page_width};
ghost use Rattle.panel_page.specs.Shown.{emptied, shown, place_after};

use crate::rows::PageLookup;

fn empty_place(place: &mut [u8])
    ensures { place.new ≡ emptied place.old }
{
    if place.len() == 0 {
        return;
    }
    place[0] = 0;
}

fn clear_empty(place: &mut [u8])
    ensures { place.new ≡ shown place.old }
{
    if place.len() == 0 {
        return;
    }
    if place[0] == 0 {
        bytes_records::moves::clear(place);
    }
}

// At the end a place becomes the row that it stands for, and before that it stands for a row of zeros.
fn change_place(place: &mut [u8], ending: bool)
    ensures { place.new ≡ place_after ending place.old }
{
    if ending {
        clear_empty(place);
    } else {
        empty_place(place);
    }
}

// Changes every place so.
pub(crate) fn change_places(answers: &mut [u8], count: usize, ending: bool)
    requires { length answers.old ≡ count * page_width }
    ensures { (m : List (List ℕ)) → HoldsRows page_width count answers.old m → HoldsRows page_width count answers.new (map (place_after ending) m) }
{
    let mut i: usize = 0;
    while i < count {
        let from = i * PageLookup::WIDTH;
        let end = from + PageLookup::WIDTH;
        change_place(&mut answers[from..end], ending);
        i += 1;
    }
}
