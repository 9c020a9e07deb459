// A page of keys of a session, looked up together: 02, Job 7.
ghost use Rattle.std.specs.Prelude.{◌≡◌, ◌/◌, length};
ghost use Rattle.spec_session.specs.Session.{Session};
ghost use Rattle.spec_page.specs.Page.{page_refusal, table_left};
ghost use Rattle.panel_page.specs.PageTable.{page_width, page_bytes, page_answer, OtherPlacesKept};
ghost use Rattle.shell_player.specs.Holds.{Holds};

use panel_page::PageRefusal;
use shell_player::session::ShellSession;

// One row for each key of a collection, in their order. Places behind the last key stay; a refusal leaves every byte.
pub fn collection_page(
    session: ShellSession,
    collection: u64,
    keys: &[u64],
    answers: &mut [u8],
) -> Result<usize, PageRefusal>
    ensures told { result ≡ page_answer (length keys.now) (page_refusal (length keys.now) (length answers.old / page_width)) }
    ensures written { (m : Session) → Holds session m
        → answers.new ≡ table_left (page_refusal (length keys.now) (length answers.old / page_width)) (page_bytes m.projection collection keys.now) answers.old }
    ensures kept { OtherPlacesKept answers.old answers.new result }
{
    let table = session.local_projection.entries;
    let counts = session.local_projection.counts;
    panel_page::collection_page(&table, counts.entries, collection, keys, answers)
}
