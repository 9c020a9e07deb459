// Prints a collection of a session: 02, Job 10. Methods stand beside their struct, so the call is a function that takes the session first.
ghost use Rattle.std.specs.Prelude.{◌≡◌};
ghost use Rattle.spec_session.specs.Session.{Session};
ghost use Rattle.spec_panel_print.specs.Print.{collection_print};
ghost use Rattle.bytes_wire.specs.Write.{overwrite};
ghost use Rattle.panel_print.specs.Answers.{print_answer, OthersKept};
ghost use Rattle.shell_player.specs.Holds.{Holds};

use panel_print::PrintRefusal;
use shell_player::session::ShellSession;

// From the start of the output on, whole or not at all. What is behind the print stays; a refusal leaves every byte. A closed session prints as
// any other.
pub fn print_collection(
    session: ShellSession,
    collection: u64,
    out: &mut [u8],
) -> Result<usize, PrintRefusal>
    ensures printed { (m : Session) → Holds session m
        → (result ≡ print_answer out.old (collection_print m.projection collection)) × (out.new ≡ overwrite out.old 0 (collection_print m.projection collection)) }
    ensures kept { OthersKept out.old out.new result }
{
    let table = session.local_projection.entries;
    let counts = session.local_projection.counts;
    panel_print::print_collection(&table, counts.entries, collection, out)
}
