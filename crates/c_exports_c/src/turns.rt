// The exported calls on turns among senders.
ghost use Rattle.session_lent.specs.Head.{cursor_numbered};
ghost use Rattle.session_lent_turns.specs.LentTurns.{SetUpCall, RegisterCall, TurnCall};
ghost use Rattle.c_exports.specs.Calls.{Told};
ghost use Rattle.c_exports.specs.Turns.{lent_set_up_told, lent_register_told, lent_turn_told};

use c_exports::turns;
use c_exports::turns::GeysertrayTurn;

#[unsafe(no_mangle)]
pub extern "C" fn geysertray_turns_set_up(
    turns: &mut [u64; session_lent_turns::NUMBERS],
    senders: usize,
) -> u64
    ensures { Told lent_set_up_told (λ a. SetUpCall senders turns.old a turns.new) result }
{
    turns::geysertray_turns_set_up(turns, senders)
}

#[unsafe(no_mangle)]
pub extern "C" fn geysertray_turns_register(
    turns: &mut [u64; session_lent_turns::NUMBERS],
    sender: usize,
) -> u64
    ensures { Told lent_register_told (λ a. RegisterCall sender turns.old a turns.new) result }
{
    turns::geysertray_turns_register(turns, sender)
}

#[unsafe(no_mangle)]
pub extern "C" fn geysertray_turns_next(
    turns: &mut [u64; session_lent_turns::NUMBERS],
    has_cursor: u64,
    cursor: u64,
) -> GeysertrayTurn
    ensures { Told lent_turn_told (λ a. TurnCall (cursor_numbered has_cursor cursor) turns.old a turns.new) result }
{
    turns::geysertray_turns_next(turns, has_cursor, cursor)
}
