// The exported calls on turns among senders, in eleven numbers of the caller's: how many senders there are, of each of eight whether it waits,
// and who was last named.
ghost use Rattle.std.specs.Prelude.{◌≡◌};
ghost use Rattle.session_lent.specs.Head.{cursor_numbered};
ghost use Rattle.session_lent_turns.specs.LentTurns.{SetUpCall, RegisterCall, TurnCall};
ghost use Rattle.c_exports.specs.Calls.{Told};
ghost use Rattle.c_exports.specs.Turns.{set_up_told, lent_set_up_told, register_told, lent_register_told, turn_to, lent_turn_told};

use session_lent::head;
use session_turns::{RegisterRefusal, SetUpRefusal, Turn};

// Whether a sender was named (1), and then which, and the number for its batch.
#[repr(C)]
#[derive(Clone, Copy)]
pub struct GeysertrayTurn {
    pub disposition: u64,
    pub named: u64,
    pub sender: u64,
    pub number: u64,
}

const NO_TURNS: u64 = 3;

fn set_up_told(answer: Result<(), SetUpRefusal>) -> u64
    ensures { result ≡ set_up_told answer }
{
    match answer {
        Ok(()) => 0,
        Err(refusal) => refusal.number(),
    }
}

fn lent_set_up_told(answer: Option<Result<(), SetUpRefusal>>) -> u64
    ensures { result ≡ lent_set_up_told answer }
{
    match answer {
        Some(answer) => set_up_told(answer),
        None => NO_TURNS,
    }
}

// Sets turns up for one to eight senders, of whom nobody waits: 0, or 21 for any other number, which leaves the numbers.
pub fn geysertray_turns_set_up(
    turns: &mut [u64; session_lent_turns::NUMBERS],
    senders: usize,
) -> u64
    ensures { Told lent_set_up_told (λ a. SetUpCall senders turns.old a turns.new) result }
{
    let answer = session_lent_turns::set_up(turns, senders);
    lent_set_up_told(answer)
}

fn register_told(answer: Result<(), RegisterRefusal>) -> u64
    ensures { result ≡ register_told answer }
{
    match answer {
        Ok(()) => 0,
        Err(refusal) => refusal.number(),
    }
}

fn lent_register_told(answer: Option<Result<(), RegisterRefusal>>) -> u64
    ensures { result ≡ lent_register_told answer }
{
    match answer {
        Some(answer) => register_told(answer),
        None => NO_TURNS,
    }
}

// The sender of a number from 0 waits from now on: 0; 19 for a number out of the range, 20 for one that waits already, which leave the numbers.
pub fn geysertray_turns_register(
    turns: &mut [u64; session_lent_turns::NUMBERS],
    sender: usize,
) -> u64
    ensures { Told lent_register_told (λ a. RegisterCall sender turns.old a turns.new) result }
{
    let answer = session_lent_turns::register(turns, sender);
    lent_register_told(answer)
}

fn turn_to(answer: Option<Turn>) -> GeysertrayTurn
    ensures { result ≡ turn_to answer }
{
    match answer {
        None => GeysertrayTurn {
            disposition: 0,
            named: 0,
            sender: 0,
            number: 0,
        },
        Some(turn) => GeysertrayTurn {
            disposition: 0,
            named: 1,
            sender: turn.sender as u64,
            number: turn.number,
        },
    }
}

fn lent_turn_told(answer: Option<Option<Turn>>) -> GeysertrayTurn
    ensures { result ≡ lent_turn_told answer }
{
    match answer {
        Some(answer) => turn_to(answer),
        None => GeysertrayTurn {
            disposition: NO_TURNS,
            named: 0,
            sender: 0,
            number: 0,
        },
    }
}

// Names the sender whose turn it is, which then waits no more, with the number for its batch: the one after the session's cursor, whose two
// numbers stand in its head. With none waiting the numbers stay.
pub fn geysertray_turns_next(
    turns: &mut [u64; session_lent_turns::NUMBERS],
    has_cursor: u64,
    cursor: u64,
) -> GeysertrayTurn
    ensures { Told lent_turn_told (λ a. TurnCall (cursor_numbered has_cursor cursor) turns.old a turns.new) result }
{
    let told = head::cursor_of(has_cursor, cursor);
    let answer = session_lent_turns::turn(turns, told);
    lent_turn_told(answer)
}
