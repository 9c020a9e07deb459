// Turns among senders in eleven lent numbers: how many senders there are, of each of eight whether it waits, and who was last named.
#![tactic(auto)]

ghost use Rattle.std.specs.Prelude.{◌≡◌, length};
ghost use Rattle.session_lifecycle.specs.Meaning.{cursor_of};
ghost use Rattle.session_lent_turns.specs.LentTurns.{turns_numbers, named_at, turns_at, turn_flag, named_kind, named_number, turn_numbers, register_left, turn_left, SetUpCall, RegisterCall, TurnCall};

use session_lifecycle::state::ProjectionReplayCursor;
use session_turns::{RegisterRefusal, SenderTurns, SetUpRefusal, Turn};

// How many numbers tell the turns.
pub const NUMBERS: usize = 11;

fn named_at(kind: u64, sender: u64) -> Option<usize>
    ensures { result ≡ named_at kind sender }
{
    if kind == 0 {
        return None;
    }
    Some(sender as usize)
}

// The turns that the numbers tell.
fn turns_in(numbers: &[u64]) -> SenderTurns
    requires { length numbers.now ≡ turns_numbers }
    ensures { result ≡ turns_at numbers.now }
{
    let last = named_at(numbers[9], numbers[10]);
    SenderTurns {
        senders: numbers[0] as usize,
        waiting: [
            numbers[1] != 0,
            numbers[2] != 0,
            numbers[3] != 0,
            numbers[4] != 0,
            numbers[5] != 0,
            numbers[6] != 0,
            numbers[7] != 0,
            numbers[8] != 0,
        ],
        last,
    }
}

fn flag(waits: bool) -> u64
    ensures { result ≡ turn_flag waits }
{
    u64::from(waits)
}

fn named_kind(last: Option<usize>) -> u64
    ensures { result ≡ named_kind last }
{
    match last {
        None => 0,
        Some(_) => 1,
    }
}

fn named_number(last: Option<usize>) -> u64
    ensures { result ≡ named_number last }
{
    match last {
        None => 0,
        Some(sender) => sender as u64,
    }
}

// Writes the numbers of turns.
fn store_turns(turns: SenderTurns, numbers: &mut [u64])
    requires { length numbers.old ≡ turns_numbers }
    ensures { numbers.new ≡ turn_numbers turns }
{
    let waiting = turns.waiting;
    let last = turns.last;
    numbers[0] = turns.senders as u64;
    numbers[1] = flag(waiting[0]);
    numbers[2] = flag(waiting[1]);
    numbers[3] = flag(waiting[2]);
    numbers[4] = flag(waiting[3]);
    numbers[5] = flag(waiting[4]);
    numbers[6] = flag(waiting[5]);
    numbers[7] = flag(waiting[6]);
    numbers[8] = flag(waiting[7]);
    numbers[9] = named_kind(last);
    numbers[10] = named_number(last);
}

// One to eight senders, of whom nobody waits; none where the slice has not eleven numbers. A refusal leaves every number.
pub fn set_up(numbers: &mut [u64], senders: usize) -> Option<Result<(), SetUpRefusal>>
    ensures { SetUpCall senders numbers.old result numbers.new }
{
    if numbers.len() != NUMBERS {
        return None;
    }
    match SenderTurns::new(senders) {
        Ok(turns) => {
            store_turns(turns, numbers);
            Some(Ok(()))
        }
        Err(refusal) => Some(Err(refusal)),
    }
}

// Stores turns in which one more waits.
fn keep_registration(answer: Result<(), RegisterRefusal>, turns: SenderTurns, numbers: &mut [u64])
    requires { length numbers.old ≡ turns_numbers }
    ensures { numbers.new ≡ register_left numbers.old answer turns }
{
    match answer {
        Ok(()) => store_turns(turns, numbers),
        Err(_) => (),
    }
}

// The sender waits from now on; none where the slice has not eleven numbers. A refusal leaves every number.
pub fn register(numbers: &mut [u64], sender: usize) -> Option<Result<(), RegisterRefusal>>
    ensures { RegisterCall sender numbers.old result numbers.new }
{
    if numbers.len() != NUMBERS {
        return None;
    }
    let before_it = turns_in(numbers);
    let done = before_it.register(sender);
    let answer = done.answer;
    let turns = done.turns;
    keep_registration(answer, turns, numbers);
    Some(answer)
}

// Stores turns of which one was spent.
fn keep_turn(answer: Option<Turn>, turns: SenderTurns, numbers: &mut [u64])
    requires { length numbers.old ≡ turns_numbers }
    ensures { numbers.new ≡ turn_left numbers.old answer turns }
{
    match answer {
        None => (),
        Some(_) => store_turns(turns, numbers),
    }
}

// Names the sender whose turn it is, which then waits no more; none where the slice has not eleven numbers. With nobody waiting every number
// stays. The cursor is the session's at this call.
pub fn turn(numbers: &mut [u64], cursor: ProjectionReplayCursor) -> Option<Option<Turn>>
    ensures { TurnCall (cursor_of cursor) numbers.old result numbers.new }
{
    if numbers.len() != NUMBERS {
        return None;
    }
    let before_it = turns_in(numbers);
    let done = before_it.turn(cursor);
    let answer = done.answer;
    let turns = done.turns;
    keep_turn(answer, turns, numbers);
    Some(answer)
}
