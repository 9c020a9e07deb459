// Turns among up to eight senders, by value: each call hands back the next turns.
#![tactic(auto)]

ghost use Rattle.std.specs.Prelude.{◌≡◌, false, min, length, get_or};
ghost use Rattle.spec_lists.specs.Options.{optional_of};
ghost use Rattle.spec_turns.specs.Turns.{most_senders, set_up_number, wrong_sender_count, set_up, register_number, after, first_asked, first_waiting, next_sender, number_after};
ghost use Rattle.session_lifecycle.specs.Meaning.{cursor_of};
ghost use Rattle.session_turns.specs.Meaning.{turns_of, fresh_turns, set_up_to, register_refusal_of, Registers, TakesTurn};

use session_lifecycle::state::ProjectionReplayCursor;

// Of each sender, numbered from 0, whether it waits, and who was named last. Flags past the number of senders are never looked at.
#[derive(Clone, Copy)]
pub struct SenderTurns {
    pub senders: usize,
    pub waiting: [bool; SenderTurns::MOST_SENDERS],
    pub last: Option<usize>,
}

#[derive(Clone, Copy)]
pub enum SetUpRefusal {
    WrongSenderCount,
}

impl SetUpRefusal {
    pub fn number(self) -> u64
        ensures { result ≡ set_up_number wrong_sender_count }
    {
        match self {
            SetUpRefusal::WrongSenderCount => 21,
        }
    }
}

#[derive(Clone, Copy)]
pub enum RegisterRefusal {
    UnknownSender,
    AlreadyWaiting,
}

impl RegisterRefusal {
    pub fn number(self) -> u64
        ensures { result ≡ register_number (register_refusal_of self) }
    {
        match self {
            RegisterRefusal::UnknownSender => 19,
            RegisterRefusal::AlreadyWaiting => 20,
        }
    }
}

// The turns after a registration; where it was refused, those before it.
#[derive(Clone, Copy)]
pub struct Registration {
    pub answer: Result<(), RegisterRefusal>,
    pub turns: SenderTurns,
}

// Whose turn it is, with the number for its batch.
#[derive(Clone, Copy)]
pub struct Turn {
    pub sender: usize,
    pub number: u64,
}

#[derive(Clone, Copy)]
pub struct TurnTaken {
    pub answer: Option<Turn>,
    pub turns: SenderTurns,
}

// A struct may name more senders than it has flags; then those with a flag count.
fn with_flags(senders: usize) -> usize
    ensures { result ≡ min senders most_senders }
{
    senders.min(SenderTurns::MOST_SENDERS)
}

// The sender that follows in the circle: behind the last stands 0.
fn after(senders: usize, sender: usize) -> usize
    ensures { result ≡ after senders sender }
{
    if senders <= sender {
        return 0;
    }
    let next = sender + 1;
    if next < senders {
        return next;
    }
    0
}

// Who is asked first: the one after the one last named; at the start sender 0.
fn first_asked(senders: usize, last: Option<usize>) -> usize
    ensures { result ≡ first_asked senders (optional_of last) }
{
    match last {
        None => 0,
        Some(sender) => after(senders, sender),
    }
}

// A number out of the range does not wait.
fn waits(waiting: &[bool], sender: usize) -> bool
    ensures { result ≡ get_or waiting.now sender false }
{
    waiting.get(sender).copied().unwrap_or(false)
}

// Once around the circle, the first that waits.
fn first_waiting(waiting: &[bool], from: usize) -> Option<usize>
    ensures { optional_of result ≡ first_waiting waiting.now (length waiting.now) from }
{
    let mut sender = from;
    for _ in 0..waiting.len() {
        if waits(waiting, sender) {
            return Some(sender);
        }
        sender = after(waiting.len(), sender);
    }
    None
}

// Whose turn it is.
fn next_sender(turns: SenderTurns) -> Option<usize>
    ensures { optional_of result ≡ next_sender (turns_of turns) }
{
    let count = with_flags(turns.senders);
    let from = first_asked(count, turns.last);
    first_waiting(&turns.waiting[..count], from)
}

// The number after the cursor, 1 while it is Uninitialized, at the largest number that number again.
fn number_after(cursor: ProjectionReplayCursor) -> u64
    ensures { result ≡ number_after (cursor_of cursor) }
{
    match cursor {
        ProjectionReplayCursor::Uninitialized => 1,
        ProjectionReplayCursor::At(last) => {
            if last < u64::MAX {
                return last + 1;
            }
            u64::MAX
        }
    }
}

impl SenderTurns {
    pub const MOST_SENDERS: usize = 8;

    // The turns of one to eight senders, of whom nobody waits; any other number is refused.
    pub fn new(senders: usize) -> Result<SenderTurns, SetUpRefusal>
        ensures { result ≡ set_up_to (set_up senders) }
    {
        if senders < 1 || SenderTurns::MOST_SENDERS < senders {
            return Err(SetUpRefusal::WrongSenderCount);
        }
        Ok(SenderTurns::fresh(senders))
    }

    // The turns of no senders, which stand where none were set up.
    pub fn none() -> SenderTurns
        ensures { result ≡ fresh_turns 0 }
    {
        SenderTurns::fresh(0)
    }

    fn fresh(senders: usize) -> SenderTurns
        ensures { result ≡ fresh_turns senders }
    {
        SenderTurns {
            senders,
            waiting: [false; SenderTurns::MOST_SENDERS],
            last: None,
        }
    }

    // The sender waits from now on. A number out of the range is refused, then a sender that waits already.
    pub fn register(self, sender: usize) -> Registration
        ensures { Registers self sender result }
    {
        if with_flags(self.senders) <= sender {
            return Registration {
                answer: Err(RegisterRefusal::UnknownSender),
                turns: self,
            };
        }
        if self.waiting[sender] {
            return Registration {
                answer: Err(RegisterRefusal::AlreadyWaiting),
                turns: self,
            };
        }
        let mut turns = self;
        turns.waiting[sender] = true;
        Registration {
            answer: Ok(()),
            turns,
        }
    }

    // Names the sender whose turn it is, which then waits no more. The cursor is the session's at this call.
    pub fn turn(self, cursor: ProjectionReplayCursor) -> TurnTaken
        ensures { TakesTurn self (cursor_of cursor) result }
    {
        let Some(sender) = next_sender(self) else {
            return TurnTaken {
                answer: None,
                turns: self,
            };
        };
        let number = number_after(cursor);
        let mut turns = self;
        turns.waiting[sender] = false;
        turns.last = Some(sender);
        TurnTaken {
            answer: Some(Turn { sender, number }),
            turns,
        }
    }
}
