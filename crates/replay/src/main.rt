// Answers a replay script from standard input, line by line: docs/DECISIONS.md, 'Replay'.
#![tactic(auto)]

ghost use Rattle.std.specs.Prelude.{◌≡◌, ◌≤◌, ◌<◌, length, take, IfOk, IfSome};

use script_calls::state::ReplayState;
use script_parser::ScriptCommand;
use script_replay::ANSWER_BYTES;
use std::io;
use std::io::Read;

// Room for a line of the greatest length, and as much again to read into.
const INPUT_BYTES: usize = 262144;

// Answers are written when there is not room for one more.
const OUTPUT_BYTES: usize = 262144;

// Line numbers go so far, and so many reads are made; no script uses them up.
const BUDGET: u64 = u64::MAX;

// The state after some lines, the number of the next, and where it starts in what was read.
#[derive(Drop)]
struct Progress {
    state: ReplayState,
    number: u64,
    start: usize,
}

// Where an answer of the given length ends behind the used bytes; one that has no room is left out.
fn end_of_answer(printed: Option<usize>, used: usize, len: usize) -> usize
    requires { used ≤ len }
    ensures { result ≤ len }
{
    match printed {
        Some(count) if count <= len - used => used + count,
        _ => used,
    }
}

// Writes the answers where there is not room for one more, and answers how many bytes are still used.
fn write_if_full(rt: &impl Print, out: &[u8], used: usize) -> io::Result<usize>
    requires { used ≤ length out.now }
    ensures { IfOk result (λ left. left ≤ length out.now) }
{
    if ANSWER_BYTES <= out.len() - used {
        return Ok(used);
    }
    rt.write_all(&out[0..used])?;
    Ok(0)
}

// The number of the line behind one.
fn next_number(number: u64) -> u64 {
    number.saturating_add(1)
}

// Runs the lines that an LF ends, and writes their answers; None where the replay stops. Before index seen there is no LF.
fn run_lines(
    rt: &impl Print,
    before: ReplayState,
    first: u64,
    input: &[u8],
    seen: usize,
    out: &mut [u8],
) -> io::Result<Option<Progress>>
    requires { seen ≤ length input.now }
    ensures { IfOk result (λ after. IfSome after (λ lines. lines.start ≤ length input.now)) }
{
    let mut state = before;
    let mut number = first;
    let mut start = 0;
    let mut used = 0;
    let mut end = script_reader::line_end(input, seen);
    while end < input.len() {
        let next = end + 1;
        let line = &input[start..end];
        let step = script_replay::run_line(state, number, line, &mut out[used..]);
        state = step.state;
        let printed = step.printed;
        used = end_of_answer(printed, used, out.len());
        start = next;
        if step.stopped {
            rt.write_all(&out[0..used])?;
            return Ok(None);
        }
        used = write_if_full(rt, out, used)?;
        number = next_number(number);
        end = script_reader::line_end(input, start);
    }
    rt.write_all(&out[0..used])?;
    Ok(Some(Progress {
        state,
        number,
        start,
    }))
}

// Reads behind the bytes that are kept, and answers where the bytes end then. A line that is too long is not read on.
fn read_behind<R: Read>(reader: &mut R, input: &mut [u8], kept: usize) -> io::Result<usize>
    requires { kept ≤ length input.old }
    ensures end { IfOk result (λ end. (kept ≤ end) × (end ≤ length input.new)) }
    ensures kept { take kept input.new ≡ take kept input.old }
{
    if ScriptCommand::LINE_BYTES < kept {
        return Ok(kept);
    }
    let count = reader.read(&mut input[kept..])?;
    Ok(kept + count)
}

// Moves the bytes from start to end to the front, and answers how many these are.
fn keep(input: &mut [u8], start: usize, end: usize) -> usize
    requires { (start ≤ end) × (end ≤ length input.old) }
    ensures { result ≤ length input.new }
{
    bytes_records::moves::pop_front(&mut input[0..end], start);
    end - start
}

// The answer to the bytes that are left, if there are any: no LF ends them, or they are too many for a line.
fn print_rest(rt: &impl Print, number: u64, kept: usize) -> io::Result<()> {
    if kept == 0 {
        return Ok(());
    }
    let mut out = [0u8; 32];
    let printed = script_answers::session::print_other(&mut out, Some(0), number);
    let end = end_of_answer(printed, 0, 32);
    rt.write_all(&out[0..end])
}

fn replay(rt: &(impl Input + Print), input: &mut [u8], out: &mut [u8]) -> io::Result<()> {
    let mut reader = rt.reader();
    let mut state = script_replay::start();
    let mut number = 1;
    let mut kept = 0;
    for _ in 0..BUDGET {
        let end = read_behind(&mut reader, input, kept)?;
        if end == kept {
            return print_rest(rt, number, kept);
        }
        let Some(after) = run_lines(rt, state, number, &input[0..end], kept, out)? else {
            return Ok(());
        };
        state = after.state;
        number = after.number;
        kept = keep(input, after.start, end);
    }
    Ok(())
}

fn main(rt: HostRuntime) -> io::Result<()> {
    let mut input = [0u8; INPUT_BYTES];
    let mut out = [0u8; OUTPUT_BYTES];
    replay(&rt, &mut input, &mut out)
}
