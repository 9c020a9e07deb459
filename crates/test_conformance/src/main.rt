// Answers the scripts of the kit and those that the Rust answered, and compares each answer with the one beside the script. Prints a line for
// each case that an index names.
#![tactic(auto)]

ghost use Rattle.std.specs.Prelude.{◌-◌, ◌≤◌, length, IfOk};

use script_calls::state::{ReplayState, ReplayStep};
use script_replay::ANSWER_BYTES;
use std::rt::Files;
use std::{fs, io, str};

// Every script, and every file of answers, is shorter.
const SCRIPT_BYTES: usize = 1048576;

const ANSWERS_BYTES: usize = 262144;

// Room for both indexes, each by itself.
const INDEX_BYTES: usize = 65536;

const PATH_BYTES: usize = 4096;

// A file that is missing, or fills its buffer, was not read.
#[derive(Drop)]
struct FileRead {
    is_read: bool,
    count: usize,
}

#[derive(Drop)]
struct Compared {
    is_same: bool,
    end: usize,
}

// Joins two parts of a path, and answers its length; one that has no room is empty.
fn join(path: &mut [u8], name: &[u8], ending: &[u8]) -> usize
    ensures { result ≤ length path.new }
{
    if path.len() < name.len() {
        return 0;
    }
    if path.len() - name.len() < ending.len() {
        return 0;
    }
    bytes_wire::write_bytes_at(path, 0, name);
    bytes_wire::write_bytes_at(path, name.len(), ending);
    name.len() + ending.len()
}

// Reads the file at a path, as far as there is room, and answers how many bytes that are.
fn read_path(rt: &impl Files, path: &[u8], bytes: &mut [u8]) -> io::Result<usize>
    ensures { IfOk result (λ count. count ≤ length bytes.new) }
{
    let Ok(path) = str::from_utf8(path) else {
        return Err(io::Error::from(io::ErrorKind::InvalidInput));
    };
    let mut file = fs::open(rt, path)?;
    bytes_input::read_full(&mut file, bytes)
}

fn read_file(rt: &impl Files, name: &[u8], ending: &[u8], bytes: &mut [u8]) -> FileRead
    ensures { result.count ≤ length bytes.new }
{
    let mut path = [0u8; PATH_BYTES];
    let len = join(&mut path, name, ending);
    match read_path(rt, &path[0..len], bytes) {
        Ok(count) => FileRead {
            is_read: count < bytes.len(),
            count,
        },
        Err(_) => FileRead {
            is_read: false,
            count: 0,
        },
    }
}

// Where the line behind the one that ends at an index starts.
fn next_start(bytes: &[u8], end: usize) -> usize
    requires { end ≤ length bytes.now }
    ensures { (end ≤ result) × ((result ≤ length bytes.now) × (length bytes.now - result ≤ length bytes.now - end - 1)) }
{
    if end < bytes.len() { end + 1 } else { end }
}

// Runs the line from start to end. Bytes that no LF ends are run as a line that is no command.
fn run_part(
    state: ReplayState,
    number: u64,
    script: &[u8],
    start: usize,
    end: usize,
    out: &mut [u8],
) -> ReplayStep
    requires { (start ≤ end) × (end ≤ length script.now) }
{
    if end < script.len() {
        return script_replay::run_line(state, number, &script[start..end], out);
    }
    script_replay::run_line(state, number, b"?", out)
}

// Compares what was printed with the answers from an index on.
fn compare(printed: Option<usize>, out: &[u8], answers: &[u8], from: usize) -> Compared
    requires { from ≤ length answers.now }
    ensures { result.end ≤ length answers.now }
{
    let mut compared = Compared {
        is_same: false,
        end: from,
    };
    if let Some(len) = printed {
        if out.len() < len {
            return compared;
        }
        if answers.len() - from < len {
            return compared;
        }
        compared.is_same = bytes_wire::starts_with(answers, from, &out[0..len]);
        compared.end = from + len;
    }
    compared
}

// One more, of lines or of cases; no file has as many as there are numbers.
fn one_more(count: u64) -> u64 {
    count.saturating_add(1)
}

// Whether a script is answered with these answers, and no others.
fn is_answered(script: &[u8], answers: &[u8], out: &mut [u8]) -> bool {
    let mut state = script_replay::start();
    let mut number: u64 = 0;
    let mut start = 0;
    let mut done = 0;
    while start < script.len() {
        let end = script_reader::line_end(script, start);
        number = one_more(number);
        let step = run_part(state, number, script, start, end, out);
        let printed = step.printed;
        let compared = compare(printed, out, answers, done);
        if !compared.is_same {
            return false;
        }
        done = compared.end;
        if step.stopped {
            return done == answers.len();
        }
        state = step.state;
        start = next_start(script, end);
    }
    done == answers.len()
}

fn passes(
    rt: &impl Files,
    name: &[u8],
    script: &mut [u8],
    answers: &mut [u8],
    out: &mut [u8],
) -> bool {
    let told = read_file(rt, name, b".script", script);
    let expected = read_file(rt, name, b".answers", answers);
    let script_len = told.count;
    let answers_len = expected.count;
    if told.is_read && expected.is_read {
        return is_answered(&script[0..script_len], &answers[0..answers_len], out);
    }
    false
}

fn print_case(rt: &impl Print, name: &[u8], is_passed: bool) -> io::Result<()> {
    rt.write_all(name)?;
    rt.println(if is_passed { " ok" } else { " differs" })
}

fn print_numbers(rt: &impl Print, cases: u64, differing: u64) -> io::Result<()> {
    println!(rt; "{cases} cases, {differing} differ")
}

// Runs each case whose name is a line of the index.
fn run_cases(
    rt: &(impl Files + Print),
    index: &[u8],
    script: &mut [u8],
    answers: &mut [u8],
    out: &mut [u8],
) -> io::Result<()> {
    let mut cases: u64 = 0;
    let mut differing: u64 = 0;
    let mut start = 0;
    while start < index.len() {
        let end = script_reader::line_end(index, start);
        let name = &index[start..end];
        let is_passed = passes(rt, name, script, answers, out);
        print_case(rt, name, is_passed)?;
        cases = one_more(cases);
        if !is_passed {
            differing = one_more(differing);
        }
        start = next_start(index, end);
    }
    print_numbers(rt, cases, differing)
}

fn run_index(
    rt: &(impl Files + Print),
    name: &[u8],
    script: &mut [u8],
    answers: &mut [u8],
) -> io::Result<()> {
    let mut index = [0u8; INDEX_BYTES];
    let mut out = [0u8; ANSWER_BYTES];
    let names = read_file(rt, name, b"", &mut index);
    let len = names.count;
    run_cases(rt, &index[0..len], script, answers, &mut out)
}

fn run_both(
    rt: &(impl Files + Print),
    script: &mut [u8; SCRIPT_BYTES],
    answers: &mut [u8; ANSWERS_BYTES],
) -> io::Result<()> {
    run_index(rt, b"index", script, answers)?;
    run_index(rt, b"rust_index", script, answers)
}

fn main(rt: HostRuntime) -> io::Result<()> {
    let mut script = [0u8; SCRIPT_BYTES];
    let mut answers = [0u8; ANSWERS_BYTES];
    run_both(&rt, &mut script, &mut answers)
}
