// A file of lists replayed: the answers that come are held against those that stand below the events, and counted. No
// contract can say what a file holds.
ghost use Rattle.std.specs.Prelude.{◌≤◌};

use super::Session;
use std::fs::File;
use std::io::Read;
use std::rt::Files;
use transcript_lines::counts::Counts;
use transcript_lines::input::Lines;

// Every line of an input.
fn replay<R: Read + Drop>(rt: &impl Print, input: R) -> Counts {
    let mut session = Session::new();
    let mut lines = Lines::new(input);
    // nothing says that the input ends, so the turns are counted, up to a number that no input comes to
    for _ in 0..u64::MAX {
        let Some(line) = lines.next_line() else {
            break;
        };
        session.take_line(rt, line);
    }
    session.counts
}

// A file's lists; one that cannot be opened has none, nor have bytes that are no text.
fn replay_file(rt: &(impl Files + Print), path: &[u8]) -> Counts {
    let Ok(name) = std::str::from_utf8(path) else {
        return Counts::default();
    };
    match File::open(rt, name) {
        Ok(file) => replay(rt, file),
        Err(_) => Counts::default(),
    }
}

// Every list of a file: what was counted, which is said too.
pub fn run(rt: &(impl Files + Print), path: &[u8]) -> Counts
    ensures { result.different ≤ result.answers }
{
    let counts = replay_file(rt, path);
    let _ = print!(rt; "{counts} in ");
    let _ = rt.write_all(path);
    let _ = rt.write_all(b"\n");
    counts
}
