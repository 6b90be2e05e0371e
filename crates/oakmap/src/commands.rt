//! The commands of the program.
ghost use Rattle.std.specs.Prelude.{◌≡◌, map, IfSome};
ghost use Rattle.std.specs.String.{string_bytes};
ghost use Rattle.oakmap.specs.Commands.{command_of, gen_of, IsLawful};

use oak_script::{DRAWN_NUMBERS, GREATEST_CALLS, GREATEST_DRAWS, GREATEST_THREADS, number_in};

/// A generated workload: how many calls each thread makes, how many threads there are, and the number with which
/// the first of them begins.
#[derive(Clone, Copy, Debug, PartialEq, Eq)]
pub struct Workload {
    pub calls: u32,
    pub threads: u32,
    pub start: u32,
}

/// What the program is asked to do.
#[derive(Clone, Copy, Debug, PartialEq, Eq)]
pub enum Command {
    /// Run the script that comes, and print its replies.
    Run,
    /// Run a generated workload, and print a summary.
    Gen(Workload),
}

/// The workload that three words ask for.
fn gen_of(calls: &[u8], threads: &[u8], start: &[u8]) -> Option<Command>
    ensures is { result ≡ gen_of calls.now threads.now start.now }
    ensures lawful { IfSome result IsLawful }
{
    let calls = number_in(calls, 1, GREATEST_DRAWS)?;
    let threads = number_in(threads, 1, GREATEST_THREADS as u32)?;
    let start = number_in(start, 0, DRAWN_NUMBERS - 1)?;
    if calls as usize * threads as usize > GREATEST_CALLS {
        return None;
    }
    Some(Command::Gen(Workload {
        calls,
        threads,
        start,
    }))
}

/// The command that the words give: `run`, or `gen N T S` with 1 to 65,536 calls for each of 1 to 16 threads, at most
/// 262,144 in all, and a start from 0 to 65,535.
pub fn command_of(words: &[String]) -> Option<Command>
    ensures is { result ≡ command_of (map (λ w. string_bytes w) words.now) }
    ensures lawful { IfSome result IsLawful }
{
    match words {
        [word] if word.as_bytes() == b"run".as_slice() => Some(Command::Run),
        [word, calls, threads, start] if word.as_bytes() == b"gen".as_slice() => {
            gen_of(calls.as_bytes(), threads.as_bytes(), start.as_bytes())
        }
        _ => None,
    }
}
