// Runs a script of calls on a register, and prints in words what each call did.
#![tactic(auto)]

mod answers;
mod command;
mod input;
mod memory;
mod notation;
mod numbers;
mod ordering;
mod session;
#[cfg(test)]
mod tests;
mod words;

use memory::NoMemory;
use session::Session;
use std::io::Read;
use std::process::ExitCode;

// Prints what was answered, even where the next line found no memory, and makes room for the next answers.
fn print_answers(
    rt: &HostRuntime,
    out: &mut String,
    answered: Result<(), NoMemory>,
) -> anyhow::Result<()> {
    rt.print(out.as_str())?;
    out.clear();
    Ok(answered?)
}

// Reads the script to its end, and says whether every line was understood. It reads blocks, since an iterator over lines would keep one of any
// length, and counts them, since a loop has to end.
fn run(rt: &HostRuntime) -> anyhow::Result<bool> {
    let heap = rt.alloc();
    let mut session = Session::new(heap)?;
    let mut out = String::new(heap);
    let mut stdin = rt.stdin();
    let mut block = [0u8; 4096];
    for _ in 0..u64::MAX {
        let count = stdin.read(&mut block)?;
        if count == 0 {
            break;
        }
        let answered = session.feed(&block[..count], &mut out);
        print_answers(rt, &mut out, answered)?;
    }
    let answered = session.finish(&mut out);
    print_answers(rt, &mut out, answered)?;
    Ok(session.all_understood())
}

// What was not understood stands in the answers; the status alone says so again.
fn main(rt: HostRuntime) -> anyhow::Result<ExitCode> {
    if run(&rt)? {
        Ok(ExitCode::SUCCESS)
    } else {
        Ok(ExitCode::FAILURE)
    }
}
