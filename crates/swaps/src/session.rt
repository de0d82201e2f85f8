// A register and the script that is run on it.
use crate::answers::*;
use crate::command::{Command, read_command};
use crate::input::LineBuffer;
use crate::memory::NoMemory;
use crate::ordering::settle_by;
use crate::words::passed_over;
use register::register::Register;
use std::alloc::Global;
use std::fmt::Write;

// A register, the line that is coming in, and whether every line so far was understood.
#[derive(Drop)]
pub(crate) struct Session {
    heap: Global,
    register: Register,
    input: LineBuffer,
    all_understood: bool,
}

impl Session {
    pub(crate) fn new(heap: Global) -> Result<Session, NoMemory> {
        Ok(Session {
            heap,
            register: Register::new(heap)?,
            input: LineBuffer::new(heap),
            all_understood: true,
        })
    }

    pub(crate) fn all_understood(&self) -> bool {
        self.all_understood
    }

    // Makes the call, and tells what it did.
    fn perform(&mut self, command: Command, out: &mut String) -> Result<(), NoMemory> {
        let register = &mut self.register;
        match command {
            Command::New => {
                *register = Register::new(self.heap)?;
                writeln!(out, "new register")?;
                Ok(())
            }
            Command::Enter(equation) => {
                let answer = register.enter(equation);
                tell(answer.map(|number| Entered { number, equation }), out)
            }
            Command::Settle(order, capacity, budget) => {
                tell(
                    settle_by(register, order, capacity, budget).map(Settled),
                    out,
                )
            }
            Command::Reopen => tell(register.reopen().map(|()| Reopened), out),
            Command::Standard(mut standard, budget) => {
                let answer = register.standard(&mut standard, budget);
                tell(answer.map(|steps| Reduced { standard, steps }), out)
            }
            Command::Match(first, second, room, budget) => {
                let mut row = vec![in self.heap; 0i16; room as usize]?;
                let answer = register.match_loads(&first, &second, &mut row, budget);
                let row = row.as_slice();
                tell(answer.map(|verdict| Matched { verdict, row }), out)
            }
            Command::Table => tell_table(register, out),
            Command::Replay(load, chain) => tell(register.replay(&load, &chain).map(Replayed), out),
            Command::Lines => tell_lines(register, out),
        }
    }

    // The command of the line that has come in, None where it is not understood.
    fn command(&self) -> Result<Option<Command>, NoMemory> {
        match self.input.line() {
            Some(line) => read_command(line, self.heap),
            None => Ok(None),
        }
    }

    // Answers the line that has come in.
    fn answer(&mut self, out: &mut String) -> Result<(), NoMemory> {
        if self.input.line().is_some_and(passed_over) {
            return Ok(());
        }
        let Some(command) = self.command()? else {
            self.all_understood = false;
            let number = self.input.number();
            writeln!(out, "line {number}: not understood")?;
            return Ok(());
        };
        self.perform(command, out)
    }

    // Takes in a block of the script, and answers each line that ends in it.
    pub(crate) fn feed(&mut self, block: &[u8], out: &mut String) -> Result<(), NoMemory> {
        for byte in block {
            if *byte == b'\n' {
                self.answer(out)?;
                self.input.next();
            } else {
                self.input.push(*byte)?;
            }
        }
        Ok(())
    }

    // Answers a last line without a line feed.
    pub(crate) fn finish(&mut self, out: &mut String) -> Result<(), NoMemory> {
        self.answer(out)
    }
}
