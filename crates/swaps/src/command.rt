// What a line of a script asks for.
use crate::memory::NoMemory;
use crate::notation::read_load;
use crate::numbers::{read_chain_number, read_number};
use crate::ordering::{Chosen, read_order};
use crate::words::Words;
use loads::Load;
use std::alloc::Global;
use worksheet::equation::Equation;

// The largest room of a chain.
const MOST_ROOM: u32 = 1_000_000;

// A call of the register, or a look at it.
#[derive(Drop)]
pub(crate) enum Command {
    New,
    Enter(Equation),
    Settle(Chosen, u32, u32),
    Reopen,
    Standard(Load, u32),
    Match(Load, Load, u32, u32),
    Replay(Load, Vec<i16>),
    Table,
    Lines,
}

// An equation, as `a2b = c`.
fn read_equation(words: &mut Words) -> Option<Equation> {
    let left = read_load(words.next()?)?;
    let b"=" = words.next()? else {
        return None;
    };
    let right = read_load(words.next()?)?;
    Some(Equation { left, right })
}

// An order, a capacity and a budget.
fn read_settle(words: &mut Words) -> Option<Command> {
    let order = read_order(words)?;
    let capacity = read_number(words.next()?)?;
    let budget = read_number(words.next()?)?;
    Some(Command::Settle(order, capacity, budget))
}

// A load and a budget.
fn read_standard(words: &mut Words) -> Option<Command> {
    let load = read_load(words.next()?)?;
    let budget = read_number(words.next()?)?;
    Some(Command::Standard(load, budget))
}

// Two loads, the room of the chain, and a budget.
fn read_match(words: &mut Words) -> Option<Command> {
    let first = read_load(words.next()?)?;
    let second = read_load(words.next()?)?;
    let room = read_number(words.next()?).filter(|room| *room <= MOST_ROOM)?;
    let budget = read_number(words.next()?)?;
    Some(Command::Match(first, second, room, budget))
}

// The rest of the words as chain numbers.
fn read_chain(words: &mut Words, heap: Global) -> Result<Option<Vec<i16>>, NoMemory> {
    let mut chain = Vec::new(heap);
    for word in words {
        let Some(number) = read_chain_number(word) else {
            return Ok(None);
        };
        chain.push(number)?;
    }
    Ok(Some(chain))
}

// A load and a chain.
fn read_replay(words: &mut Words, heap: Global) -> Result<Option<Command>, NoMemory> {
    let Some(load) = words.next().and_then(read_load) else {
        return Ok(None);
    };
    Ok(read_chain(words, heap)?.map(|chain| Command::Replay(load, chain)))
}

// The command of a line, or None where it is not understood.
pub(crate) fn read_command(line: &[u8], heap: Global) -> Result<Option<Command>, NoMemory> {
    let mut words = Words::new(line);
    let Some(name) = words.next() else {
        return Ok(None);
    };
    let command = match name {
        b"new" => Some(Command::New),
        b"lines" => Some(Command::Lines),
        b"enter" => read_equation(&mut words).map(Command::Enter),
        b"settle" => read_settle(&mut words),
        b"reopen" => Some(Command::Reopen),
        b"standard" => read_standard(&mut words),
        b"match" => read_match(&mut words),
        b"replay" => read_replay(&mut words, heap)?,
        b"table" => Some(Command::Table),
        _ => None,
    };
    Ok(command.filter(|_| words.next().is_none()))
}
