// The record of a chain number: two bytes, in two's complement.
ghost use Rattle.swapfile.specs.ChainNumbers.{chain_number_size, chain_number_zero, chain_number_at};
ghost use Rattle.std.proofs.Common.{rules};

use crate::numbers::read_number;
use crate::record::Record;
use swapfile::items::Found;

impl Record for i16 {
    type Item = i16;

    const SMALLEST: usize = 2;

    ghost SMALLEST = { 2 };

    ghost size = { chain_number_size };

    ghost zeros = { chain_number_zero };

    ghost item = { chain_number_at };

    ghost value = { chain_number_at };

    ghost enough = { Prim.search rules };

    fn read(bytes: &[u8], at: usize) -> Option<Found<i16>> {
        let number = read_number(bytes, at)?;
        Some(Found {
            byte: at,
            item: number.cast_signed(),
            end: at + 2,
        })
    }

    fn zero_count(bytes: &[u8], at: usize) -> Option<usize> {
        None
    }

    fn value(bytes: &[u8], at: usize) -> Option<i16> {
        let number = read_number(bytes, at)?;
        Some(number.cast_signed())
    }
}
