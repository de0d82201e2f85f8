// Going through a section.
ghost use Rattle.std.specs.Prelude.{◌≡◌, ◌+◌, drop, is_some, if◌then◌else◌, vec_len, vec_capacity};
ghost use Rattle.std.specs.Iterator.{at_most};
ghost use Rattle.worksheet.specs.Claims.{nth};
ghost use Rattle.swapfile.specs.Sections.{values, filled, zero_free};
ghost use Rattle.filereader.specs.Windows.{first_found, rest, room, extended};

use crate::window::{NoRoom, Window};
use records::record::Record;
use swapfile::fault::FileFault;
use swapfile::items::Found;

// Through its records, the first of those that are left each time; the window moves on behind it.
impl<'a, R: Record> Iterator for Window<'a, R> {
    type Item = Found<R::Item>;

    ghost next_gives = { λ s r t. (r ≡ first_found R.Record.size R.Record.item s) × (t ≡ rest R.Record.size s) };

    ghost remaining = { λ s. at_most s.count };

    fn next(&mut self) -> Option<Found<R::Item>> {
        let left = self.count.checked_sub(1)?;
        if R::too_few(self.bytes.len().saturating_sub(self.start)) {
            return None;
        }
        let found = R::read(self.bytes, self.start)?;
        self.start = found.end;
        self.count = left;
        Some(found)
    }
}

impl<'a, R: Record> Window<'a, R> {
    // The value of the first record, if there is one; the window moves on behind it.
    pub fn next_value(&mut self) -> Option<R>
        ensures value { result ≡ nth (values R.Record.size R.Record.value self.old) 0 }
        ensures moved { self.new ≡ rest R.Record.size self.old }
        ensures values { values R.Record.size R.Record.value self.new ≡ drop 1 (values R.Record.size R.Record.value self.old) }
        ensures left { self.new.count + (if is_some result then 1 else 0) ≡ self.old.count }
    {
        let found = self.next()?;
        R::value(self.bytes, found.byte)
    }

    // Appends the values of all records to a row that has room for so many; else the row stays.
    pub fn read_into(mut self, row: &mut Vec<R>) -> Result<(), NoRoom>
        ensures told { result ≡ room (vec_len row.old) self.entry.count (vec_capacity row.old) }
        ensures items { row.new.items ≡ extended result row.old.items (values R.Record.size R.Record.value self.entry) }
        ensures capacity { vec_capacity row.new ≡ vec_capacity row.old }
    {
        if row.capacity() - row.len() < self.count {
            return Err(NoRoom);
        }
        while let Some(value) = self.next_value() {
            row.push_reserved(value);
        }
        Ok(())
    }

    // The records fill the section; else the first byte of a record that passes its end, or of what is left over.
    pub(crate) fn check_records(&self) -> Result<(), FileFault>
        ensures { result ≡ filled R.Record.size self.now }
    {
        let mut rest = self.copied();
        while rest.next().is_some() {}
        if rest.count == 0 && rest.start == rest.bytes.len() {
            Ok(())
        } else {
            Err(FileFault::Record(rest.start))
        }
    }

    // No present count of a record is 0; else the byte of the first that is.
    pub(crate) fn check_zeros(&self) -> Result<(), FileFault>
        ensures { result ≡ zero_free R.Record.size R.Record.zeros self.now }
    {
        for found in self.copied() {
            if let Some(place) = R::zero_count(self.bytes, found.byte) {
                return Err(FileFault::ZeroCount(place));
            }
        }
        Ok(())
    }
}
