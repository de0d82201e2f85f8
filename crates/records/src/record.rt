// The kinds of record of which a file's sections are made.
ghost use Rattle.std.specs.Prelude.{◌≡◌, ℕ, ◌≤◌, List, Some, Option, nat_lt};
ghost use Rattle.swapfile.specs.Sections.{held};
ghost use Rattle.records.specs.Records.{found};

use swapfile::items::Found;

// A kind of record: what stands in a file for a value. A place is told as to `get`, by the bytes and an index in them: a type of the two would be no
// plainer, and what holds of them is kept by the loads that are found there.
pub trait Record: Copy {
    // What a record says, by places of the file and by numbers.
    type Item: Copy;

    // The fewest bytes that a record takes.
    const SMALLEST: usize;

    // The same number, for clauses.
    ghost SMALLEST: { ℕ };

    // How many bytes the record takes that begins at a byte.
    ghost size: { List ℕ → ℕ → ℕ };

    // The byte of its first present count that is 0.
    ghost zeros: { List ℕ → ℕ → Option ℕ };

    // What it says by places and numbers.
    ghost item: { List ℕ → ℕ → Self.Item };

    // What it says once its loads are read.
    ghost value: { List ℕ → ℕ → Self };

    // Whether so many bytes are too few for any record of the kind.
    fn too_few(room: usize) -> bool
        ensures { result ≡ nat_lt room SMALLEST }
    {
        room < Self::SMALLEST
    }

    // The record that begins at a byte, if the bytes hold all of it.
    fn read(bytes: &[u8], at: usize) -> Option<Found<Self::Item>>
        ensures { result ≡ held size bytes.now at (Some (found size item bytes.now at)) };

    // The byte of the first present count that is 0, in a record that the bytes hold.
    fn zero_count(bytes: &[u8], at: usize) -> Option<usize>
        ensures { result ≡ held size bytes.now at (zeros bytes.now at) };

    // The value of the record that begins at a byte, if the bytes hold all of it.
    fn value(bytes: &[u8], at: usize) -> Option<Self>
        ensures { result ≡ held size bytes.now at (Some (value bytes.now at)) };

    ghost enough: { (b : List ℕ) (at : ℕ) → SMALLEST ≤ size b at };
}
