// Records in order: a slice of them, or a list of numbers with seven for each, a place, then six words.
ghost use Rattle.std.specs.Prelude.{◌≡◌, ◌+◌, ◌*◌, ◌≤◌, ◌<◌, List, length, get_or};
ghost use Rattle.records.specs.declared.record.Record.{Record};
ghost use Rattle.records.specs.Listed.{record_at, listed};

use crate::record::Record;

// Record i of the list.
pub fn record_at(numbers: &[u64], i: usize) -> Record
    requires { i * 7 + 7 ≤ length numbers.now }
    ensures { result ≡ record_at numbers.now i }
{
    let at = i * 7;
    let words = [
        numbers[at + 1],
        numbers[at + 2],
        numbers[at + 3],
        numbers[at + 4],
        numbers[at + 5],
        numbers[at + 6],
    ];
    Record {
        place: numbers[at],
        words,
    }
}

// What passes go over, wherever the records stand.
pub trait Records: Copy {
    ghost list: { Self → List Record };

    fn count(self) -> usize
        ensures { result ≡ length (list self) };

    // Record i.
    fn record(self, i: usize) -> Record
        requires { i < length (list self) }
        ensures { get_or (list self) i result ≡ result };
}

impl<'a> Records for &'a [Record] {
    ghost list = { λ records. records.now };

    fn count(self) -> usize {
        self.len()
    }

    fn record(self, i: usize) -> Record {
        self[i]
    }
}

// The records of a list of numbers, of which fewer than seven at its end are none.
#[derive(Clone, Copy)]
pub struct Numbers<'a>(pub &'a [u64]);

impl<'a> Records for Numbers<'a> {
    ghost list = { λ numbers. listed numbers.0.now };

    #[tactic(auto, using(crate::proofs::Listed::listed_count))]
    fn count(self) -> usize {
        self.0.len() / 7
    }

    #[tactic(auto, using(crate::proofs::Listed::listed_count, crate::proofs::Listed::listed_at))]
    fn record(self, i: usize) -> Record {
        record_at(self.0, i)
    }
}
