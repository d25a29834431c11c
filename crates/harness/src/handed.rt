// The set of a line of the input: its five numbers, and the lists D and C.
use crate::input::Input;
use crate::lists;
use crate::lists::List;
use opening_tree::Refusal;
use parameters::ParameterSet;
use std::fmt;

// A set's five numbers.
#[derive(Clone, Copy)]
pub struct Numbers {
    pub width: u64,
    pub node_size: u64,
    pub height: u64,
    pub full_rounds: u64,
    pub partial_rounds: u64,
}

impl Numbers {
    pub fn read(input: &mut Input<'_>) -> Numbers {
        Numbers {
            width: input.number(),
            node_size: input.number(),
            height: input.number(),
            full_rounds: input.number(),
            partial_rounds: input.number(),
        }
    }
}

impl fmt::Display for Numbers {
    fn fmt<W: fmt::Write>(&self, f: &mut fmt::Formatter<W>) -> fmt::Result {
        write!(
            f,
            "{} {} {} {} {}",
            self.width, self.node_size, self.height, self.full_rounds, self.partial_rounds
        )
    }
}

// What validation answers for a line's numbers, D and C, which may be longer than any set's.
pub fn validate(input: &mut Input<'_>, numbers: Numbers) -> Result<ParameterSet, Refusal> {
    let diagonal = List::<16>::read(input);
    let constants = List::<224>::read(input);
    opening_tree::validate(
        numbers.width,
        numbers.node_size,
        numbers.height,
        numbers.full_rounds,
        numbers.partial_rounds,
        diagonal.as_slice(),
        constants.as_slice(),
    )
}

// The digest of all that a set holds but its kept values, its unused places too.
pub fn digest_of(set: &ParameterSet) -> u64 {
    let numbers = [
        set.width,
        set.node_size,
        set.height,
        set.full_rounds,
        set.partial_rounds,
    ];
    let first = lists::digest(&numbers);
    let second = lists::digest_after(first, &set.diagonal);
    lists::digest_after(second, &set.constants)
}

// What a set keeps of D, with a number in the places beyond; zeros where D is refused. The other parts of a set do not matter for it: here
// they are those of the smallest one.
fn kept_values(width: u64, diagonal: &[u64; 12], beyond: u64) -> ([u64; 12], u64) {
    let used = width.min(12) as usize;
    let constants = [0; 24];
    let validation = opening_tree::validate(
        width,
        1,
        0,
        2,
        0,
        &diagonal[..used],
        &constants[..2 * used],
    );
    let (right, total_inverse) = match validation {
        Ok(set) => {
            let inverses = set.inverses;
            (inverses, set.total_inverse)
        }
        Err(_) => ([0; 12], 0),
    };
    let mut inverses = [beyond; 12];
    inverses[..used].copy_from_slice(&right[..used]);
    (inverses, total_inverse)
}

// A line's set, whether it is one or not: after its numbers the number in the places beyond the used ones, D and C. The kept values are right,
// if D is.
pub fn read_set(input: &mut Input<'_>) -> (Numbers, ParameterSet) {
    let numbers = Numbers::read(input);
    let beyond = input.number();
    let mut diagonal = [0; 12];
    let mut constants = [0; 208];
    lists::read(input, &mut diagonal, beyond);
    lists::read(input, &mut constants, beyond);
    let (inverses, total_inverse) = kept_values(numbers.width, &diagonal, beyond);
    let set = ParameterSet {
        width: numbers.width,
        node_size: numbers.node_size,
        height: numbers.height,
        full_rounds: numbers.full_rounds,
        partial_rounds: numbers.partial_rounds,
        diagonal,
        constants,
        inverses,
        total_inverse,
    };
    (numbers, set)
}
