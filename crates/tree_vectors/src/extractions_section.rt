// The section `extractions`: the two rows that the extractor finds, or what turns it back.
use harness::answers::Counted;
use harness::handed;
use harness::input::Input;
use harness::lists::List;
use harness::shown::Manner;
use std::fmt;
use std::fmt::Write;
use streams::Output;

// A leaf with its siblings.
#[derive(Clone, Copy)]
struct Opened {
    leaf: List<64>,
    siblings: List<64>,
}

impl Opened {
    fn read(input: &mut Input<'_>) -> Opened {
        Opened {
            leaf: List::read(input),
            siblings: List::read(input),
        }
    }
}

// One extraction, to row buffers of these lengths, and what they hold after it.
pub fn case(out: &mut Output, input: &mut Input<'_>) -> fmt::Result {
    let (numbers, set) = handed::read_set(input);
    let root = List::<64>::read(input);
    let place = input.number();
    let first = Opened::read(input);
    let second = Opened::read(input);
    let mut first_row = List::<16>::of(7, input.count(16));
    let mut second_row = List::<16>::of(7, input.count(16));
    let extraction = opening_tree::extract(
        set,
        root.as_slice(),
        place,
        first.leaf.as_slice(),
        first.siblings.as_slice(),
        second.leaf.as_slice(),
        second.siblings.as_slice(),
        first_row.as_mut_slice(),
        second_row.as_mut_slice(),
    );
    let first_shown = Manner::InFull.show(first_row.as_slice());
    let second_shown = Manner::InFull.show(second_row.as_slice());
    let level = Counted("level", extraction);
    writeln!(
        out,
        "{numbers} extract{level} first{first_shown} second{second_shown}"
    )
}
