// The root program (Rules 7.5, 7.6), from the bytes that it reads to those that it writes.
#![tactic(auto)]

ghost use Rattle.std.specs.Prelude.{◌≡◌, ◌+◌, ◌/◌, ◌≤◌, ◌<◌, min, length, take, drop};
ghost use Rattle.refusals.specs.Answers.{number_of};
ghost use Rattle.parameters.specs.Refusals.{constant_count};
ghost use Rattle.parameters.specs.ParameterSet.{validation_of};
ghost use Rattle.octets.specs.Numbers.{numbers_of};
ghost use Rattle.program.specs.Program.{read_width, read_count, read_leaves, read_validation, lines, refused_line, read_text, root_text, written};

use opening_tree::{ParameterSet, Refusal};

// The numbers of the bytes, and how many they are.
fn decode(bytes: &[u8], numbers: &mut [u64]) -> usize
    requires { length bytes.now / 8 ≤ length numbers.old }
    ensures { (result ≡ length bytes.now / 8) × (take result numbers.new ≡ numbers_of 8 result bytes.now) }
{
    let count = bytes.len() / 8;
    for i in 0..count {
        numbers[i] = encoding::number_of(&bytes[8 * i..]);
    }
    count
}

// The first n numbers, or all of them.
fn first(numbers: &[u64], n: u64) -> &[u64]
    ensures { result.now ≡ take n numbers.now }
{
    &numbers[..numbers.len().min(n as usize)]
}

// The numbers after the first n, or none.
fn beyond(numbers: &[u64], n: u64) -> &[u64]
    ensures { result.now ≡ drop n numbers.now }
{
    &numbers[numbers.len().min(n as usize)..]
}

// t * R_F + R_P, or the most that is asked for where that is less: nothing wraps.
#[tactic(auto, unfolding(parameters::specs::Refusals::constant_count))]
fn constant_count(width: u64, full_rounds: u64, partial_rounds: u64, most: u64) -> u64
    ensures { result ≡ min (constant_count width full_rounds partial_rounds) most }
{
    width
        .saturating_mul(full_rounds)
        .saturating_add(partial_rounds)
        .min(most)
}

// The words in decimal, each on a line of its own.
fn put_lines(words: &[u64], output: &mut [u8]) -> usize
    requires { (length words.now ≤ 6) × (length output.old ≡ 128) }
    ensures value { result ≡ length (lines words.now) }
    ensures output_after { output.new ≡ written (lines words.now) output.old }
{
    let mut at = 0;
    for word in words {
        let last = encoding::put_decimal(*word, at, output);
        output[last] = b'\n';
        at = last + 1;
    }
    at
}

// The line of a refusal.
fn put_refused(refusal: Refusal, output: &mut [u8]) -> usize
    requires { length output.old ≡ 128 }
    ensures value { result ≡ length (refused_line (number_of refusal)) }
    ensures output_after { output.new ≡ written (refused_line (number_of refusal)) output.old }
{
    let number = refusal.number();
    let at = encoding::put_bytes(b"refused ", 0, output);
    let end = encoding::put_decimal(number as u64, at, output);
    output[end] = b'\n';
    end + 1
}

// What follows D.
fn after_diagonal(numbers: &[u64]) -> &[u64]
    ensures { result.now ≡ drop (read_width numbers.now) (drop 5 numbers.now) }
{
    let lists = beyond(numbers, 5);
    beyond(lists, parameters::number_at(numbers, 0))
}

// How many of the numbers after D are C's.
fn constants_read(numbers: &[u64]) -> u64
    ensures { result ≡ min (read_count numbers.now) (length (drop (read_width numbers.now) (drop 5 numbers.now))) }
{
    let rest = after_diagonal(numbers);
    constant_count(
        parameters::number_at(numbers, 0),
        parameters::number_at(numbers, 3),
        parameters::number_at(numbers, 4),
        rest.len() as u64,
    )
}

fn leaves_read(numbers: &[u64]) -> &[u64]
    ensures { result.now ≡ read_leaves numbers.now }
{
    let rest = after_diagonal(numbers);
    beyond(rest, constants_read(numbers))
}

// The set of the numbers, or the refusal of it.
fn set_read(numbers: &[u64]) -> Result<ParameterSet, Refusal>
    ensures { validation_of result ≡ read_validation numbers.now }
{
    let width = parameters::number_at(numbers, 0);
    let lists = beyond(numbers, 5);
    let rest = after_diagonal(numbers);
    opening_tree::validate(
        width,
        parameters::number_at(numbers, 1),
        parameters::number_at(numbers, 2),
        parameters::number_at(numbers, 3),
        parameters::number_at(numbers, 4),
        first(lists, width),
        first(rest, constants_read(numbers)),
    )
}

// The text for the numbers that were read.
fn text_of(numbers: &[u64], output: &mut [u8]) -> usize
    requires { length output.old ≡ 128 }
    ensures value { result ≡ length (read_text numbers.now) }
    ensures output_after { output.new ≡ written (read_text numbers.now) output.old }
{
    let set = match set_read(numbers) {
        Ok(set) => set,
        Err(refusal) => return put_refused(refusal, output),
    };
    let size = set.node_size as usize;
    let mut places = [0u64; 6];
    let node = &mut places[..size];
    match opening_tree::storeless_root(set, leaves_read(numbers), node) {
        Ok(()) => put_lines(node, output),
        Err(refusal) => put_refused(refusal, output),
    }
}

// The text of the root program for its input: how many bytes of the output it is.
pub fn root_text(input: &[u8], output: &mut [u8; 128]) -> usize
    ensures value { result ≡ length (root_text input.now) }
    ensures output_after { output.new ≡ written (root_text input.now) output.old }
{
    if input.len() < 40 || 65536 < input.len() || input.len() % 8 != 0 {
        return put_refused(Refusal::BadLength, output);
    }
    let mut numbers = [0u64; 8192];
    let count = decode(input, &mut numbers);
    text_of(&numbers[..count], output)
}
