// Lists of numbers, in arrays that have places for the longest.
ghost use Rattle.std.specs.Prelude.{◌≤◌, length};

use crate::generator::Generator;
use crate::input::Input;

// A list of at most N numbers. The places beyond it hold numbers too, which are not of the list.
#[derive(Clone, Copy)]
pub struct List<const N: usize> {
    places: [u64; N],
    count: usize,
    ghost within: { count ≤ N },
}

impl<const N: usize> List<N> {
    // One number, `count` times: N times where that is less.
    pub fn of(number: u64, count: usize) -> List<N> {
        List {
            places: [number; N],
            count: count.min(N),
        }
    }

    // Drawn words, and 0 in the places beyond.
    pub fn drawn(count: usize, seed: u64) -> List<N> {
        let mut list = List::of(0, count);
        draw(list.as_mut_slice(), seed);
        list
    }

    // The input's next list (`read`).
    pub fn read(input: &mut Input<'_>) -> List<N> {
        let mut places = [0; N];
        let count = read(input, &mut places, 0);
        List { places, count }
    }

    pub fn as_slice(&self) -> &[u64] {
        &self.places[..self.count]
    }

    pub fn as_mut_slice(&mut self) -> &mut [u64] {
        let count = self.count;
        let places = &mut self.places;
        &mut places[..count]
    }

    // All places, those beyond the list too.
    pub fn places(&self) -> &[u64; N] {
        &self.places
    }

    pub fn places_mut(&mut self) -> &mut [u64; N] {
        &mut self.places
    }
}

// The word that a number of 64 bits is drawn for.
pub fn word_of(number: u64) -> u64 {
    number % fields::order()
}

// Drawn words.
fn draw(list: &mut [u64], seed: u64) {
    for (place, number) in list.iter_mut().zip(Generator::new(seed)) {
        *place = word_of(number);
    }
}

// The input's next list: its count, its seed, and the runs that are written over the drawn words. How many numbers it has: all places, where
// the count is greater.
pub fn read(input: &mut Input<'_>, places: &mut [u64], beyond: u64) -> usize
    ensures { result ≤ length places.new }
{
    let count = input.count(places.len());
    draw(&mut places[..count], input.number());
    places[count..].fill(beyond);
    read_runs(input, places);
    count
}

// Runs, each written from its place on.
pub fn read_runs(input: &mut Input<'_>, places: &mut [u64]) {
    for _ in 0..input.number() {
        read_run(input, places);
    }
}

// The values of a run, from its place on.
fn read_run(input: &mut Input<'_>, places: &mut [u64]) {
    let first = input.number();
    for i in 0..input.number() {
        put(places, first.wrapping_add(i), input.number());
    }
}

// A number at a place, if there is such a place.
pub fn put(places: &mut [u64], place: u64, number: u64) {
    if let Some(held) = places.get_mut(place as usize) {
        *held = number;
    }
}

// The numbers of a list from a place on, in the places that there are.
pub fn write(places: &mut [u64], first: usize, numbers: &[u64]) {
    for (place, number) in places.iter_mut().skip(first).zip(numbers) {
        *place = *number;
    }
}

// The first numbers of a list, as many as are asked for and there are, and the others.
pub fn split(numbers: &[u64], count: usize) -> (&[u64], &[u64]) {
    let end = count.min(numbers.len());
    (&numbers[..end], &numbers[end..])
}

// The digest goes on over a list: 31 d + x modulo 2^64, for each number x.
pub fn digest_after(before: u64, numbers: &[u64]) -> u64 {
    numbers.iter().fold(
        before,
        |digest, number| digest.wrapping_mul(31).wrapping_add(*number),
    )
}

// The digest of a list.
pub fn digest(numbers: &[u64]) -> u64 {
    digest_after(1, numbers)
}
