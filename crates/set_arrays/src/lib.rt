// Sets as arrays of 238 numbers, as C holds them (Rules 2.8).
#![tactic(auto)]

ghost use Rattle.std.specs.Prelude.{◌≡◌, ◌+◌, ◌≤◌, length};
ghost use Rattle.merkle.specs.Lists.{part};
ghost use Rattle.set_arrays.specs.Arrays.{set_of, array_of};

use parameters::ParameterSet;

// Numbers from a place on, as many as the array has.
fn numbers_at<const N: usize>(numbers: &[u64], from: usize) -> [u64; N]
    requires { from + N ≤ length numbers.now }
    ensures { result ≡ part from N numbers.now }
{
    let mut places = [0; N];
    places.copy_from_slice(&numbers[from..from + N]);
    places
}

// The set that an array is.
pub fn read(numbers: &[u64; 238]) -> ParameterSet
    ensures { result ≡ set_of numbers.now }
{
    ParameterSet {
        width: numbers[0],
        node_size: numbers[1],
        height: numbers[2],
        full_rounds: numbers[3],
        partial_rounds: numbers[4],
        diagonal: numbers_at(numbers, 5),
        constants: numbers_at(numbers, 17),
        inverses: numbers_at(numbers, 225),
        total_inverse: numbers[237],
    }
}

// The array of a set, written over the numbers.
pub fn write(set: ParameterSet, numbers: &mut [u64])
    requires { length numbers.old ≡ 238 }
    ensures { numbers.new ≡ array_of set }
{
    let five = [
        set.width,
        set.node_size,
        set.height,
        set.full_rounds,
        set.partial_rounds,
    ];
    numbers[..5].copy_from_slice(&five);
    numbers[5..17].copy_from_slice(&set.diagonal);
    numbers[17..225].copy_from_slice(&set.constants);
    numbers[225..237].copy_from_slice(&set.inverses);
    numbers[237] = set.total_inverse;
}
