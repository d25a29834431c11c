// A map of numbers: a bit for each of the 2^20 from a base on.
ghost use Rattle.std.specs.Prelude.{◌≡◌, length};
ghost use Rattle.repeats.specs.Maps.{map_words, note};

// How many numbers a map has a bit for.
pub const WINDOW: u64 = 1048576;

// A number is noted if the map has a bit for it: whether it was noted before.
pub fn note(map: &mut [u64], base: u64, number: u64) -> bool
    requires { length map.old ≡ map_words }
    ensures { (result ≡ (note base number map.old).again) × (map.new ≡ (note base number map.old).map) }
{
    if number < base {
        return false;
    }
    let at = number - base;
    if WINDOW <= at {
        return false;
    }
    let i = (at / 64) as usize;
    let bit = at % 64;
    let word = map[i];
    if (word >> bit) % 2 == 1 {
        return true;
    }
    map[i] = word + (1u64 << bit);
    false
}
