// The parameter set and its validation (Rules 2).
#![tactic(auto)]

ghost use Rattle.std.specs.Prelude.{◌≡◌, true, [], ◌∷◌, ◌≤◌, length, get_or};
ghost use Rattle.modular.specs.Arithmetic.{all_words};
ghost use Rattle.fields.specs.Prime.{prime};
ghost use Rattle.refusals.specs.Table.{first_refusal};
ghost use Rattle.refusals.specs.Answers.{refusal_number};
ghost use Rattle.poseidon2.specs.Inverse.{zeros};
ghost use Rattle.poseidon2.specs.Statements.{AcceptedDiagonal};
ghost use Rattle.kept.specs.Kept.{padded};
ghost use Rattle.parameters.specs.ParameterSet.{held, validation_of, validation, used_diagonal, used_constants, used_inverses, with_diagonal, with_height, set_refusals};
ghost use Rattle.parameters.specs.Refusals.{bad_width, bad_node_size, bad_full_rounds, bad_partial_rounds, bad_height, constant_count, bad_lengths, bad_diagonal, number_refusals, shape_refusals, word_refusals, kept_refusals, list_refusals, used_refusals};

use kept::Kept;
use refusals::Refusal;

#[derive(Clone, Copy, Debug, PartialEq, Eq)]
pub struct ParameterSet {
    pub width: u64,
    pub node_size: u64,
    pub height: u64,
    pub full_rounds: u64,
    pub partial_rounds: u64,
    pub diagonal: [u64; 12],
    pub constants: [u64; 208],
    pub inverses: [u64; 12],
    pub total_inverse: u64,
}

// The five numbers of a set.
#[derive(Clone, Copy, Debug, PartialEq, Eq)]
struct Numbers {
    width: u64,
    node_size: u64,
    height: u64,
    full_rounds: u64,
    partial_rounds: u64,
}

impl ParameterSet {
    fn numbers(&self) -> Numbers
        ensures { result ≡ record { width = self.now.width; node_size = self.now.node_size; height = self.now.height; full_rounds = self.now.full_rounds; partial_rounds = self.now.partial_rounds } }
    {
        Numbers {
            width: self.width,
            node_size: self.node_size,
            height: self.height,
            full_rounds: self.full_rounds,
            partial_rounds: self.partial_rounds,
        }
    }

    #[tactic(auto, unfolding(crate::specs::ParameterSet::used_diagonal))]
    fn used_diagonal(&self) -> &[u64]
        requires { self.now.width ≤ 12 }
        ensures { result.now ≡ used_diagonal self.now }
    {
        &self.diagonal[..self.width as usize]
    }

    #[tactic(auto, unfolding(crate::specs::ParameterSet::used_constants, crate::specs::Refusals::constant_count))]
    fn used_constants(&self) -> &[u64]
        requires { constant_count self.now.width self.now.full_rounds self.now.partial_rounds ≤ 208 }
        ensures { result.now ≡ used_constants self.now }
    {
        &self.constants[..(self.width * self.full_rounds + self.partial_rounds) as usize]
    }

    #[tactic(auto, unfolding(crate::specs::ParameterSet::used_inverses))]
    fn used_inverses(&self) -> &[u64]
        requires { self.now.width ≤ 12 }
        ensures { result.now ≡ used_inverses self.now }
    {
        &self.inverses[..self.width as usize]
    }
}

#[tactic(auto, unfolding(crate::specs::Refusals::bad_width))]
pub fn bad_width(width: u64) -> bool
    ensures { result ≡ bad_width width }
{
    !matches!(width, 4 | 8 | 12)
}

#[tactic(auto, unfolding(crate::specs::Refusals::bad_node_size))]
fn bad_node_size(width: u64, node_size: u64) -> bool
    ensures { result ≡ bad_node_size width node_size }
{
    node_size == 0 || width % node_size != 0 || width / node_size < 2
}

#[tactic(auto, unfolding(crate::specs::Refusals::bad_full_rounds))]
pub fn bad_full_rounds(full_rounds: u64) -> bool
    ensures { result ≡ bad_full_rounds full_rounds }
{
    full_rounds % 2 == 1 || full_rounds == 0 || 12 < full_rounds
}

#[tactic(auto, unfolding(crate::specs::Refusals::bad_partial_rounds))]
pub fn bad_partial_rounds(partial_rounds: u64) -> bool
    ensures { result ≡ bad_partial_rounds partial_rounds }
{
    64 < partial_rounds
}

// Whether a tree of this arity and height has over 2^32 leaves.
#[tactic(auto, unfolding(crate::specs::Refusals::bad_height))]
fn bad_height(arity: u64, height: u64) -> bool
    ensures { result ≡ bad_height arity height }
{
    32 < height || 4294967296 < arity.saturating_pow(height as u32)
}

// Whether four numbers are below the order.
#[tactic(auto, unfolding(modular::specs::Arithmetic::all_words, modular::specs::Arithmetic::is_word))]
fn four_words(order: u64, a: u64, b: u64, c: u64, d: u64) -> bool
    ensures { result ≡ all_words order (a ∷ b ∷ c ∷ d ∷ []) }
{
    a < order && b < order && c < order && d < order
}

// Whether every number is a word, one a turn: for a short list, as the siblings of a node.
pub fn few_words(numbers: &[u64]) -> bool
    ensures { result ≡ all_words prime numbers.now }
{
    let order = fields::order();
    numbers.iter().all(|number| *number < order)
}

// Whether every number is a word. A push tests a whole store by this: with four numbers a turn it matters little where the loop lies in
// the code, and with one it did. By `chunks_exact(4)` it took 1.5 times as long, by `as_chunks` 1.3 times.
pub fn all_words(numbers: &[u64]) -> bool
    ensures { result ≡ all_words prime numbers.now }
{
    let order = fields::order();
    let mut i = 0;
    while 4 <= numbers.len() - i {
        if !four_words(
            order,
            numbers[i],
            numbers[i + 1],
            numbers[i + 2],
            numbers[i + 3],
        ) {
            return false;
        }
        i += 4;
    }
    few_words(&numbers[i..])
}

// Whether no word of D is 0, and 1 and their inverses sum to 0: that sum times the product of all D, so without an inversion.
fn bad_diagonal(zero_count: usize, diagonal: &[u64]) -> bool
    requires { (zero_count ≡ zeros diagonal.now) × (length diagonal.now ≤ 12) × (all_words prime diagonal.now ≡ true) }
    ensures { result ≡ bad_diagonal prime diagonal.now }
{
    zero_count == 0 && fields::residue(kept::products_of(diagonal).scaled) == 0
}

// Refusals 1 to 5.
#[tactic(auto, unfolding(crate::specs::Refusals::number_refusals, refusals::specs::Table::first_refusal))]
fn check_numbers(numbers: Numbers) -> Result<(), Refusal>
    ensures { refusal_number result ≡ first_refusal (number_refusals numbers.width numbers.node_size numbers.height numbers.full_rounds numbers.partial_rounds) }
{
    if bad_width(numbers.width) {
        return Err(Refusal::BadWidth);
    }
    if bad_node_size(numbers.width, numbers.node_size) {
        return Err(Refusal::BadNodeSize);
    }
    if bad_full_rounds(numbers.full_rounds) {
        return Err(Refusal::BadFullRounds);
    }
    if bad_partial_rounds(numbers.partial_rounds) {
        return Err(Refusal::BadPartialRounds);
    }
    if bad_height(numbers.width / numbers.node_size, numbers.height) {
        return Err(Refusal::BadHeight);
    }
    Ok(())
}

// Refusals 7 and 8, for a D of which so many numbers are 0.
#[tactic(auto, unfolding(crate::specs::Refusals::word_refusals, crate::specs::Refusals::several_zeros, refusals::specs::Table::first_refusal))]
fn check_words(zero_count: usize, diagonal: &[u64], constants: &[u64]) -> Result<(), Refusal>
    requires { zero_count ≡ zeros diagonal.now }
    ensures { refusal_number result ≡ first_refusal (word_refusals prime diagonal.now constants.now) }
{
    if !all_words(diagonal) || !all_words(constants) {
        return Err(Refusal::BadListWord);
    }
    if 1 < zero_count {
        return Err(Refusal::ZeroInDiagonal);
    }
    Ok(())
}

// Refusals 7 to 9.
fn check_lists(diagonal: &[u64], constants: &[u64]) -> Result<(), Refusal>
    requires { length diagonal.now ≤ 12 }
    ensures { refusal_number result ≡ first_refusal (list_refusals prime diagonal.now constants.now) }
{
    let zero_count = kept::count_zeros(diagonal);
    check_words(zero_count, diagonal, constants)?;
    if bad_diagonal(zero_count, diagonal) {
        return Err(Refusal::SingularDiagonal);
    }
    Ok(())
}

// Refusals 9 and 18, for a D of words of which so many are 0. Kept values that fit leave no sum to test: its inverse is kept, and is 0 only
// where the sum is.
#[tactic(auto, unfolding(crate::specs::Refusals::kept_refusals, crate::specs::Refusals::bad_kept, refusals::specs::Table::first_refusal))]
fn check_kept(
    zero_count: usize,
    diagonal: &[u64],
    inverses: &[u64],
    total_inverse: u64,
) -> Result<(), Refusal>
    requires { (zero_count ≡ zeros diagonal.now) × (length diagonal.now ≤ 12) × (all_words prime diagonal.now ≡ true) × (length inverses.now ≡ length diagonal.now) }
    ensures { refusal_number result ≡ first_refusal (kept_refusals prime diagonal.now inverses.now total_inverse) }
{
    if !kept::fits(zero_count, diagonal, inverses, total_inverse) {
        if bad_diagonal(zero_count, diagonal) {
            return Err(Refusal::SingularDiagonal);
        }
        return Err(Refusal::BadKeptValues);
    }
    if zero_count == 0 && total_inverse == 0 {
        return Err(Refusal::SingularDiagonal);
    }
    Ok(())
}

// Refusals 7 to 9 and 18, for the used places of a set.
fn check_used(
    diagonal: &[u64],
    constants: &[u64],
    inverses: &[u64],
    total_inverse: u64,
) -> Result<(), Refusal>
    requires { (length diagonal.now ≤ 12) × (length inverses.now ≡ length diagonal.now) }
    ensures { refusal_number result ≡ first_refusal (used_refusals prime diagonal.now constants.now inverses.now total_inverse) }
{
    let zero_count = kept::count_zeros(diagonal);
    check_words(zero_count, diagonal, constants)?;
    check_kept(zero_count, diagonal, inverses, total_inverse)
}

// Whether D or C has another length than the numbers say.
#[tactic(auto, unfolding(crate::specs::Refusals::bad_lengths, crate::specs::Refusals::constant_count))]
fn bad_lengths(numbers: Numbers, diagonal: &[u64], constants: &[u64]) -> bool
    requires { (numbers.width ≤ 12) × (numbers.full_rounds ≤ 12) × (numbers.partial_rounds ≤ 64) }
    ensures { result ≡ bad_lengths numbers.width numbers.full_rounds numbers.partial_rounds diagonal.now constants.now }
{
    diagonal.len() as u64 != numbers.width
        || constants.len() as u64 != numbers.width * numbers.full_rounds + numbers.partial_rounds
}

// Refusals 1 to 6.
fn check_shape(numbers: Numbers, diagonal: &[u64], constants: &[u64]) -> Result<(), Refusal>
    ensures { refusal_number result ≡ first_refusal (shape_refusals numbers.width numbers.node_size numbers.height numbers.full_rounds numbers.partial_rounds diagonal.now constants.now) }
{
    check_numbers(numbers)?;
    if bad_lengths(numbers, diagonal, constants) {
        return Err(Refusal::BadListLength);
    }
    Ok(())
}

// The places for a list: the list, and zeros beyond it.
fn hold<const N: usize>(list: &[u64]) -> [u64; N]
    requires { length list.now ≤ N }
    ensures { result ≡ padded N list.now }
{
    let mut places = [0; N];
    places[..list.len()].copy_from_slice(list);
    places
}

// The set of five numbers and two lists that none of refusals 1 to 9 turns down.
fn held(numbers: Numbers, diagonal: &[u64], constants: &[u64]) -> ParameterSet
    requires { (length diagonal.now ≤ 12) × (length constants.now ≤ 208) × AcceptedDiagonal prime (length diagonal.now) diagonal.now }
    ensures { result ≡ held prime numbers.width numbers.node_size numbers.height numbers.full_rounds numbers.partial_rounds diagonal.now constants.now }
{
    let Kept {
        inverses,
        total_inverse,
    } = kept::keep(diagonal);
    ParameterSet {
        width: numbers.width,
        node_size: numbers.node_size,
        height: numbers.height,
        full_rounds: numbers.full_rounds,
        partial_rounds: numbers.partial_rounds,
        diagonal: hold(diagonal),
        constants: hold(constants),
        inverses,
        total_inverse,
    }
}

// The set of these numbers and lists, or its first refusal.
pub fn validate(
    width: u64,
    node_size: u64,
    height: u64,
    full_rounds: u64,
    partial_rounds: u64,
    diagonal: &[u64],
    constants: &[u64],
) -> Result<ParameterSet, Refusal>
    ensures { validation_of result ≡ validation prime width node_size height full_rounds partial_rounds diagonal.now constants.now }
{
    let numbers = Numbers {
        width,
        node_size,
        height,
        full_rounds,
        partial_rounds,
    };
    check_shape(numbers, diagonal, constants)?;
    check_lists(diagonal, constants)?;
    Ok(held(numbers, diagonal, constants))
}

// The number at a place, or 0 beyond the last.
pub fn number_at(numbers: &[u64], i: usize) -> u64
    ensures { result ≡ get_or numbers.now i 0 }
{
    numbers.get(i).copied().unwrap_or(0)
}

// Whether a set that is handed in is accepted, or its first refusal. Its places beyond the used ones are not read.
pub fn check_set(set: &ParameterSet) -> Result<(), Refusal>
    ensures { refusal_number result ≡ first_refusal (set_refusals set.now) }
{
    check_numbers(set.numbers())?;
    check_used(
        set.used_diagonal(),
        set.used_constants(),
        set.used_inverses(),
        set.total_inverse,
    )
}

// A set that is not refused, with another D in the place of its own.
pub fn with_diagonal(set: ParameterSet, diagonal: &[u64]) -> Result<ParameterSet, Refusal>
    requires { first_refusal (set_refusals set) ≡ 0 }
    ensures { validation_of result ≡ with_diagonal set diagonal.now }
{
    let constants = set.used_constants();
    validate(
        set.width,
        set.node_size,
        set.height,
        set.full_rounds,
        set.partial_rounds,
        diagonal,
        constants,
    )
}

// A set that is not refused, with another height in the place of its own: of the refusals of the outcome only 5 can apply, and what is kept
// is kept for the same D.
pub fn with_height(set: ParameterSet, other: u64) -> Result<ParameterSet, Refusal>
    requires { first_refusal (set_refusals set) ≡ 0 }
    ensures { validation_of result ≡ with_height set other }
{
    if bad_height(set.width / set.node_size, other) {
        return Err(Refusal::BadHeight);
    }
    Ok(ParameterSet {
        height: other,
        diagonal: hold(set.used_diagonal()),
        constants: hold(set.used_constants()),
        inverses: hold(set.used_inverses()),
        ..set
    })
}
