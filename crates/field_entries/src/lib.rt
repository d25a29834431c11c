// The field's entries, for any numbers of 64 bits.
#![tactic(auto)]

ghost use Rattle.std.specs.Prelude.{◌≡◌, [], ◌∷◌};
ghost use Rattle.refusals.specs.Table.{first_refusal, not_words};
ghost use Rattle.refusals.specs.Answers.{refusal_number};
ghost use Rattle.fields.specs.Prime.{prime};
ghost use Rattle.field_entries.specs.Arithmetic.{reply_of, sum_reply, difference_reply, product_reply, power_reply, inverse_reply, seventh_root_reply};

use refusals::Refusal;

// Whether a number is a word, or refusal 12.
fn check_word(x: u64) -> Result<(), Refusal>
    ensures { refusal_number result ≡ first_refusal (not_words prime (x ∷ []) ∷ []) }
{
    if fields::order() <= x {
        return Err(Refusal::NotAWord);
    }
    Ok(())
}

// a + b modulo p.
pub fn sum(a: u64, b: u64) -> Result<u64, Refusal>
    ensures { reply_of result ≡ sum_reply prime a b }
{
    check_word(a)?;
    check_word(b)?;
    Ok(fields::sum(a, b))
}

// a - b modulo p.
pub fn difference(a: u64, b: u64) -> Result<u64, Refusal>
    ensures { reply_of result ≡ difference_reply prime a b }
{
    check_word(a)?;
    check_word(b)?;
    Ok(fields::difference(a, b))
}

// a * b modulo p, for any two numbers: always the word, in a Result as of the entries that can refuse, so that the six are read alike.
pub fn product(a: u64, b: u64) -> Result<u64, Refusal>
    ensures { reply_of result ≡ product_reply prime a b }
{
    Ok(fields::product(a, b))
}

// base to the power exponent modulo p, for any two numbers: always the word, in a Result as that of a product.
pub fn power(base: u64, exponent: u64) -> Result<u64, Refusal>
    ensures { reply_of result ≡ power_reply prime base exponent }
{
    Ok(fields::power(base, exponent))
}

// The word whose product with x is 1.
pub fn inverse(x: u64) -> Result<u64, Refusal>
    ensures { reply_of result ≡ inverse_reply prime x }
{
    check_word(x)?;
    if x == 0 {
        return Err(Refusal::NoInverse);
    }
    Ok(fields::inverse(x))
}

// The word whose seventh power is y.
pub fn seventh_root(y: u64) -> Result<u64, Refusal>
    ensures { reply_of result ≡ seventh_root_reply prime y }
{
    check_word(y)?;
    Ok(fields::seventh_root(y))
}
