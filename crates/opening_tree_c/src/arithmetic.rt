// The field, for C.
ghost use Rattle.std.specs.Prelude.{◌≡◌};
ghost use Rattle.fields.specs.Prime.{prime};
ghost use Rattle.field_entries.specs.Arithmetic.{sum_reply, difference_reply, product_reply, power_reply, inverse_reply, seventh_root_reply};
ghost use Rattle.replies.specs.Replies.{number_of, value_after};

// a + b.
#[unsafe(no_mangle)]
pub extern "C" fn opening_tree_sum(a: u64, b: u64, res: &mut u64) -> u8
    ensures { (result ≡ number_of (sum_reply prime a b)) × (res.new ≡ value_after (sum_reply prime a b) res.old) }
{
    replies::of_answer(opening_tree::sum(a, b), res)
}

// a - b.
#[unsafe(no_mangle)]
pub extern "C" fn opening_tree_difference(a: u64, b: u64, res: &mut u64) -> u8
    ensures { (result ≡ number_of (difference_reply prime a b)) × (res.new ≡ value_after (difference_reply prime a b) res.old) }
{
    replies::of_answer(opening_tree::difference(a, b), res)
}

// a times b, for any two numbers.
#[unsafe(no_mangle)]
pub extern "C" fn opening_tree_product(a: u64, b: u64, res: &mut u64) -> u8
    ensures { (result ≡ number_of (product_reply prime a b)) × (res.new ≡ value_after (product_reply prime a b) res.old) }
{
    replies::of_answer(opening_tree::product(a, b), res)
}

// The base to the power of the exponent, for any two numbers.
#[unsafe(no_mangle)]
pub extern "C" fn opening_tree_power(base: u64, exponent: u64, res: &mut u64) -> u8
    ensures { (result ≡ number_of (power_reply prime base exponent)) × (res.new ≡ value_after (power_reply prime base exponent) res.old) }
{
    replies::of_answer(opening_tree::power(base, exponent), res)
}

// The word whose product with x is 1.
#[unsafe(no_mangle)]
pub extern "C" fn opening_tree_inverse(x: u64, res: &mut u64) -> u8
    ensures { (result ≡ number_of (inverse_reply prime x)) × (res.new ≡ value_after (inverse_reply prime x) res.old) }
{
    replies::of_answer(opening_tree::inverse(x), res)
}

// The word whose seventh power is y.
#[unsafe(no_mangle)]
pub extern "C" fn opening_tree_seventh_root(y: u64, res: &mut u64) -> u8
    ensures { (result ≡ number_of (seventh_root_reply prime y)) × (res.new ≡ value_after (seventh_root_reply prime y) res.old) }
{
    replies::of_answer(opening_tree::seventh_root(y), res)
}
