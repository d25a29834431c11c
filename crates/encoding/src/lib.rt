// Numbers and bytes: the number of bytes, the lowest first, and numbers as text.
#![tactic(auto)]

ghost use Rattle.std.specs.Prelude.{◌≡◌, ◌+◌, ◌%◌, ◌^◌, ◌≤◌, ◌<◌, length, take};
ghost use Rattle.octets.specs.Numbers.{little_endian, decimal};
ghost use Rattle.merkle.specs.Lists.{put};

// The number of the first 8 bytes.
pub fn number_of(bytes: &[u8]) -> u64
    requires { 8 ≤ length bytes.now }
    ensures { result ≡ little_endian (take 8 bytes.now) }
{
    u64::from_le_bytes([
        bytes[0], bytes[1], bytes[2], bytes[3], bytes[4], bytes[5], bytes[6], bytes[7],
    ])
}

// The number of the n lowest bytes of a number.
pub fn low_bytes(number: u64, n: usize) -> u64
    requires { n ≤ 7 }
    ensures { result ≡ number % 256 ^ n }
{
    number % (1u64 << (8 * n))
}

// Bytes from a place on. Where they end.
pub fn put_bytes(bytes: &[u8], at: usize, output: &mut [u8]) -> usize
    requires { at + length bytes.now ≤ length output.old }
    ensures value { result ≡ at + length bytes.now }
    ensures output_after { output.new ≡ put output.old at bytes.now }
{
    let end = at + bytes.len();
    output[at..end].copy_from_slice(bytes);
    end
}

// A number in decimal: the digits before the last, and the last. Where they end.
pub fn put_decimal(n: u64, at: usize, output: &mut [u8]) -> usize
    requires { at + length (decimal n) ≤ length output.old }
    ensures value { result ≡ at + length (decimal n) }
    ensures output_after { output.new ≡ put output.old at (decimal n) }
{
    if n < 10 {
        output[at] = b'0' + n as u8;
        return at + 1;
    }
    let last = put_decimal(n / 10, at, output);
    output[last] = b'0' + (n % 10) as u8;
    last + 1
}
