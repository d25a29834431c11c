// The message of a file with its padding, by its bytes and words. It is never laid out: a byte is one of the head's or of the contents', or
// the mark behind them, or a zero.
ghost use Rattle.std.specs.Prelude.{◌≡◌, not, ◌||◌, [], ◌∷◌, ◌++◌, ◌+◌, ◌-◌, ◌≤◌, ◌<◌, ◌^◌, ltb, length, get_or, take, drop};
ghost use Rattle.merkle.specs.Lists.{put};
ghost use Rattle.octets.specs.Numbers.{little_endian};
ghost use Rattle.blobs.specs.Blob.{blob_head};
ghost use Rattle.fields.specs.Prime.{word_bytes};

// What stands before so many bytes of contents, and how many bytes it is.
#[tactic(auto, using(crate::proofs::MessageBytes::few_digits))]
pub fn put_head(count: u64, head: &mut [u8]) -> usize
    requires { (count ≤ 4294967295) × (length head.old ≡ 16) }
    ensures value { result ≡ length (blob_head count) }
    ensures head_after { head.new ≡ put head.old 0 (blob_head count) }
{
    let at = encoding::put_bytes(b"blob ", 0, head);
    let end = encoding::put_decimal(count, at, head);
    head[end] = 0;
    end + 1
}

// The byte of the padded message at a place.
fn byte_at(head: &[u8], contents: &[u8], at: usize) -> u8
    ensures { result ≡ get_or (head.now ++ (contents.now ++ (1 ∷ []))) at 0 }
{
    if at < head.len() {
        return head[at];
    }
    let i = at - head.len();
    if i < contents.len() {
        return contents[i];
    }
    if i == contents.len() {
        return 1;
    }
    0
}

// The word of the bytes from a place on, byte by byte.
#[tactic(auto, using(crate::proofs::MessageBytes::room, fields::proofs::Prime::bytes_few))]
pub fn gathered(head: &[u8], contents: &[u8], at: usize) -> u64
    requires { at ≤ 17179869184 }
    ensures { (result ≡ little_endian (take word_bytes (drop at (head.now ++ (contents.now ++ (1 ∷ [])))))) × (result < 256 ^ word_bytes) }
{
    let mut word = 0;
    for i in (0..fields::word_bytes()).rev() {
        word = 256 * word + u64::from(byte_at(head, contents, at + i));
    }
    word
}

// Whether so many bytes from a place on are all of the contents.
pub fn inside(head: &[u8], contents: &[u8], from: usize, count: usize) -> bool
    requires { (from ≤ 8589934592) × (count ≤ 92) }
    ensures { result ≡ not (ltb from (length head.now) || ltb (length contents.now) (from - length head.now + count)) }
{
    head.len() <= from && from - head.len() + count <= contents.len()
}
