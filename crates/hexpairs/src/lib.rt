// Pairs of hexadecimal digits at a place of a text, and the end of a line.
#![tactic(auto)]

ghost use Rattle.std.specs.Prelude.{◌≡◌, true, ◌+◌, ◌*◌, ◌≤◌, ◌<◌, MatchOption, length, drop};
ghost use Rattle.std.proofs.lemmas.List.Edits.{sets};
ghost use Rattle.hexpairs.specs.Pairs.{digit_value, pair_value, pairs, spelled};
ghost use Rattle.hexpairs.specs.Reads.{byte_in, counted, sum_by, end_size};

// The number that a digit stands for.
fn value(c: u8) -> Option<u8>
    ensures { MatchOption result (digit_value c ≡ 256) (λ n. (digit_value c ≡ n) × (n < 16)) }
{
    match c {
        b'0'..=b'9' => Some(c - b'0'),
        b'A'..=b'F' => Some(c - b'A' + 10),
        b'a'..=b'f' => Some(c - b'a' + 10),
        _ => None,
    }
}

// The number of the pair at a place: the byte that it spells; where one of the two is no digit, 256 or above, and it says which.
pub fn number_at(text: &[u8], at: usize) -> usize
    requires { at + 2 ≤ length text.now }
    ensures { (result ≡ pair_value (drop at text.now)) × (result ≤ 4352) }
{
    let high = value(text[at]).map_or(256, usize::from);
    let low = value(text[at + 1]).map_or(256, usize::from);
    16 * high + low
}

// The byte that the pair at a place spells; none where one of the two is no digit.
pub fn pair_at(text: &[u8], at: usize) -> Option<u8>
    requires { at + 2 ≤ length text.now }
    ensures { result ≡ byte_in (pair_value (drop at text.now)) }
{
    let high = value(text[at])?;
    let low = value(text[at + 1])?;
    Some(16 * high + low)
}

// The sum of n pairs modulo 256; none where a character is no digit.
pub fn sum(text: &[u8], at: usize, n: usize) -> Option<u8>
    requires { at + 2 * n ≤ length text.now }
    ensures { result ≡ byte_in (sum_by n (drop at text.now)) }
{
    let mut sum = 0u8;
    for i in 0..n {
        sum = sum.wrapping_add(pair_at(text, at + 2 * i)?);
    }
    Some(sum)
}

// The bytes that n pairs spell, put into a buffer.
// A place in a lent buffer, since the caller lends all the room at once: no heap, and `sets` in the clause is of the whole buffer.
// By `number_at`, with no test in the loop: with one the compiler never puts sixteen bytes at once, and texts with rows of 32 bytes or more
// take a quarter to a third longer to read.
#[inline(always)]
pub fn put(out: &mut [u8], n: usize, text: &[u8], at: usize, count: usize)
    requires { (n + count ≤ length out.old) × (at + 2 * count ≤ length text.now) × (pairs count (drop at text.now) ≡ true) }
    ensures { out.new ≡ sets out.old n (spelled count (drop at text.now)) }
{
    for i in 0..count {
        out[n + i] = number_at(text, at + 2 * i) as u8;
    }
}

// The number of characters of the end of a line at a place.
pub fn end_size(text: &[u8], at: usize) -> Option<usize>
    ensures { result ≡ counted (end_size (drop at text.now)) }
{
    let rest = text.get(at..)?;
    if rest.starts_with(b"\n") {
        Some(1)
    } else if rest.starts_with(b"\r\n") {
        Some(2)
    } else {
        None
    }
}
