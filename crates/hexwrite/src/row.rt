// A row as it is written.
ghost use Rattle.std.specs.Prelude.{◌≡◌, ◌+◌, ◌*◌, ◌%◌, ◌≤◌, ◌<◌, length};
ghost use Rattle.std.proofs.lemmas.List.Edits.{sets};
ghost use Rattle.hexpairs.specs.Pairs.{total};
ghost use Rattle.hexwrite.specs.Write.{head_of, sum_for, row_for};

// The sum of some bytes modulo 256.
fn sum_of(bytes: &[u8]) -> u8
    ensures { result ≡ total bytes.now % 256 }
{
    let mut sum = 0u8;
    for byte in bytes {
        sum = sum.wrapping_add(*byte);
    }
    sum
}

// The last byte of a row of data: with it the sum of the row's bytes is a multiple of 256.
fn sum_for(at: usize, bytes: &[u8]) -> u8
    requires { (at < 65536) × (length bytes.now < 256) }
    ensures { result ≡ sum_for (head_of 0 at bytes.now) }
{
    let [high, low] = (at as u16).to_be_bytes();
    let head = (bytes.len() as u8).wrapping_add(high).wrapping_add(low);
    head.wrapping_add(sum_of(bytes)).wrapping_neg()
}

// A row of data, put into a text: at a place in the lent buffer, since the caller lends all the room at once, and there is no heap.
pub fn put_row(text: &mut [u8], n: usize, at: usize, bytes: &[u8])
    requires { (n + (2 * length bytes.now + 12) ≤ length text.old) × (at < 65536) × (length bytes.now < 256) }
    ensures { text.new ≡ sets text.old n (row_for 0 at bytes.now) }
{
    let [high, low] = (at as u16).to_be_bytes();
    let head = [bytes.len() as u8, high, low, 0];
    text[n] = b':';
    digits::put_bytes(text, n + 1, &head);
    digits::put_bytes(text, n + 9, bytes);
    let end = n + 9 + 2 * bytes.len();
    digits::put_byte(text, end, sum_for(at, bytes));
    text[end + 2] = b'\n';
}
