// Numbers in upper-case hexadecimal digits, put into a text at a place.
#![tactic(auto)]

ghost use Rattle.std.specs.Prelude.{◌≡◌, ◌++◌, ◌+◌, ◌*◌, ◌≤◌, ◌<◌, length};
ghost use Rattle.std.proofs.lemmas.List.Edits.{sets};
ghost use Rattle.isa.specs.Text.{ascii};
ghost use Rattle.digits.specs.Digits.{digit, hex_byte, hex_bytes, hex_address};

pub fn hex_digit(n: u8) -> u8
    requires { n < 16 }
    ensures { result ≡ digit n }
{
    if n < 10 { b'0' + n } else { b'A' + (n - 10) }
}

// A place in a lent buffer, since the caller lends all the room at once: no heap, and `sets` in the clause is of the whole buffer.
pub fn put_byte(text: &mut [u8], n: usize, b: u8)
    requires { n + 2 ≤ length text.old }
    ensures { text.new ≡ sets text.old n (hex_byte b) }
{
    text[n] = hex_digit(b / 16);
    text[n + 1] = hex_digit(b % 16);
}

pub fn put_bytes(text: &mut [u8], n: usize, bytes: &[u8])
    requires { n + 2 * length bytes.now ≤ length text.old }
    ensures { text.new ≡ sets text.old n (hex_bytes bytes.now) }
{
    for (i, b) in bytes.iter().enumerate() {
        put_byte(text, n + 2 * i, *b);
    }
}

// An address and the space after it.
pub fn put_address(text: &mut [u8], n: usize, at: usize)
    requires { (n + 5 ≤ length text.old) × (at < 65536) }
    ensures { text.new ≡ sets text.old n (hex_address at ++ ascii " ") }
{
    put_bytes(text, n, &(at as u16).to_be_bytes());
    text[n + 4] = b' ';
}
