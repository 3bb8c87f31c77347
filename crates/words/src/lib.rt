// Words of 32 bits and the little-endian bytes that spell them, four to a word.
#![tactic(auto)]

ghost use Rattle.std.specs.Prelude.{◌≡◌, ◌*◌, length};
ghost use Rattle.words.specs.Spelling.{words_of, bytes_for};

use bits::piece;

// Fills the words with those that the bytes spell.
pub fn load(bytes: &[u8], words: &mut [u32])
    requires { length bytes.now ≡ 4 * length words.old }
    ensures { words.new ≡ words_of bytes.now }
{
    let (spelled, _) = bytes.as_chunks::<4>();
    for (i, four) in spelled.iter().enumerate() {
        words[i] = u32::from_le_bytes(*four);
    }
}

// Fills the bytes with those of the words, and they spell the words again.
pub fn store(words: &[u32], bytes: &mut [u8])
    requires { length bytes.old ≡ 4 * length words.now }
    ensures { (bytes.new ≡ bytes_for words.now) × (words_of bytes.new ≡ words.now) }
{
    for (i, word) in words.iter().enumerate() {
        piece::put(bytes, 4 * i, &word.to_le_bytes());
    }
}
