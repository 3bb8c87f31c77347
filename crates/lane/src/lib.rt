// What one thread reads and writes of a word. Half h is of register h / 2, its low half where h is even, its high half where h is odd.
#![tactic(auto)]

ghost use Rattle.std.specs.Prelude.{◌≡◌, ℕ, Bool, cond, ◌*◌, ◌/◌, ◌%◌, ◌^◌, ◌<◌, eqb};
ghost use Rattle.std.specs.Int.Bits.{bit_and, bit_or};
ghost use Rattle.machine.specs.Lanes.{active_in, pack};
ghost use Rattle.machine.specs.Words.{pair_of};

// ---- where a half stands

// The bit of the word that the half starts at.
pub fn place(h: u16) -> u32
    ensures { result ≡ cond (eqb (h % 2) 0) 0 16 }
{
    if h % 2 == 0 { 0 } else { 16 }
}

// The bits of the word that are the other half's.
pub fn other(h: u16) -> u32
    ensures { result ≡ cond (eqb (h % 2) 0) 4294901760 65535 }
{
    if h % 2 == 0 { 0xffff0000 } else { 0x0000ffff }
}

// ---- reading

pub fn part(word: u32, place: u32) -> u64
    requires { place < 32 }
    ensures { result ≡ word / 2 ^ place % 2 ^ 16 }
{
    u64::from((word >> place) % 65536)
}

pub fn pair(first: u32, second: u32) -> u64
    ensures { result ≡ pair_of first second }
{
    u64::from(second) * 4294967296 + u64::from(first)
}

// ---- writing

pub fn active(mask: u32, t: usize) -> bool
    requires { t < 32 }
    ensures { result ≡ active_in mask t }
{
    (mask >> t) % 2 == 1
}

pub fn choose<T: Copy>(on: bool, new: T, old: T) -> T
    ensures { result ≡ cond on new old }
{
    if on { new } else { old }
}

// The bits of the other half, and the value at its place.
pub fn merge(word: u32, other: u32, x: u32, place: u32) -> u32
    requires { place < 32 }
    ensures { result ≡ bit_or (bit_and word other) (x % 2 ^ 16 * 2 ^ place % 2 ^ 32) }
{
    (word & other) | (x % 65536 << place)
}

// The 32 bits of a result from the bit k on.
pub fn result_word(x: u64, k: u32) -> u32
    requires { k < 64 }
    ensures { result ≡ x / 2 ^ k % 2 ^ 32 }
{
    ((x >> k) % 4294967296) as u32
}

// ---- the mask

// Bit t, where the thread's value is 0.
pub fn bit(zero: bool, t: usize) -> u32
    requires { t < 32 }
    ensures { result ≡ cond zero (2 ^ t) 0 }
{
    if zero { 1u32 << t } else { 0 }
}

// The threads of which f holds, a bit each.
pub fn mask<F: Fn(usize) -> bool>(f: F) -> u32
    requires { (t : ℕ) → t < 32 → F.pre f t }
    ensures { (p : ℕ → Bool) → ((t : ℕ) (on : Bool) → t < 32 → F.post f t on → on ≡ p t)
        → result ≡ pack 32 p }
{
    let mut mask = 0u32;
    for t in 0..32 {
        mask += bit(f(t), t);
    }
    mask
}
