// Reading operands from a word.
#![tactic(auto)]

ghost use Rattle.std.specs.Prelude.{◌≡◌, ◌<◌, ◌≤◌};
ghost use Rattle.isa.specs.Operand.{cache_hint, source_hint, destination_of, uniform_of, source_of};
ghost use Rattle.operands.specs.At.{dst_at, src_at, unary_at, binary_at, ternary_at, compared_at};

use isa::operand::{Binary, Compared, Destination, Dst, Hint, Source, Src, Ternary, Unary};

pub fn cache_hint(b: u64) -> Hint
    ensures { result ≡ cache_hint b }
{
    if b == 1 { Hint::Cache } else { Hint::None }
}

// The two bits of the document, where 0 and 1 both are no hint: no order of the cases gives it.
fn source_hint(h: u64) -> Hint
    ensures { result ≡ source_hint h }
{
    match h {
        2 => Hint::Cache,
        3 => Hint::Discard,
        _ => Hint::None,
    }
}

#[tactic(auto, unfolding(isa::specs::Operand::destination_of))]
fn read_destination(wide: bool, v: u64, t: u64) -> Option<Dst>
    requires { (v < 256) × (t < 4) }
    ensures { result ≡ destination_of wide v t }
{
    let destination = if t / 2 == 0 {
        Destination::Half(v as u8)
    } else if v % 2 == 0 {
        Destination::Register((v / 2) as u8)
    } else if wide {
        Destination::Pair((v / 2) as u8)
    } else {
        return None;
    };
    Some(Dst {
        destination,
        hint: cache_hint(t % 2),
    })
}

#[tactic(auto, unfolding(isa::specs::Operand::uniform_of))]
fn read_uniform(wide: bool, u: u64, t1: u64) -> Option<Src>
    requires { u < 512 }
    ensures { result ≡ uniform_of wide u t1 }
{
    let first = u / 2;
    let source = if t1 == 0 {
        Source::UniformHalf(u as u16)
    } else if u % 2 == 0 {
        Source::UniformRegister(first as u8)
    } else if wide && first < 255 {
        Source::UniformPair(first as u8)
    } else {
        return None;
    };
    Some(Src {
        source,
        hint: Hint::None,
    })
}

#[tactic(auto, unfolding(isa::specs::Operand::source_of))]
fn read_source(wide: bool, v: u64, t: u64) -> Option<Src>
    requires { (v < 256) × (t < 16) }
    ensures { result ≡ source_of wide v t }
{
    let hint = source_hint(t % 4);
    match t / 4 {
        0 => {
            let source = if t % 4 == 0 {
                Source::Immediate(v as u8)
            } else {
                Source::Half(v as u8)
            };
            Some(Src { source, hint })
        }
        1 => read_uniform(wide, v + 256 * (t % 2), t / 2 % 2),
        _ if t % 4 == 0 => None,
        _ if v % 2 == 1 => None,
        2 => Some(Src {
            source: Source::Register((v / 2) as u8),
            hint,
        }),
        _ if wide => Some(Src {
            source: Source::Pair((v / 2) as u8),
            hint,
        }),
        _ => None,
    }
}

// The destination whose two high bits stand at x.
// x is a bit number below 64, given as a literal by each caller: a type for it would be built from each literal.
pub fn destination(wide: bool, w: u64, x: u64) -> Option<Dst>
    requires { x < 64 }
    ensures { result ≡ dst_at wide w x }
{
    read_destination(wide, (w >> x) % 4 * 64 + (w >> 9) % 64, (w >> 7) % 4)
}

// The source whose six low bits stand at lo, its flags after them, and its two high bits at x.
fn source(wide: bool, w: u64, lo: u64, x: u64) -> Option<Src>
    requires { (lo < 58) × (x < 64) }
    ensures { result ≡ src_at wide w lo x }
{
    let t = lo + 6;
    read_source(wide, (w >> x) % 4 * 64 + (w >> lo) % 64, (w >> t) % 16)
}

#[tactic(auto, unfolding(isa::specs::Together::unary))]
pub fn read_unary(wide_d: bool, wide_s: bool, w: u64, x: u64) -> Option<Unary>
    requires { (4 ≤ x) × (x < 64) }
    ensures { result ≡ unary_at wide_d wide_s w x }
{
    let d = destination(wide_d, w, x)?;
    let a = source(wide_s, w, 16, x - 2)?;
    Some(Unary { d, a })
}

#[tactic(auto, unfolding(isa::specs::Together::binary))]
pub fn read_binary(wide_d: bool, wide_s: bool, w: u64, x: u64) -> Option<Binary>
    requires { (4 ≤ x) × (x < 64) }
    ensures { result ≡ binary_at wide_d wide_s w x }
{
    let Unary { d, a } = read_unary(wide_d, wide_s, w, x)?;
    let b = source(wide_s, w, 28, x - 4)?;
    Some(Binary { d, a, b })
}

// Three sources: only D and C can be 64 bits wide.
#[tactic(auto, unfolding(isa::specs::Together::ternary))]
pub fn read_ternary(wide: bool, w: u64) -> Option<Ternary>
    ensures { result ≡ ternary_at wide w }
{
    let Binary { d, a, b } = read_binary(wide, false, w, 60)?;
    let c = source(wide, w, 40, 54)?;
    Some(Ternary { d, a, b, c })
}

#[tactic(auto, unfolding(isa::specs::Together::compared))]
pub fn read_compared(w: u64) -> Option<Compared>
    ensures { result ≡ compared_at w }
{
    let a = source(false, w, 16, 42)?;
    let b = source(false, w, 28, 40)?;
    Some(Compared { a, b })
}
