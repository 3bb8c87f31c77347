// The numbers and the flags of operands, as the fields of a word hold them.
#![tactic(auto)]

ghost use Rattle.std.specs.Prelude.{◌≡◌, ◌<◌};
ghost use Rattle.encoding.specs.Flags.{dst_numbers, src_numbers, cache_bit, dst_number, dst_flags, hint_bits, src_number, src_flags};

use encoding::Numbers;
use isa::operand::{Destination, Dst, Hint, Source, Src};

// What goes into the one bit of a destination, where Discard has no place: 2 does not fit. The numbers of the byte form are the same by chance.
pub fn cache_bit(h: Hint) -> u64
    ensures { (result ≡ cache_bit h) × (result < 3) }
{
    match h {
        Hint::None => 0,
        Hint::Cache => 1,
        Hint::Discard => 2,
    }
}

fn destination_number(d: Destination) -> u64
    ensures { result ≡ dst_number d }
{
    match d {
        Destination::Half(x) => u64::from(x),
        Destination::Register(r) => 2 * u64::from(r),
        Destination::Pair(r) => 2 * u64::from(r) + 1,
    }
}

// By the document, where two cases have one number: no order of the cases gives it.
fn destination_flags(d: Destination) -> u64
    ensures { (result ≡ dst_flags d) × (result < 3) }
{
    match d {
        Destination::Half(_) => 0,
        Destination::Register(_) => 2,
        Destination::Pair(_) => 2,
    }
}

fn hint_bits(h: Hint) -> u64
    ensures { (result ≡ hint_bits h) × (result < 4) }
{
    match h {
        Hint::None => 1,
        Hint::Cache => 2,
        Hint::Discard => 3,
    }
}

fn source_number(s: Source) -> u64
    ensures { result ≡ src_number s }
{
    match s {
        Source::Half(x) => u64::from(x),
        Source::Register(r) => 2 * u64::from(r),
        Source::Pair(r) => 2 * u64::from(r),
        Source::UniformHalf(x) => u64::from(x) % 256,
        Source::UniformRegister(r) => 2 * u64::from(r) % 256,
        Source::UniformPair(r) => (2 * u64::from(r) + 1) % 256,
        Source::Immediate(x) => u64::from(x),
    }
}

fn source_flags(s: Source, h: Hint) -> u64
    ensures { result ≡ src_flags s h }
{
    match s {
        Source::Half(_) => hint_bits(h),
        Source::Register(_) => 8 + hint_bits(h),
        Source::Pair(_) => 12 + hint_bits(h),
        Source::UniformHalf(x) => 4 + u64::from(x) / 256,
        Source::UniformRegister(r) => 6 + 2 * u64::from(r) / 256,
        Source::UniformPair(r) => 6 + (2 * u64::from(r) + 1) / 256,
        Source::Immediate(_) => 0,
    }
}

// Functions and no `From`: that would have to stand in isa or in encoding, and the flags with it.
pub fn of_dst(x: Dst) -> Numbers
    ensures { result ≡ dst_numbers x }
{
    Numbers {
        v: destination_number(x.destination),
        t: destination_flags(x.destination) + cache_bit(x.hint),
    }
}

pub fn of_src(x: Src) -> Numbers
    ensures { result ≡ src_numbers x }
{
    Numbers {
        v: source_number(x.source),
        t: source_flags(x.source, x.hint),
    }
}
