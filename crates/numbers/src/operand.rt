// An operand as a slot: its kind, its hint and its number. Kinds and hints are the numbers of docs/byte-form.md, which callers in C read.
ghost use Rattle.std.specs.Prelude.{◌≡◌};
ghost use Rattle.isa.specs.Parts.{hint_number, slot, destination_slot, source_slot, dst_slot, src_slot, hint_slot};

use isa::operand::{Destination, Dst, Hint, Source, Src};
use isa::parts::Slot;

fn hint_number(h: Hint) -> u8
    ensures { result ≡ hint_number h }
{
    match h {
        Hint::None => 0,
        Hint::Cache => 1,
        Hint::Discard => 2,
    }
}

fn slot(kind: u8, hint: u8, number: u16) -> Slot
    ensures { result ≡ slot kind hint number }
{
    Slot { kind, hint, number }
}

fn destination_slot(x: Destination, h: u8) -> Slot
    ensures { result ≡ destination_slot x h }
{
    match x {
        Destination::Half(n) => slot(1, h, u16::from(n)),
        Destination::Register(n) => slot(2, h, u16::from(n)),
        Destination::Pair(n) => slot(3, h, u16::from(n)),
    }
}

fn source_slot(x: Source, h: u8) -> Slot
    ensures { result ≡ source_slot x h }
{
    match x {
        Source::Half(n) => slot(1, h, u16::from(n)),
        Source::Register(n) => slot(2, h, u16::from(n)),
        Source::Pair(n) => slot(3, h, u16::from(n)),
        Source::UniformHalf(n) => slot(4, h, n),
        Source::UniformRegister(n) => slot(5, h, u16::from(n)),
        Source::UniformPair(n) => slot(6, h, u16::from(n)),
        Source::Immediate(n) => slot(7, h, u16::from(n)),
    }
}

// Beside src_slot: a destination and a source are two types with cases of their own, so one function would take what makes the slot.
pub fn dst_slot(d: Dst) -> Slot
    ensures { result ≡ dst_slot d }
{
    destination_slot(d.destination, hint_number(d.hint))
}

pub fn src_slot(s: Src) -> Slot
    ensures { result ≡ src_slot s }
{
    source_slot(s.source, hint_number(s.hint))
}

// No operand, but the hint of r0l
pub fn hint_slot(h: Hint) -> Slot
    ensures { result ≡ hint_slot h }
{
    slot(0, hint_number(h), 0)
}
