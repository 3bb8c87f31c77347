// The parts of an instruction, one function for each layout. `kind` is the number of the instruction in docs/byte-form.md, which callers in
// C read, so it is a number here.
ghost use Rattle.std.specs.Prelude.{◌≡◌};
ghost use Rattle.isa.specs.Parts.{no_slot, no_signs, no_truth, no_condition, parts};
ghost use Rattle.isa.specs.Parts.{of_dst, of_unary, of_binary, of_ternary, of_jump, of_pop, of_compare, of_bitfield, of_shift, of_scan};

use crate::operand::{dst_slot, hint_slot, src_slot};
use isa::instruction::{Bitfield, Compare, Scan, Shift};
use isa::operand::{Binary, Dst, Hint, Ternary, Unary};
use isa::parts::{Condition, Parts, Signs, Slot, Truth};

pub fn no_signs() -> Signs
    ensures { result ≡ no_signs }
{
    Signs {
        saturate: 0,
        negate: 0,
        sa: 0,
        sb: 0,
        sc: 0,
        shift: 0,
    }
}

pub fn no_truth() -> Truth
    ensures { result ≡ no_truth }
{
    Truth {
        tt0: 0,
        tt1: 0,
        tt2: 0,
        tt3: 0,
    }
}

// Nothing but the kind and the kept bits
fn bare(kind: u8, kept: u64) -> Parts
    ensures { result ≡ parts kind no_slot no_slot no_slot no_slot 0 0 0 no_signs no_truth no_condition kept }
{
    let none = Slot {
        kind: 0,
        hint: 0,
        number: 0,
    };
    Parts {
        kind,
        d: none,
        a: none,
        b: none,
        c: none,
        immediate: 0,
        l: 0,
        m: 0,
        signs: no_signs(),
        truth: no_truth(),
        condition: Condition {
            cc: 0,
            ccn: 0,
            n: 0,
        },
        kept,
    }
}

pub fn of_dst(kind: u8, d: Dst, immediate: u32, l: u8, kept: u64) -> Parts
    ensures { result ≡ of_dst kind d immediate l kept }
{
    Parts {
        d: dst_slot(d),
        immediate,
        l,
        ..bare(kind, kept)
    }
}

fn of_unary(kind: u8, o: Unary, kept: u64) -> Parts
    ensures { result ≡ of_unary kind o kept }
{
    Parts {
        d: dst_slot(o.d),
        a: src_slot(o.a),
        ..bare(kind, kept)
    }
}

pub fn of_binary(kind: u8, o: Binary, signs: Signs, truth: Truth, kept: u64) -> Parts
    ensures { result ≡ of_binary kind o signs truth kept }
{
    Parts {
        d: dst_slot(o.d),
        a: src_slot(o.a),
        b: src_slot(o.b),
        signs,
        truth,
        ..bare(kind, kept)
    }
}

pub fn of_ternary(kind: u8, o: Ternary, m: u8, signs: Signs, kept: u64) -> Parts
    ensures { result ≡ of_ternary kind o m signs kept }
{
    Parts {
        d: dst_slot(o.d),
        a: src_slot(o.a),
        b: src_slot(o.b),
        c: src_slot(o.c),
        m,
        signs,
        ..bare(kind, kept)
    }
}

pub fn of_jump(kind: u8, off: u32) -> Parts
    ensures { result ≡ of_jump kind off }
{
    Parts {
        immediate: off,
        ..bare(kind, 0)
    }
}

pub fn of_pop(kind: u8, h: Hint, n: u8, kept: u64) -> Parts
    ensures { result ≡ of_pop kind h n kept }
{
    Parts {
        d: hint_slot(h),
        condition: Condition { cc: 0, ccn: 0, n },
        ..bare(kind, kept)
    }
}

pub fn of_compare(kind: u8, x: Compare) -> Parts
    ensures { result ≡ of_compare kind x }
{
    Parts {
        d: hint_slot(x.hint),
        a: src_slot(x.operands.a),
        b: src_slot(x.operands.b),
        condition: Condition {
            cc: x.cc,
            ccn: x.ccn,
            n: x.n,
        },
        ..bare(kind, x.kept)
    }
}

pub fn of_bitfield(kind: u8, x: Bitfield) -> Parts
    ensures { result ≡ of_bitfield kind x }
{
    of_ternary(kind, x.operands, x.m, no_signs(), x.kept)
}

pub fn of_shift(kind: u8, x: Shift) -> Parts
    ensures { result ≡ of_shift kind x }
{
    of_binary(kind, x.operands, no_signs(), no_truth(), x.kept)
}

pub fn of_scan(kind: u8, x: Scan) -> Parts
    ensures { result ≡ of_scan kind x }
{
    of_unary(kind, x.operands, x.kept)
}
