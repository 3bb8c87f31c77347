// Laying out the parts of an instruction as bytes.
#![tactic(auto)]

ghost use Rattle.std.specs.Prelude.{◌≡◌};
ghost use Rattle.layout.specs.Lay.{lay_with};

use isa::parts::Parts;

// The 48 bytes in the order of docs/byte-form.md; n is the length of the encoding.
pub fn lay_out(p: Parts, n: u8) -> [u8; 48]
    ensures { result ≡ lay_with p n }
{
    let d = p.d.number.to_le_bytes();
    let a = p.a.number.to_le_bytes();
    let b = p.b.number.to_le_bytes();
    let c = p.c.number.to_le_bytes();
    let immediate = p.immediate.to_le_bytes();
    let kept = p.kept.to_le_bytes();
    [
        // 0: kind, length, l, m
        p.kind,
        n,
        p.l,
        p.m,
        // 4: d, a, b, c
        p.d.kind,
        p.d.hint,
        d[0],
        d[1],
        p.a.kind,
        p.a.hint,
        a[0],
        a[1],
        p.b.kind,
        p.b.hint,
        b[0],
        b[1],
        p.c.kind,
        p.c.hint,
        c[0],
        c[1],
        // 20: immediate
        immediate[0],
        immediate[1],
        immediate[2],
        immediate[3],
        // 24: saturate, negate, the signs of a, b, c, shift
        p.signs.saturate,
        p.signs.negate,
        p.signs.sa,
        p.signs.sb,
        p.signs.sc,
        p.signs.shift,
        // 30: the truth table
        p.truth.tt0,
        p.truth.tt1,
        p.truth.tt2,
        p.truth.tt3,
        // 34: cc, ccn, n, and three reserved bytes
        p.condition.cc,
        p.condition.ccn,
        p.condition.n,
        0,
        0,
        0,
        // 40: kept
        kept[0],
        kept[1],
        kept[2],
        kept[3],
        kept[4],
        kept[5],
        kept[6],
        kept[7],
    ]
}
