// The first field in which two instructions differ. The tests stand in the order of the definition's list.
#![tactic(auto)]

ghost use Rattle.std.specs.Prelude.{◌≡◌};
ghost use Rattle.difference.specs.First.{unless, same_operand, number_for, by_form, by_operands, by_number};
ghost use Rattle.difference.specs.First.{by_signs, by_truth, by_condition, by_fields, by_hints, first_by};

use comparison::Field;
use isa::parts::{Condition, Parts, Signs, Slot, Truth};

// The other fields, by the names that the diagrams have
const SRX_SR: Field = Field::Other(16);

const S: Field = Field::Other(6);

const AS: Field = Field::Other(26);

const N: Field = Field::Other(27);

const BS: Field = Field::Other(38);

const S2_S1: Field = Field::Other(39);

const CS: Field = Field::Other(50);

const M3_M2_M1: Field = Field::Other(38);

const TT0: Field = Field::Other(26);

const TT1: Field = Field::Other(27);

const TT2: Field = Field::Other(38);

const TT3: Field = Field::Other(39);

const OFF: Field = Field::Other(16);

const CCN: Field = Field::Other(8);
// n of the mask instructions
const DEPTH: Field = Field::Other(11);

const CC: Field = Field::Other(13);

// The field, unless the two are the same in it
fn unless(same: bool, field: Field) -> Option<Field>
    ensures { result ≡ unless same field }
{
    if same { None } else { Some(field) }
}

// Whether two operands name the same, whatever their hints are
// Not `==`, which would look at the hint too.
fn same_operand(x: Slot, y: Slot) -> bool
    ensures { result ≡ same_operand x y }
{
    x.kind == y.kind && x.number == y.number
}

// The number of mov16, mov32, get_sr or a jump, where the kind is from `low` to `high`; else 0
// Kinds are the numbers of the byte form, in the order of the diagrams, so that a run of them is two of them.
fn number_for(low: u8, high: u8, p: Parts) -> u32
    ensures { result ≡ number_for low high p }
{
    if low <= p.kind && p.kind <= high {
        p.immediate
    } else {
        0
    }
}

fn by_form(p: Parts, n: usize, q: Parts, m: usize) -> Option<Field>
    ensures { result ≡ by_form p n q m }
{
    unless(p.kind == q.kind, Field::Instruction)
        .or(unless(n == m, Field::Length))
        .or(unless(p.l == q.l, Field::Length))
}

fn by_operands(p: Parts, q: Parts) -> Option<Field>
    ensures { result ≡ by_operands p q }
{
    unless(same_operand(p.d, q.d), Field::Destination)
        .or(unless(same_operand(p.a, q.a), Field::SourceA))
        .or(unless(same_operand(p.b, q.b), Field::SourceB))
        .or(unless(same_operand(p.c, q.c), Field::SourceC))
}

fn by_signs(x: Signs, y: Signs) -> Option<Field>
    ensures { result ≡ by_signs x y }
{
    unless(x.saturate == y.saturate, S)
        .or(unless(x.sa == y.sa, AS))
        .or(unless(x.negate == y.negate, N))
        .or(unless(x.sb == y.sb, BS))
        .or(unless(x.shift == y.shift, S2_S1))
        .or(unless(x.sc == y.sc, CS))
}

fn by_truth(x: Truth, y: Truth) -> Option<Field>
    ensures { result ≡ by_truth x y }
{
    unless(x.tt0 == y.tt0, TT0)
        .or(unless(x.tt1 == y.tt1, TT1))
        .or(unless(x.tt2 == y.tt2, TT2))
        .or(unless(x.tt3 == y.tt3, TT3))
}

fn by_condition(x: Condition, y: Condition) -> Option<Field>
    ensures { result ≡ by_condition x y }
{
    unless(x.ccn == y.ccn, CCN)
        .or(unless(x.n == y.n, DEPTH))
        .or(unless(x.cc == y.cc, CC))
}

fn by_number(low: u8, high: u8, p: Parts, q: Parts, field: Field) -> Option<Field>
    ensures { result ≡ by_number low high p q field }
{
    unless(number_for(low, high, p) == number_for(low, high, q), field)
}

fn by_fields(p: Parts, q: Parts) -> Option<Field>
    ensures { result ≡ by_fields p q }
{
    by_number(1, 1, p, q, Field::Immediate)
        .or(by_number(2, 2, p, q, Field::Immediate))
        .or(by_number(3, 3, p, q, SRX_SR))
        .or(by_signs(p.signs, q.signs))
        .or(unless(p.m == q.m, M3_M2_M1))
        .or(by_truth(p.truth, q.truth))
        .or(by_number(17, 18, p, q, OFF))
        .or(by_condition(p.condition, q.condition))
}

fn by_hints(p: Parts, q: Parts) -> Option<Field>
    ensures { result ≡ by_hints p q }
{
    unless(p.d.hint == q.d.hint, Field::Hint)
        .or(unless(p.a.hint == q.a.hint, Field::Hint))
        .or(unless(p.b.hint == q.b.hint, Field::Hint))
        .or(unless(p.c.hint == q.c.hint, Field::Hint))
}

// Of an instruction of n bytes and one of m bytes, by their parts
pub fn first(p: Parts, n: usize, q: Parts, m: usize) -> Option<Field>
    ensures { result ≡ first_by p n q m }
{
    by_form(p, n, q, m)
        .or(by_operands(p, q))
        .or(by_fields(p, q))
        .or(by_hints(p, q))
        .or(unless(p.kept == q.kept, Field::Bit))
}
