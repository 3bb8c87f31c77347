// Nested execution masks: conditions, and what pop_exec, if_icmp, while_icmp and else_icmp make of one thread's r0l, modulo 2^64.
#![tactic(auto)]

ghost use Rattle.std.specs.Prelude.{◌≡◌, ℕ, ◌^◌, ◌<◌, not, pos, if◌then◌else◌};
ghost use Rattle.machine.specs.Integer.{modulo};
ghost use Rattle.machine.specs.Meaning as meaning;
ghost use Rattle.operations.specs.Operation.{condition_of, Sized, SizedBy, ValuesWithin};
ghost use Rattle.operations.specs.declared.Operation.{Operation};
ghost use Rattle.nesting.specs.Rank.{rank_of};

use operations::Test;
use signs::extend;

// Where a value stands in the order of all words.
fn rank(x: u64, signed: u8, size: u8) -> u64
    requires { Sized size }
    ensures { result ≡ rank_of signed size x }
{
    let word = extend(x, signed, size);
    if signed == 1 {
        word.wrapping_add(9223372036854775808)
    } else {
        word
    }
}

// The relation is two bits of cc, which is a number as the diagram has it.
fn compared(relation: u8, x: u64, y: u64) -> bool
    ensures { result ≡ meaning.compared relation (pos x) (pos y) }
{
    match relation {
        0 => x == y,
        1 => x < y,
        _ => y < x,
    }
}

fn turned(ccn: u8, answer: bool) -> bool
    ensures { result ≡ (if meaning.is_set ccn then not answer else answer) }
{
    if ccn == 1 { !answer } else { answer }
}

pub fn holds(o: Test, a: u64, b: u64) -> bool
    requires { Sized o.asize × Sized o.bsize × (a < 2 ^ o.asize) × (b < 2 ^ o.bsize) }
    ensures { result ≡ meaning.holds (condition_of o) a b }
{
    let signed = o.cc / 4;
    let x = rank(a, signed, o.asize);
    let y = rank(b, signed, o.bsize);
    turned(o.ccn, compared(o.cc % 4, x, y))
}

pub fn pop_exec(n: u8, v: u64) -> u64
    ensures { (a b : ℕ) → result ≡ modulo (meaning.pop_exec n a b v) 64 }
{
    v.saturating_sub(u64::from(n))
}

// o, a, b and v as in the definitions: a struct of them would name nothing.
pub fn if_icmp(o: Test, a: u64, b: u64, v: u64) -> u64
    requires { SizedBy (Operation.IfIcmp o) × ValuesWithin (Operation.IfIcmp o) a b v }
    ensures { result ≡ modulo (meaning.if_icmp (condition_of o) o.n a b v) 64 }
{
    if v != 0 {
        v + u64::from(o.n)
    } else if holds(o, a, b) {
        v
    } else {
        1
    }
}

pub fn while_icmp(o: Test, a: u64, b: u64, v: u64) -> u64
    requires { SizedBy (Operation.WhileIcmp o) × ValuesWithin (Operation.WhileIcmp o) a b v }
    ensures { result ≡ modulo (meaning.while_icmp (condition_of o) o.n a b v) 64 }
{
    let n = u64::from(o.n);
    if v < n {
        if holds(o, a, b) { 0 } else { n }
    } else {
        v
    }
}

// `if` and no `match`: v is the number in r0l, and no kind.
pub fn else_icmp(o: Test, a: u64, b: u64, v: u64) -> u64
    requires { SizedBy (Operation.ElseIcmp o) × ValuesWithin (Operation.ElseIcmp o) a b v }
    ensures { result ≡ modulo (meaning.else_icmp (condition_of o) o.n a b v) 64 }
{
    if v == 0 {
        u64::from(o.n)
    } else if v == 1 {
        if holds(o, a, b) { 0 } else { 1 }
    } else {
        v
    }
}
