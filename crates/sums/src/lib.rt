// iadd and imadd of one thread's values, modulo 2^64.
#![tactic(auto)]

mod flags;
mod limits;
mod product;
mod term;

ghost use Rattle.std.specs.Prelude.{◌≡◌, ℕ, ◌^◌, ◌<◌};
ghost use Rattle.machine.specs.Integer.{modulo};
ghost use Rattle.machine.specs.Meaning as meaning;
ghost use Rattle.operations.specs.Operation.{SizedBy, ValuesWithin, sum_of};
ghost use Rattle.operations.specs.declared.Operation.{Operation};

use crate::flags::{saturating, signed};
use crate::limits::limited;
use crate::product::product;
use crate::term::term;
use operations::Sum;
use signs::extend;

// Its meaning does not look at a third operand.
pub fn iadd(o: Sum, a: u64, b: u64) -> u64
    requires { SizedBy (Operation.Iadd o) × (a < 2 ^ o.asize) × (b < 2 ^ o.bsize) }
    ensures { (c : ℕ) → result ≡ modulo (meaning.iadd (sum_of o) a b c) 64 }
{
    let x = extend(a, o.asigned, o.asize);
    let y = extend(b, o.bsigned, o.bsize);
    let sum = x.wrapping_add(term(y, o.negate, o.shift));
    if saturating(o.saturate, o.shift, o.asize, o.bsize, o.dsize) {
        limited(sum, o.dsize, signed(0, o.asigned, o.bsigned))
    } else {
        sum
    }
}

// Where the sum is limited to 32 bits at most, the product may be cut short at 2^40, so that the sum is exact.
pub fn imadd(o: Sum, a: u64, b: u64, c: u64) -> u64
    requires { SizedBy (Operation.Imadd o) × ValuesWithin (Operation.Imadd o) a b c }
    ensures { result ≡ modulo (meaning.imadd (sum_of o) a b c) 64 }
{
    let x = extend(a, o.asigned, o.asize);
    let y = extend(b, o.bsigned, o.bsize);
    let z = extend(c, o.csigned, o.csize);
    let t = term(z, o.negate, o.shift);
    if saturating(o.saturate, o.shift, 0, o.csize, o.dsize) {
        let sum = product(x, y, 1099511627776).wrapping_add(t);
        limited(sum, o.dsize, signed(o.asigned, o.bsigned, o.csigned))
    } else {
        product(x, y, u64::MAX).wrapping_add(t)
    }
}
