// One computation for all threads.
ghost use Rattle.std.specs.Prelude.{length};
ghost use Rattle.alu.specs.Results.{OfEach, IntoEach};

// What f computes of each thread's three values. It is never inlined: in a function of its own the loop has f by value, so that the
// compiler sees that nothing but the row is written, and does several threads at once.
#[inline(never)]
pub fn each<F: Fn(u64, u64, u64) -> u64>(f: F, sources: &[[u64; 32]; 3], out: &mut [u64; 32])
    requires { OfEach (F.pre f) sources.now }
    ensures { IntoEach (F.post f) sources.now out.new }
{
    let a = &sources[0];
    let b = &sources[1];
    let c = &sources[2];
    for t in 0..32 {
        out[t] = f(a[t], b[t], c[t]);
    }
}
