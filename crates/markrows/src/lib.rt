// Rows of 32 marks, one for each thread: the row of half h begins at byte 32 x h. Each loop looks at all of its marks without a branch, so
// that the compiler can do several at once.
#![tactic(auto)]

ghost use Rattle.std.specs.Prelude.{◌≡◌, ◌+◌, ◌*◌, ◌≤◌, eqb, length};
ghost use Rattle.markrows.specs.Rows.{all_clear, block_marked, row_marked_by, row_set};

// The mask of all threads.
pub const ALL: u32 = u32::MAX;

// The greatest of some marks. It is taken to the end: `all` stops at the first that is set, and does one at a time.
fn greatest(marks: &[u8]) -> u8
    ensures { eqb result 0 ≡ all_clear marks.now }
{
    let mut greatest = 0u8;
    for mark in marks {
        greatest = greatest.max(*mark);
    }
    greatest
}

// Whether no mark is set.
pub fn clear(marks: &[u8]) -> bool
    ensures { result ≡ all_clear marks.now }
{
    greatest(marks) == 0
}

// Whether any thread has any of n halves marked, from h on. Of most instructions none is.
pub fn any(marks: &[u8], h: usize, n: usize) -> bool
    requires { 32 * (h + n) ≤ length marks.now }
    ensures { result ≡ block_marked marks.now h n }
{
    greatest(&marks[32 * h..32 * (h + n)]) != 0
}

// Whether any of some threads, a bit each, has half h marked.
// That the row of half h is lent is asked of each: a type of 32 marks would be built for one call.
pub fn marked_by(marks: &[u8], h: usize, who: u32) -> bool
    requires { 32 * (h + 1) ≤ length marks.now }
    ensures { result ≡ row_marked_by marks.now h who }
{
    let base = 32 * h;
    let mut greatest = 0u8;
    for t in 0..32 {
        greatest = greatest.max(lane::choose(lane::active(who, t), marks[base + t], 0));
    }
    greatest != 0
}

// The marks of half h become v, in some threads.
// h is a half, and not a length beside the marks: its row is the 32 marks from 32 * h on.
pub fn set(marks: &mut [u8], h: usize, who: u32, v: u8)
    requires { 32 * (h + 1) ≤ length marks.old }
    ensures { marks.new ≡ row_set h who v marks.old }
{
    let base = 32 * h;
    for t in 0..32 {
        let i = base + t;
        let old = marks[i];
        marks[i] = lane::choose(lane::active(who, t), v, old);
    }
}

// The marks of half h become v, in all threads.
// All marks are lent, and not the row alone: the clause is of them all.
pub fn fill(marks: &mut [u8], h: usize, v: u8)
    requires { 32 * (h + 1) ≤ length marks.old }
    ensures { marks.new ≡ row_set h 4294967295 v marks.old }
{
    marks[32 * h..32 * (h + 1)].fill(v);
}
