// What the exported functions return: how many bytes, or minus the number of a refusal.
ghost use Rattle.std.specs.Prelude.{◌≡◌, ◌≤◌, pos};
ghost use Rattle.answers.specs.Encoded.{count_of};
ghost use Rattle.answers.specs.Returned.{refused_by, encoded_by, ended_by};

use isa::answer::Refusal;
use machine::answer::Ending;

// `as` and not try_from, whose error could not come: n is at most 8.
pub fn count(n: usize) -> i32
    requires { n ≤ 8 }
    ensures { result ≡ pos n }
{
    n as i32
}

pub fn refused(r: Refusal) -> i32
    ensures { result ≡ refused_by r }
{
    -i32::from(isa::answer::number(r))
}

pub fn encoded(e: Result<usize, Refusal>) -> i32
    requires { count_of e ≤ 8 }
    ensures { result ≡ encoded_by e }
{
    match e {
        Ok(n) => count(n),
        Err(r) => refused(r),
    }
}

pub fn ended(e: Ending) -> i32
    ensures { result ≡ ended_by e }
{
    match e {
        Ending::Finished => 0,
        Ending::Spent => 0,
        Ending::Refused(r) => refused(r),
    }
}
