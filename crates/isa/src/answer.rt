// The refusals of finding, decoding, encoding and runs, with their numbers.
ghost use Rattle.std.specs.Prelude.{◌≡◌};
ghost use Rattle.isa.specs.Refusal.{number_of};

// Why a call is refused. specs/Refusal.antt has the number of each.
#[derive(Clone, Copy)]
pub enum Refusal {
    BadSize,
    CutShort,
    NoDiagram,
    NoMeaning,
    NoRegister,
    NoSpecial,
    BadTarget,
    NoEncoding,
    ShortBuffer,
    Discarded,
}

// Not From<Refusal> for u8: `u8::from(r)` would not say which number it is.
pub fn number(r: Refusal) -> u8
    ensures { result ≡ number_of r }
{
    match r {
        Refusal::BadSize => 1,
        Refusal::CutShort => 2,
        Refusal::NoDiagram => 3,
        Refusal::NoMeaning => 4,
        Refusal::NoRegister => 5,
        Refusal::NoSpecial => 6,
        Refusal::BadTarget => 7,
        Refusal::NoEncoding => 8,
        Refusal::ShortBuffer => 9,
        Refusal::Discarded => 10,
    }
}
