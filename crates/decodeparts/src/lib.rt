// Decoding one instruction from the start of some bytes into its parts. Any slice may be lent; the first
// eight bytes are looked at, at most.
#![tactic(auto)]

ghost use Rattle.std.specs.Prelude.{◌≡◌};
ghost use Rattle.isa.specs.Decode.{decode_of};
ghost use Rattle.decodeparts.specs.Parts.{parts_decoded};

use decode::decode_with;
use isa::answer::Refusal;
use isa::parts::Parts;

// The parts of the instruction with its length in bytes, or the refusal.
pub fn decode_parts(code: &[u8]) -> Result<(Parts, usize), Refusal>
    ensures { result ≡ parts_decoded (decode_of code.now) }
{
    decode_with(code, readparts::read)
}
