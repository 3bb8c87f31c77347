// The byte form of an instruction: 48 bytes for callers in other languages. docs/byte-form.md has the layout.
#![tactic(auto)]

ghost use Rattle.std.specs.Prelude.{◌≡◌, Some};
ghost use Rattle.form.specs.Form.{lay_out, form_of, spelled_of};

use formread::instruction_from;
use isa::instruction::Instruction;
use isa::parts::Parts;
use layout::lay_out;
use lengths::length_of;
use parts::parts_of;

// The byte form, from which every instruction is read back.
pub fn to_bytes(i: Instruction) -> [u8; 48]
    ensures { (result ≡ form_of i) × (spelled_of result ≡ Some i) }
{
    of_parts(parts_of(i))
}

// The 48 bytes of these parts.
pub fn of_parts(p: Parts) -> [u8; 48]
    ensures { result ≡ lay_out p }
{
    let n = length_of(p);
    lay_out(p, n as u8)
}

// The instruction that bytes spell: they must be its byte form, and nothing else.
pub fn from_bytes(b: &[u8]) -> Option<Instruction>
    ensures { result ≡ spelled_of b.now }
{
    let form = <&[u8; 48]>::try_from(b).ok()?;
    let kind = form[0];
    if kind == 0 || 22 < kind {
        return None;
    }
    let i = instruction_from(kind, form);
    if to_bytes(i) == *form { Some(i) } else { None }
}
