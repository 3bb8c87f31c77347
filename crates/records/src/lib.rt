// The record of a step.
#![tactic(auto)]

ghost use Rattle.std.specs.Prelude.{◌≡◌};
ghost use Rattle.machine.specs.Record.{record_bytes};

// The class is its number, as in the definition `record_bytes`: record is called with any.
pub fn record(address: usize, bytes: usize, class: u8, before: u32, after: u32) -> [u8; 16]
    ensures { result ≡ record_bytes address bytes class before after }
{
    let at = address.to_le_bytes();
    let size = bytes.to_le_bytes();
    let b = before.to_le_bytes();
    let a = after.to_le_bytes();
    [
        at[0], at[1], size[0], class, b[0], b[1], b[2], b[3], a[0], a[1], a[2], a[3], 0, 0, 0, 0,
    ]
}
