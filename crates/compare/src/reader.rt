// A reader carries the code that it was lent and its place in it. Its functions are thin.
ghost use Rattle.std.specs.Prelude.{◌≡◌, ◌+◌, ◌<◌, ◌^◌};
ghost use Rattle.compare.specs.Here.{here_at};

use decodeparts::decode_parts;
use turns::Here;

#[derive(Clone, Copy)]
pub struct Reader<'a> {
    pub code: &'a [u8],
    pub address: usize,
}

impl<'a> Reader<'a> {
    // At the start of the code
    pub fn new(code: &'a [u8]) -> Reader<'a>
        ensures { (result.code ≡ code.entry) × (result.address ≡ 0) }
    {
        Reader { code, address: 0 }
    }

    // What stands at its place: nothing at the end of the code or past it
    pub fn here(self) -> Here
        ensures { result ≡ here_at self.entry.code.now self.entry.address }
    {
        if self.code.len() <= self.address {
            return Ok(None);
        }
        Ok(Some(decode_parts(&self.code[self.address..])?))
    }

    // So many bytes further on
    pub fn after(self, n: usize) -> Reader<'a>
        requires { self.address + n < 2 ^ 64 }
        ensures { (result.code ≡ self.entry.code) × (result.address ≡ self.entry.address + n) }
    {
        Reader {
            code: self.code,
            address: self.address + n,
        }
    }
}
