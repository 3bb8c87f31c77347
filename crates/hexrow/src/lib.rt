// A row of Intel HEX, read at a place of a text.
#![tactic(auto)]

ghost use Rattle.std.specs.Prelude.{◌≡◌, ◌≤◌, length, drop};
ghost use Rattle.hexpairs.specs.Reads.{counted};
ghost use Rattle.hexrow.specs.Reads.{size_by, row_at};

mod says;

// Why a row is refused. specs/Row.antt has the number of each.
#[derive(Clone, Copy, PartialEq, Eq)]
pub enum Fault {
    Form,
    Sum,
    Order,
}

// What a row says: how many bytes of the kernel it has; or that the kernel ends. Its size is its number of characters.
#[derive(Clone, Copy, PartialEq, Eq)]
pub enum Row {
    Data { count: usize, size: usize },
    End { size: usize },
}

// The number of characters of the row at a place, by its colon, its count and its end.
fn size_at(text: &[u8], at: usize) -> Option<usize>
    requires { at ≤ length text.now }
    ensures { result ≡ counted (size_by (drop at text.now)) }
{
    if text.len() - at < 11 || text[at] != b':' {
        return None;
    }
    let body = 2 * hexpairs::pair_at(text, at + 1)? as usize + 11;
    let end = hexpairs::end_size(text, at + body)?;
    Some(body + end)
}

// What the row at a place says, where the next byte of the kernel has the address next.
pub fn row_at(text: &[u8], at: usize, next: usize) -> Result<Row, Fault>
    requires { at ≤ length text.now }
    ensures { result ≡ row_at next (drop at text.now) }
{
    let size = size_at(text, at).ok_or(Fault::Form)?;
    let count = hexpairs::pair_at(text, at + 1).ok_or(Fault::Form)?;
    let sum = hexpairs::sum(text, at + 1, count as usize + 5).ok_or(Fault::Form)?;
    if sum != 0 {
        return Err(Fault::Sum);
    }
    // count, address, type
    let mut head = [0; 4];
    hexpairs::put(&mut head, 0, text, at + 1, 4);
    let address = 256 * head[1] as usize + head[2] as usize;
    says::says(head[3] as usize, address, count as usize, next, size)
}
