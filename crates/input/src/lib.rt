// Reading an open file, for the programs.
#![tactic(auto)]

ghost use Rattle.std.specs.Prelude.{◌≡◌, ◌<◌, IfSome, length, take};
ghost use Rattle.input.specs.Counts.{IsPrefixLen};

use std::io::Read;

// Reads to the end of the file, or until the buffer is full, and answers how many bytes there are; where a read fails, as many
// as the buffer holds. So fewer than the buffer holds are all that the file had.
pub fn read_all<R: Read>(file: &mut R, buffer: &mut [u8]) -> usize
    ensures prefix_len { IsPrefixLen result buffer.new }
    ensures whole { result < length buffer.new → IfSome (R.remaining file.old) (λ xs. take result buffer.new ≡ xs) }
{
    let mut n = 0;
    // A `while`: it goes on by as much as each read gives, which no range or iterator knows.
    while n < buffer.len() {
        match file.read(&mut buffer[n..]) {
            Ok(0) => return n,
            Ok(more) => n += more,
            Err(_) => return buffer.len(),
        }
    }
    n
}

#[cfg(test)]
mod tests {
    use super::*;
    use std::io;

    // Gives a byte in each of so many reads, and then fails.
    #[derive(Drop)]
    struct Failing {
        left: u8,
    }

    impl Read for Failing {
        fn read(&mut self, buffer: &mut [u8]) -> io::Result<usize> {
            if buffer.is_empty() {
                return Ok(0);
            }
            if self.left == 0 {
                return Err(io::Error::other("the end is not known"));
            }
            self.left -= 1;
            buffer[0] = b'x';
            Ok(1)
        }
    }

    #[test]
    fn to_the_end_or_a_full_buffer(rt: HostRuntime) {
        let mut buffer = [0u8; 4];
        let mut file: &[u8] = b"abc";
        assert_eq!(rt; read_all(&mut file, &mut buffer), 3);
        assert!(rt; buffer == *b"abc\0");
        let mut longer: &[u8] = b"defghi";
        assert_eq!(rt; read_all(&mut longer, &mut buffer), 4);
        assert!(rt; buffer == *b"defg");
        assert!(rt; longer == b"hi".as_slice());
    }

    #[test]
    fn a_failed_read_counts_as_a_full_buffer(rt: HostRuntime) {
        let mut buffer = [0u8; 4];
        let mut file = Failing { left: 2 };
        assert_eq!(rt; read_all(&mut file, &mut buffer), 4);
        assert!(rt; buffer == *b"xx\0\0");
    }
}
