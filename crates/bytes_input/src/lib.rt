// Reading until a buffer is full, from an input that may be shorter than the buffer.
#![tactic(auto)]

ghost use Rattle.std.specs.Prelude.{◌≤◌, ◌<◌, length, take, IfOk};
ghost use Rattle.std.specs.Io.KnownBytes.{Consumes, IsAtEnd};

use std::io;
use std::io::Read;

// Reads until the buffer is full or the input ends, and answers how many bytes it put at the buffer's front. A read that fails gives its error.
pub fn read_full<R: Read>(reader: &mut R, buf: &mut [u8]) -> io::Result<usize>
    ensures within { IfOk result (λ n. n ≤ length buf.new) }
    ensures bytes { IfOk result (λ n. Consumes (R.remaining reader.old) (R.remaining reader.new) (take n buf.new)) }
    ensures end { IfOk result (λ n. n < length buf.new → IsAtEnd (R.remaining reader.new)) }
{
    let mut done = 0;
    // A read gives as many bytes as it likes, so no range has these positions.
    while done < buf.len() {
        let n = reader.read(&mut buf[done..])?;
        if n == 0 {
            break;
        }
        done += n;
    }
    Ok(done)
}

#[cfg(test)]
mod tests {
    use super::*;
    use std::io::{Error, ErrorKind};
    use std::test::Fail;

    // Gives the byte 7 three times, one for each read, and fails then.
    #[derive(Drop)]
    struct Breaking {
        left: u8,
    }

    impl Read for Breaking {
        fn read(&mut self, buf: &mut [u8]) -> io::Result<usize> {
            if self.left == 0 {
                return Err(Error::new(ErrorKind::TimedOut, "no more"));
            }
            if buf.len() == 0 {
                return Ok(0);
            }
            buf[0] = 7;
            self.left -= 1;
            Ok(1)
        }
    }

    #[test]
    fn a_short_input_leaves_the_rest(rt: HostRuntime) -> Result<(), Fail> {
        let mut input: &[u8] = b"abc";
        let mut buf = [0u8; 5];
        assert_eq!(rt; read_full(&mut input, &mut buf)?, 3);
        assert_eq!(rt; buf, [97, 98, 99, 0, 0]);
        Ok(())
    }

    #[test]
    fn a_long_input_fills_the_buffer(rt: HostRuntime) -> Result<(), Fail> {
        let mut input: &[u8] = b"abcdef";
        let mut buf = [0u8; 4];
        assert_eq!(rt; read_full(&mut input, &mut buf)?, 4);
        assert_eq!(rt; buf, [97, 98, 99, 100]);
        assert_eq!(rt; read_full(&mut input, &mut buf)?, 2);
        Ok(())
    }

    #[test]
    fn reads_of_one_byte_fill_the_buffer(rt: HostRuntime) -> Result<(), Fail> {
        let mut buf = [0u8; 3];
        assert_eq!(rt; read_full(&mut Breaking { left: 3 }, &mut buf)?, 3);
        assert_eq!(rt; buf, [7, 7, 7]);
        Ok(())
    }

    #[test]
    fn a_read_that_fails_is_an_error(rt: HostRuntime) {
        let mut buf = [0u8; 4];
        assert!(rt; read_full(&mut Breaking { left: 3 }, &mut buf).is_err());
    }
}
