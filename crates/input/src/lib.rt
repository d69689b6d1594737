// An input, read to its end.
#![tactic(auto)]

ghost use Rattle.std.specs.Prelude.{length};
ghost use Rattle.input.specs.Reading.{AtMost, Takes};

use std::io;
use std::io::Read;

// Reads until the input ends or `buf` is full, whatever sizes the pipe delivers.
pub fn read_all<R: Read>(reader: &mut R, buf: &mut [u8]) -> io::Result<usize>
    ensures most { AtMost result (length buf.new) }
    ensures bytes { Takes (R.remaining reader.old) (R.remaining reader.new) result buf.new }
{
    let mut n: usize = 0;
    // no `for`: a step is what the pipe gave
    while n < buf.len() {
        let more = reader.read(&mut buf[n..])?;
        if more == 0 {
            break;
        }
        n += more;
    }
    Ok(n)
}

#[cfg(test)]
mod tests {
    use super::*;
    use std::test::Fail;

    // Gives a byte and then fails.
    #[derive(Drop)]
    struct Broken {
        given: bool,
    }

    impl Read for Broken {
        fn read(&mut self, buf: &mut [u8]) -> io::Result<usize> {
            if self.given || buf.is_empty() {
                return Err(io::Error::other("gone"));
            }
            self.given = true;
            buf[0] = 7;
            Ok(1)
        }
    }

    #[test]
    fn to_the_end(rt: HostRuntime) -> Result<(), Fail> {
        let mut reader: &[u8] = b"three";
        let mut buf = [0u8; 8];
        let n = read_all(&mut reader, &mut buf)?;
        assert_eq!(rt; n, 5);
        assert_eq!(rt; &buf[..5], b"three".as_slice());
        Ok(())
    }

    #[test]
    fn until_it_fails(rt: HostRuntime) {
        let mut buf = [0u8; 8];
        let failed = read_all(&mut Broken { given: false }, &mut buf).is_err();
        assert!(rt; failed);
    }
}
