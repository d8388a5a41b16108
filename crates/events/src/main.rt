// The event program: reads frames from standard input, one hexadecimal line each, and prints their answers, one line each.
#![tactic(auto)]

ghost use Rattle.std.specs.Prelude.{OnOk, IfSome};
ghost use Rattle.std.specs.Io.KnownBytes.{Appends};
ghost use Rattle.rules.specs.Desk.{program};

use kinds::limits::{BLOCKS_BYTES, BUFFERS_BYTES};
use segment::layout::SEGMENT_BYTES;
use serving::{Unserved, serve};
use std::io::{Read, Write};

// Answers the frames of the input on a fresh desk. Where all of it was read and answered, what was printed is what document 01 says.
fn answer<I: Read, O: Write, E: Write>(
    input: &mut I,
    output: &mut O,
    errors: &mut E,
) -> Result<(), Unserved>
    ensures { OnOk result (IfSome (I.remaining input.old) (λ text. Appends (O.contents output.old) (O.contents output.new) (program text))) }
{
    let mut segment = [0u8; SEGMENT_BYTES];
    let mut blocks = [0u8; BLOCKS_BYTES];
    let mut buffers = [0u8; BUFFERS_BYTES];
    let _ = fresh::fresh(&mut segment, &mut blocks, &mut buffers);
    serve(
        input,
        output,
        errors,
        &mut segment,
        &mut blocks,
        &mut buffers,
        true,
    )
}

fn main(rt: HostRuntime) {
    let _ = answer(&mut rt.stdin(), &mut rt.stdout(), &mut rt.stderr());
}

#[cfg(test)]
mod tests {
    use super::{Unserved, answer};
    use std::alloc::Global;
    use std::io;
    use std::io::{Read, Write};
    use std::test::Fail;

    // A text that comes a byte at a time, and then ends or fails.
    #[derive(Drop)]
    struct Slow<'a> {
        text: &'a [u8],
        fails: bool,
    }

    impl Read for Slow<'_> {
        fn read(&mut self, buf: &mut [u8]) -> io::Result<usize> {
            match self.text.split_first() {
                Some((byte, rest)) if !buf.is_empty() => {
                    buf[0] = *byte;
                    self.text = rest;
                    Ok(1)
                }
                None if self.fails => Err(io::Error::other("no more can be read")),
                _ => Ok(0),
            }
        }
    }

    // An output that has room for some bytes, and then fails.
    #[derive(Drop)]
    struct Short {
        kept: Vec<u8>,
        room: usize,
    }

    impl Write for Short {
        fn write(&mut self, buf: &[u8]) -> io::Result<usize> {
            let n = buf.len().min(self.room);
            if n == 0 {
                return Err(io::Error::other("no more can be written"));
            }
            self.kept.extend_from_slice(&buf[..n])?;
            self.room -= n;
            Ok(n)
        }

        fn flush(&mut self) -> io::Result<()> {
            Ok(())
        }
    }

    // What is answered to a text, and what is said of it on standard error.
    fn answered(
        alloc: Global,
        text: &[u8],
        fails: bool,
        room: usize,
    ) -> Result<(Result<(), Unserved>, Vec<u8>, Vec<u8>), Fail> {
        let mut input = Slow { text, fails };
        let mut output = Short {
            kept: Vec::new(alloc),
            room,
        };
        let mut errors = Vec::new(alloc);
        let served = answer(&mut input, &mut output, &mut errors);
        Ok((served, output.kept, errors))
    }

    // The last line lacks its LF, and the second has an odd number of digits.
    #[test]
    fn lines_are_answered(rt: HostRuntime) -> Result<(), Fail> {
        let (served, printed, told) = answered(rt.alloc(), b"080001\n0800010\n080001", false, 100)?;
        assert!(rt; served == Ok(()));
        assert_eq!(rt; printed.as_slice(), b"0800\n001E\n0800\n".as_slice());
        assert_eq!(rt; told.len(), 0);
        Ok(())
    }

    // A line that a failed read cuts short is not answered.
    #[test]
    fn a_read_fails(rt: HostRuntime) -> Result<(), Fail> {
        let (served, printed, told) = answered(rt.alloc(), b"080001\n080001", true, 100)?;
        assert!(rt; served == Err(Unserved::Unread));
        assert_eq!(rt; printed.as_slice(), b"0800\n".as_slice());
        assert_eq!(rt; told.len(), 0);
        Ok(())
    }

    // Nothing more is answered after a write has failed.
    #[test]
    fn a_write_fails(rt: HostRuntime) -> Result<(), Fail> {
        let (served, printed, told) = answered(rt.alloc(), b"080001\n\n080001\n", false, 8)?;
        assert!(rt; served == Err(Unserved::Unwritten));
        assert_eq!(rt; printed.as_slice(), b"0800\n001".as_slice());
        assert_eq!(rt;
            told.as_slice(),
            b"standard output cannot be written: answers are lost\n".as_slice()
        );
        Ok(())
    }
}
