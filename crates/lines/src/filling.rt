// Bytes that are put one after another into a memory of N bytes.
ghost use Rattle.std.specs.Prelude.{◌≡◌, Some, Ok, IsOk, [], ◌∷◌, ◌++◌, ◌-◌, ◌≤◌, min, take, drop, length, replicate};
ghost use Rattle.std.specs.Io.{WritesAtMost};
ghost use Rattle.std.specs.Io.KnownBytes.{Keeps, WriteAppends};

use std::io;
use std::io::Write;

// The first `len` bytes are filled.
#[derive(Drop)]
pub struct Filled<const N: usize> {
    pub bytes: [u8; N],
    pub len: usize,
    ghost within: { len ≤ N },
}

impl<const N: usize> Filled<N> {
    pub fn new() -> Self
        ensures len { result.len ≡ 0 }
        ensures bytes { result.bytes ≡ replicate N 0 }
    {
        Filled {
            bytes: [0; N],
            len: 0,
        }
    }

    pub fn as_slice(&self) -> &[u8]
        ensures { result.now ≡ take self.now.len self.now.bytes }
    {
        &self.bytes[..self.len]
    }

    // Adds a byte, if there is room.
    pub fn push(&mut self, b: u8)
        ensures filled { take self.new.len self.new.bytes ≡ take N (take self.old.len self.old.bytes ++ (b ∷ [])) }
        ensures rest { drop self.new.len self.new.bytes ≡ drop self.new.len self.old.bytes }
    {
        if self.len < N {
            self.bytes[self.len] = b;
            self.len += 1;
        }
    }
}

impl<const N: usize> Write for Filled<N> {
    ghost contents = { λ f. Some (take f.len f.bytes) };

    // Adds the bytes that there is room for.
    fn write(&mut self, bytes: &[u8]) -> io::Result<usize>
        ensures bound { WritesAtMost result bytes.now }
        ensures bytes { WriteAppends (Some (take self.old.len self.old.bytes)) (Some (take self.new.len self.new.bytes)) result bytes.now }
        ensures count { result ≡ Ok (min (length bytes.now) (N - self.old.len)) }
        ensures rest { drop self.new.len self.new.bytes ≡ drop self.new.len self.old.bytes }
    {
        let n = bytes.len().min(N - self.len);
        let end = self.len + n;
        let memory = &mut self.bytes[..];
        memory[self.len..end].copy_from_slice(&bytes[..n]);
        self.len = end;
        Ok(n)
    }

    fn flush(&mut self) -> io::Result<()>
        ensures bytes { Keeps (Some (take self.old.len self.old.bytes)) (Some (take self.new.len self.new.bytes)) }
        ensures done { IsOk result }
        ensures kept { self.new ≡ self.old }
    {
        Ok(())
    }
}
