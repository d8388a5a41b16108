// The blocks memory: one share for each file, by the file's number.
ghost use Rattle.std.specs.Prelude.{◌≡◌, ◌*◌, ◌<◌, length};
ghost use Rattle.std.proofs.lemmas.List.Edits.{sets};
ghost use Rattle.words.specs.Word.{zeros};
ghost use Rattle.rules.specs.Limits.{files, share_bytes};
ghost use Rattle.rules.specs.Memories.{share_at};
ghost use Rattle.ring.specs.Ring as spec;
ghost use Rattle.blocks.specs.Writing.{record_of, Ready, inscribed};

use crate::writing::{NewRecord, put};
use kinds::limits::SHARE_BYTES;
use kinds::memories::{Blocks, Share};
use ring::Ring;

// A file's share, for reading.
pub fn share(blocks: &Blocks, file: usize) -> &Share
    requires { file < files }
    ensures { result.now ≡ share_at file blocks.now }
{
    let (shares, _) = blocks.as_chunks();
    &shares[file]
}

// "Build and load zero the share".
pub fn clear(blocks: &mut Blocks, file: usize)
    requires { file < files }
    ensures { blocks.new ≡ sets blocks.old (share_bytes * file) (zeros share_bytes) }
{
    words::zero(blocks, SHARE_BYTES * file, SHARE_BYTES);
}

// Puts a record into a file's share, and gives the ring with it.
pub fn put_at(blocks: &mut Blocks, file: usize, ring: Ring, words: u16, new: NewRecord) -> Ring
    requires f_lt_files { file < files }
    requires ready { Ready words ring (share_at file blocks.old) (length new.data.now) }
    ensures ring { result ≡ spec.put ring }
    ensures blocks { blocks.new ≡ sets blocks.old (share_bytes * file) (inscribed words ring (record_of new.entry) (share_at file blocks.old)) }
{
    let a = SHARE_BYTES * file;
    let e = a + SHARE_BYTES;
    put(&mut blocks[a..e], ring, words, new)
}
