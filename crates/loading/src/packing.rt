// "Load packs the records from the share's first block, with no accessor."
ghost use Rattle.std.specs.Prelude.{◌≡◌, ◌*◌, ◌≤◌, ◌<◌, length};
ghost use Rattle.std.proofs.Math.Option.{some};
ghost use Rattle.std.proofs.lemmas.List.Edits.{sets};
ghost use Rattle.words.specs.Word.{zeros};
ghost use Rattle.rules.specs.Limits.{files, share_bytes};
ghost use Rattle.rules.specs.Sheet.{Sheet, rec_of, read_sheet, loaded};
ghost use Rattle.rules.specs.Memories.{share_at};
ghost use Rattle.blocks.specs.Writing.{Ready, inscribed};
ghost use Rattle.midst.specs.File.{in_hand};
ghost use Rattle.store.specs.Door.{put_in};
ghost use Rattle.loading.specs.LaidOut.{file_of_head};

use blocks::by_file::clear;
use blocks::writing::NewRecord;
use kinds::limits::SHEET_LINE_BYTES;
use kinds::memories::Blocks;
use midst::File;
use reader::{Head, ID, RECORD_HEAD, Reader, TYPE, read_head};
use ring::Ring;
use store::put;

// Zeroes file f's share, and gives the file with no record that a sheet's head describes.
fn begin(blocks: &mut Blocks, f: usize, head: Head) -> File
    requires { f < files }
    ensures { (result ≡ file_of_head head) × (blocks.new ≡ sets blocks.old (share_bytes * f) (zeros share_bytes)) }
{
    clear(blocks, f);
    File {
        words: head.words,
        ring: Ring {
            factor: u16::from(head.factor),
            blocks: head.blocks,
            block: 0,
            spent: 0,
            held: 0,
        },
    }
}

// Puts the record that a frame says after the others of file f, and gives the file with it.
#[tactic(auto, unfolding(rules::specs::Sheet::rec_of))]
fn put_frame(blocks: &mut Blocks, f: usize, file: File, frame: &[u8]) -> File
    requires { (f < files) × (4 ≤ length frame.now) × Ready file.words file.ring (share_at f blocks.old) (length (rec_of frame.now).body) }
    ensures { (result ≡ put_in file) × (blocks.new ≡ sets blocks.old (share_bytes * f) (inscribed file.words file.ring (rec_of frame.now) (share_at f blocks.old))) }
{
    let record = NewRecord {
        typ: words::get(frame, TYPE),
        wid: words::get(frame, ID),
        data: &frame[RECORD_HEAD..],
    };
    put(blocks, f, file, record)
}

// Packs all records of a sheet into file f's share, and gives the file in hand.
pub fn pack(blocks: &mut Blocks, f: usize, text: &[u8]) -> File
    requires { (f < files) × ((s : Sheet) × (read_sheet text.now ≡ some s)) }
    ensures { (s : Sheet) → read_sheet «text».now ≡ some s → (result ≡ in_hand (loaded s)) × (blocks.new ≡ sets blocks.old (share_bytes * f) (loaded s).store.share) }
{
    let head = read_head(text).unwrap();
    let mut file = begin(blocks, f, head);
    let mut frame = [0u8; SHEET_LINE_BYTES];
    let mut reader = Reader { text, at: head.at };
    for _ in 0..head.held {
        let size = reader.hand_out(&mut frame);
        file = put_frame(blocks, f, file, &frame[..size]);
    }
    file
}
