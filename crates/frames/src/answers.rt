// Turns an answer into its bytes: operation and status, then what the answer holds.
ghost use Rattle.std.specs.Prelude.{◌≡◌, ◌∷◌, ◌++◌, ◌≤◌, length};
ghost use Rattle.std.proofs.lemmas.List.Edits.{sets};
ghost use Rattle.words.specs.Word.{word};
ghost use Rattle.rules.specs.Answers.{answer_bytes, most_answer};

use kinds::statuses::DONE;
use kinds::{Answer, operations};

// Writes the bytes, starting at the first byte of `out`, and gives their number.
fn put(bytes: &[u8], out: &mut [u8]) -> usize
    requires { length bytes.now ≤ length out.old }
    ensures { (result ≡ length bytes.now) × (out.new ≡ sets out.old 0 bytes.now) }
{
    out[..bytes.len()].copy_from_slice(bytes);
    bytes.len()
}

// operation 00 w(2)
fn done_word(operation: u8, w: u16, out: &mut [u8]) -> usize
    requires { 4 ≤ length out.old }
    ensures { (result ≡ 4) × (out.new ≡ sets out.old 0 (operation ∷ 0 ∷ word w)) }
{
    let [high, low] = w.to_be_bytes();
    put(&[operation, DONE, high, low], out)
}

// 02 00 accessor ID(2)
fn opened(acc: u8, id: u16, out: &mut [u8]) -> usize
    requires { 5 ≤ length out.old }
    ensures { (result ≡ 5) × (out.new ≡ sets out.old 0 (2 ∷ 0 ∷ acc ∷ word id)) }
{
    let [high, low] = id.to_be_bytes();
    put(&[operations::OPEN, DONE, acc, high, low], out)
}

// 09 00 data records, all records, writers, readers, (2) each
fn counted(records: u16, all: u16, writers: u16, readers: u16, out: &mut [u8]) -> usize
    requires { 10 ≤ length out.old }
    ensures { (result ≡ 10) × (out.new ≡ sets out.old 0 (9 ∷ 0 ∷ word records ++ word all ++ word writers ++ word readers)) }
{
    let [n1, n0] = records.to_be_bytes();
    let [a1, a0] = all.to_be_bytes();
    let [w1, w0] = writers.to_be_bytes();
    let [r1, r0] = readers.to_be_bytes();
    put(
        &[operations::COUNTS, DONE, n1, n0, a1, a0, w1, w0, r1, r0],
        out,
    )
}

// Writes the answer's bytes, starting at the first byte of `out`, and gives their number.
#[tactic(auto, unfolding(rules::specs::Answers::answer_bytes))]
pub fn encode(answer: Answer, out: &mut [u8]) -> usize
    requires { most_answer ≤ length out.old }
    ensures size { result ≡ length (answer_bytes answer) }
    ensures bytes { out.new ≡ sets out.old 0 (answer_bytes answer) }
    ensures bound { result ≤ most_answer }
{
    match answer {
        Answer::Built { capacity } => done_word(operations::BUILD, capacity, out),
        Answer::Opened { acc, id } => opened(acc, id, out),
        Answer::Read { log } => done_word(operations::READ, log, out),
        Answer::Written { log } => done_word(operations::WRITE, log, out),
        Answer::Controlled => put(&[operations::CONTROL, DONE], out),
        Answer::Collected { log } => done_word(operations::COLLECT, log, out),
        Answer::Closed => put(&[operations::CLOSE, DONE], out),
        Answer::Passed => put(&[operations::TIME, DONE], out),
        Answer::Counted {
            records,
            all,
            writers,
            readers,
        } => counted(records, all, writers, readers, out),
        Answer::Status { operation, status } => put(&[operation, status], out),
    }
}
