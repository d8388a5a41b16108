// What the type of bytes says of them.
ghost use Rattle.words.specs.Word.{Bytes};

// Says that each byte is below 256. Of an array that a call has changed, a proof knows it only from here: nothing is done when it runs.
pub fn known(s: &[u8])
    ensures { Bytes s.now }
{}
