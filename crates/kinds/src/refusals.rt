// The refusals of document 01, with their numbers. Of those that apply to a call, the lowest is given.
ghost use Rattle.std.specs.Prelude.{◌≡◌};
ghost use Rattle.kinds.specs.Refusals.{number, refusal_number};

#[derive(Clone, Copy, PartialEq, Eq)]
pub enum Refusal {
    // A lent memory has the wrong length or unsound content.
    Unsound = 29,

    // Frame not one of the nine shapes, or write data not as long as its count.
    Shape = 30,

    // File above 7 or not built; for build and load, already built.
    File = 31,

    // Accessor not open.
    Accessor = 32,

    // Read, write or control (not 43) while a request is outstanding; close with a completed one uncollected.
    Outstanding = 33,

    // Read or look by a writer, write by a reader, 46 or 47 by a writer.
    Side = 34,

    // A number outside its range.
    Range = 35,

    // D × block size above 2,048 words.
    Size = 38,

    // Collect or 43 with nothing outstanding; look with no record.
    Nothing = 39,

    // Multiaccess 3, another share, or a second accessor the share forbids.
    Sharing = 40,

    // Eight accessors open.
    Full = 41,

    // No room for the open record.
    Room = 42,

    // Load: not a sheet.
    NoSheet = 43,

    // Save: output too short.
    Short = 44,
}

impl Refusal {
    // The number of a refusal, as answers and statuses have it.
    pub fn number(self) -> u8
        ensures { result ≡ number self }
    {
        self as u8
    }
}

// The status of a call that may be refused: 0 if it is not.
pub fn status(outcome: Result<(), Refusal>) -> u8
    ensures { result ≡ refusal_number outcome }
{
    match outcome {
        Ok(()) => 0,
        Err(refusal) => refusal.number(),
    }
}
