// The types that the rules and the code share, and document 01's own numbers, each defined once in the code: here.
// The rules have the limits in Limits, and the numbers of the cases in Frames, Answers and Calls.
#![tactic(auto)]

pub mod limits;
pub mod memories;
pub mod operations;
pub mod record_types;
pub mod refusals;
pub mod sides;
pub mod statuses;

// A control with its parameter, as it stands in the frame.
#[derive(Clone, Copy)]
pub enum Control {
    Timeout(u16),
    Verify(u16),
    Abort(u16),
    Extended(u16),
    Typed(u16),
    Keep(u16),
}

// "An event is one of nine kinds, and a control event carries one of six controls."
// A count is the word in the frame, 0 to 65535. A write's data are not in the event: they stay in the frame.
#[derive(Clone, Copy)]
pub enum Event {
    Build {
        file: u8,
        words: u16,
        factor: u8,
        records: u16,
        extents: u8,
    },
    Open {
        file: u8,
        access: u8,
        share: u8,
        multi: u8,
    },
    Read {
        file: u8,
        acc: u8,
        count: u16,
    },
    Write {
        file: u8,
        acc: u8,
        count: u16,
    },
    Control {
        file: u8,
        acc: u8,
        control: Control,
    },
    Collect {
        file: u8,
        acc: u8,
    },
    Close {
        file: u8,
        acc: u8,
    },
    Time {
        seconds: u16,
    },
    Counts {
        file: u8,
    },
}

// "One outstanding request per accessor": none, one that waits, or a completed one, not yet collected.
#[derive(Clone, Copy)]
pub enum Outstanding {
    Nothing,
    Waiting,
    Completed,
}

// What the bytes of a frame say.
#[derive(Clone, Copy)]
pub enum Frame {
    Event(Event),
    // A control event whose code is none of the six.
    Code { file: u8, acc: u8 },
    // A frame of none of the nine shapes, or with write data not as long as its count.
    Shape,
}

// The answer to an event, without the data of a record.
#[derive(Clone, Copy)]
pub enum Answer {
    Built {
        capacity: u16,
    },
    Opened {
        acc: u8,
        id: u16,
    },
    Read {
        log: u16,
    },
    Written {
        log: u16,
    },
    Controlled,
    Collected {
        log: u16,
    },
    Closed,
    Passed,
    Counted {
        records: u16,
        all: u16,
        writers: u16,
        readers: u16,
    },
    // Any other status: operation and status only.
    Status {
        operation: u8,
        status: u8,
    },
}
