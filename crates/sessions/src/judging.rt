// How a session goes: its name is printed where it begins, what differs as it comes, and `ok` where it ends well.
use crate::text::{from, split};
use std::io::Write;

// How a session goes: none goes on, it went as its lines say so far, or something differed.
#[derive(Clone, Copy)]
pub enum Session {
    Over,
    Well,
    Differs,
}

// Ends the session that went on, if there is one.
pub fn end<O: Write>(output: &mut O, session: Session) -> Session {
    match session {
        Session::Over => {}
        Session::Well => {
            let _ = output.write_all(b": ok");
            let _ = output.write_all(b"\n");
        }
        Session::Differs => {
            let _ = output.write_all(b"\n");
        }
    }
    Session::Over
}

// Begins a session: its name stands after two bytes of the line.
pub fn begin<O: Write>(output: &mut O, line: &[u8], session: Session) -> Session {
    end(output, session);
    let _ = output.write_all(from(line, 2));
    Session::Well
}

// What is asked in a line, and what it says that is told.
pub fn parts(line: &[u8]) -> (&[u8], &[u8]) {
    if line.contains(&b'=') {
        split(line, b'=')
    } else {
        split(line, b' ')
    }
}

// Compares what a line is told with what it says, and prints what differs.
pub fn judge<O: Write>(output: &mut O, line: &[u8], told: &[u8], session: Session) -> Session {
    let (asked, expected) = parts(line);
    if told == expected {
        return session;
    }
    let _ = output.write_all(b"\n    ");
    let _ = output.write_all(asked);
    let _ = output.write_all(b" is answered ");
    let _ = output.write_all(told);
    let _ = output.write_all(b", not ");
    let _ = output.write_all(expected);
    Session::Differs
}
