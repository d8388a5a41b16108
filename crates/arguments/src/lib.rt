// The arguments of the command-line programs:
//     PROGRAM FILE [SHEET]
// FILE is a file's number and SHEET is a path. Errors in them are reported on standard error, which the caller lends.
#![tactic(auto)]

ghost use Rattle.std.specs.Prelude.{◌≤◌, IfSome, length};

use kinds::limits::FILES;
use std::env::FillError;
use std::io::{Error, Write};
use std::rt::{Env, Files};
use std::{fs, str};
use streams::read_full;

// The last digit that names a file.
const LAST_DIGIT: u8 = b'0' + (FILES - 1) as u8;

// Room for the text of a sheet: more than the longest sheet has.
pub const TEXT_BYTES: usize = 65536;

// Room for the longest path.
const PATH_BYTES: usize = 4096;

// Room for the system's words for an error: more than the longest have.
const WORDS_BYTES: usize = 256;

// The number of the system's error for bytes that are no text: std opens only a path that is UTF-8.
const NO_TEXT: i32 = 84;

// The file's number, and how many bytes of text the sheet has, if one is named.
#[derive(Clone, Copy)]
pub struct Named {
    pub file: usize,
    pub sheet: Option<usize>,
}

// Prints a line on standard error: what is wrong, and the refusal's number.
// Kept: a number and no `Refusal`, since a narrower parameter would ask more of callers.
pub fn refused<E: Write>(errors: &mut E, why: &[u8], number: u8) {
    let _ = errors.write_all(why);
    let _ = writeln!(errors, " (status {number})");
}

// Whether the command has an argument of this number. Number 0 is the program's name.
pub fn is_given<R: Env>(rt: &R, word: usize) -> bool {
    !matches!(rt.arg(word, &mut []), Err(FillError::NotPresent))
}

// The file that the first argument names, if it is one digit that names a file.
fn file_named<R: Env>(rt: &R) -> Option<usize> {
    let mut text = [0u8; 2];
    let n = rt.arg(1, &mut text).ok()?;
    match &text[..n] {
        [digit @ b'0'..=LAST_DIGIT] => Some(usize::from(digit - b'0')),
        _ => None,
    }
}

// The path that an argument names, which is put into `room`. It is empty if there is no room for it.
fn path_named<'a, R: Env>(rt: &R, word: usize, room: &'a mut [u8]) -> &'a [u8]
    ensures { length result.now ≤ length room.old }
{
    let n = rt.arg(word, room).unwrap_or(0);
    &room[..n]
}

// Opens a file to be read.
fn open<R: Files>(rt: &R, path: &[u8]) -> Result<R::File, Error> {
    match str::from_utf8(path) {
        Ok(text) => fs::open(rt, text),
        Err(_) => Err(Error::from_raw_os_error(NO_TEXT)),
    }
}

// The system's words for an error, as they are printed, without its number.
fn words_of(printed: &str) -> &str {
    match printed.split_once(" (os error ") {
        Some((words, _)) => words,
        None => printed,
    }
}

// Prints a line on standard error: a path, and the system's words for why it cannot be opened.
fn unopened<E: Write>(errors: &mut E, path: &[u8], error: Error) {
    let mut room = [0u8; WORDS_BYTES];
    let _ = errors.write_all(path);
    let _ = errors.write_all(b": ");
    if let Ok(printed) = str::from_utf8(print_error(error, &mut room)) {
        let _ = errors.write_all(words_of(printed).as_bytes());
    }
    let _ = errors.write_all(b"\n");
}

// Prints an error into `room`, as far as there is room, and gives what was printed.
fn print_error(error: Error, room: &mut [u8]) -> &[u8]
    ensures { length result.now ≤ length room.old }
{
    let size = room.len();
    let mut rest = &mut *room;
    let _ = write!(rest, "{error}");
    let n = size.saturating_sub(rest.len());
    &room[..n]
}

// Reads the file that an argument names into `text`, as far as there is room, and gives how many bytes were read. Reports a file that cannot be opened.
pub fn bytes_named<R: Env + Files, E: Write>(
    rt: &R,
    errors: &mut E,
    word: usize,
    text: &mut [u8],
) -> Option<usize>
    ensures { IfSome result (λ n. n ≤ length text.old) }
{
    let mut room = [0u8; PATH_BYTES];
    let path = path_named(rt, word, &mut room);
    match open(rt, path) {
        Ok(mut file) => Some(read_full(&mut file, text)),
        Err(error) => {
            unopened(errors, path, error);
            None
        }
    }
}

// What the arguments name. A sheet's bytes start at the first byte of `text`. They come from outside, so no contract can say what they are. Reports arguments
// that name nothing.
pub fn arguments<R: Env + Files, E: Write>(rt: &R, errors: &mut E, text: &mut [u8]) -> Option<Named>
    ensures { IfSome result (λ named. IfSome named.sheet (λ n. n ≤ length text.old)) }
{
    let Some(file) = file_named(rt) else {
        let _ = errors.write_all(b"FILE is the number of a file, 0 to 7\n");
        return None;
    };
    let mut sheet = None;
    if is_given(rt, 2) {
        sheet = Some(bytes_named(rt, errors, 2, text)?);
    }
    Some(Named { file, sheet })
}
