// A line by name becomes digits: `opens 0 3 1 0 => opened 0 1` says `0200030100 0200000001`. A frame may also lack its last byte, `shorter closes 0 0`, or have
// a byte 00 too many, `longer closes 0 0`.
use crate::text::{WORDS, number, put_byte, split};
use hexadecimal::LF;
use lines::Filled;
use saving::SHEET_ROOM;
use std::io::Write;

// Room for a line with a sheet, and more. A line that is longer is cut, and then differs.
pub const SPELT: usize = 2 * SHEET_ROOM;

// A line in digits.
pub type Spelt = Filled<SPELT>;

// Reads a number that may be below 0, as a word has it.
fn word(text: &[u8]) -> usize {
    match text {
        [b'-', digits @ ..] => WORDS.saturating_sub(number(digits)),
        _ => number(text),
    }
}

// Whether the words go on after a byte of a form: `b`, `w` and `d` stand for a word.
fn takes_word(part: u8) -> bool {
    part >= b'b' && part != b'o'
}

// Writes a form, filled with words, as far as there is room.
fn fill(form: &[u8], mut words: &[u8], out: &mut Spelt) {
    for part in form {
        // Looks for a word only where one is taken: a form may have many more bytes than words.
        let (next, rest) = if takes_word(*part) {
            split(words, b' ')
        } else {
            (&words[..0], words)
        };
        match *part {
            b'b' => put_byte(out, (number(next) % 256) as u8),
            b'w' => {
                let word = word(next) % WORDS;
                put_byte(out, (word / 256) as u8);
                put_byte(out, (word % 256) as u8);
            }
            b'd' => {
                let _ = out.write_all(next);
            }
            // The operation that was asked, which is the first two digits.
            b'o' => {
                let operation = [out.bytes[0], out.bytes[1]];
                let _ = out.write_all(&operation);
            }
            other => out.push(other),
        }
        words = rest;
    }
}

// The form of a name, which is empty if there is none.
fn form<'a>(mut forms: &'a [u8], name: &[u8]) -> &'a [u8] {
    while !forms.is_empty() {
        let (known, rest) = split(forms, b' ');
        let (form, others) = split(rest, LF);
        if known == name {
            return form;
        }
        forms = others;
    }
    forms
}

// Writes a name and its words by its form.
fn spell_words(forms: &[u8], words: &[u8], out: &mut Spelt) {
    let (name, words) = split(words, b' ');
    fill(form(forms, name), words, out);
}

// Takes the two digits of the last byte away, if there are two.
fn drop_byte(out: &mut Spelt) {
    if out.len >= 2 {
        out.len -= 2;
    }
}

// Writes the frame that a line by name says.
fn spell_asked(forms: &[u8], words: &[u8], out: &mut Spelt) {
    let (name, others) = split(words, b' ');
    match form(forms, name).first() {
        Some(b'-') => {
            spell_words(forms, others, out);
            drop_byte(out);
        }
        Some(b'+') => {
            spell_words(forms, others, out);
            let _ = out.write_all(b"00");
        }
        _ => spell_words(forms, words, out),
    }
}

// Writes the frame and the answer that a line by name says, with a space between them.
fn spell_named(forms: &[u8], line: &[u8], out: &mut Spelt) {
    let (asked, rest) = split(line, b'=');
    let (_, told) = split(rest, b' ');
    spell_asked(forms, asked, out);
    out.push(b' ');
    spell_words(forms, told, out);
}

// Writes a line in digits, as far as there is room, into a memory that is all zero. Names are in small letters; any other line begins otherwise and stays as it is.
// Kept: the memory is lent and not given back: it is large, and to give it back is to copy it, twice for each line.
pub fn spell(forms: &[u8], line: &[u8], out: &mut Spelt) {
    match line.first() {
        Some(b'a'..) => spell_named(forms, line, out),
        _ => {
            let _ = out.write_all(line);
        }
    }
}
