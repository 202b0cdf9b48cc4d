//! The lines of an input in pieces, read one by one.

ghost use Rattle.std.specs.Prelude.{◌≤◌, IfOk, IsOk, IsTrue};

use session_desk::{LineReader, ReadFault, SessionLine};
use site_disk::MemSource;
use std::alloc::{AllocError, Global};
use std::test::Fail;
use vec_record::{Bytes, Numbers};

// So many letters and then a text, and how each next line of it is noted: its length, `r` where a
// carriage return was taken off, and what ends the reading.
const ROWS: [(usize, &str, &str); 16] = [
    (0, "", "end"),
    (0, "ab", "2 end"),
    (0, "ab\n", "2 end"),
    (0, "ab\r", "2r end"),
    (0, "ab\r\n", "2r end"),
    (0, "\n\r\n\ncd", "0 0r 0 2 end"),
    (0, "a\rb\r\r\n\r", "4r 0r end"),
    (4096, "", "4096 end"),
    (4096, "\nab\n", "4096 2 end"),
    (4095, "\r\nab\r\n", "4095r 2r end"),
    (4095, "\r", "4095r end"),
    (4096, "\r\nab\n", "long 2 end"),
    (4096, "\r", "long end"),
    (4097, "\nab", "long 2 end"),
    (4097, "", "long end"),
    (20000, "\n\r\n", "long 0r end"),
];

fn letters(alloc: Global, count: usize, text: &str) -> Result<Bytes, AllocError> {
    let mut bytes = Bytes::new(alloc);
    for _ in 0..count {
        bytes.push(b'x')?;
    }
    bytes.append(text.as_bytes())?;
    Ok(bytes)
}

fn failing(alloc: Global, call: u32) -> Result<Numbers, AllocError> {
    let mut calls = Numbers::new(alloc);
    calls.push(call)?;
    Ok(calls)
}

// How an answer is noted, and whether more lines may follow.
fn noted(alloc: Global, next: Result<SessionLine, ReadFault>) -> Result<(String, bool), AllocError>
    ensures { IfOk result (λ note. IsTrue note.1 → IsOk next) }
{
    Ok(match next {
        Ok(SessionLine::Whole { line, cr }) => {
            let length = line.len();
            let mark = if cr { "r " } else { " " };
            (format!(in alloc; "{length}{mark}")?, true)
        }
        Ok(SessionLine::Long) => (String::from_str(alloc, "long ")?, true),
        Ok(SessionLine::End) => (String::from_str(alloc, "end")?, false),
        Err(ReadFault::Source) => (String::from_str(alloc, "source")?, false),
        Err(ReadFault::TooMuch) => (String::from_str(alloc, "too much")?, false),
        Err(ReadFault::Memory) => (String::from_str(alloc, "memory")?, false),
    })
}

// The notes of all lines of an input in pieces, where a take fails.
fn notes(alloc: Global, input: Bytes, piece: usize, fail: u32) -> Result<String, AllocError>
    requires { 1 ≤ piece }
{
    let mut source = MemSource::new(input, piece, failing(alloc, fail)?);
    let mut reader = LineReader::new(alloc)?;
    let mut text = String::new(alloc);
    for _ in 0..9 {
        let (note, more) = noted(alloc, reader.next(&mut source))?;
        text.push_str(note.as_str())?;
        if !more {
            break;
        }
    }
    Ok(text)
}

#[test]
fn lines_in_pieces(rt: HostRuntime) -> Result<(), Fail> {
    for (count, end, expected) in ROWS {
        for piece in [1usize, 3, 4096] {
            let input = letters(rt.alloc(), count, end)?;
            let text = notes(rt.alloc(), input, piece, 0)?;
            assert_eq!(rt; text.as_str(), expected, "{count} {end:?} {piece}");
        }
    }
    Ok(())
}

// A take fails before a whole line, behind one, or not at all once the end was given.
#[test]
fn failing_takes(rt: HostRuntime) -> Result<(), Fail> {
    for (end, fail, expected) in [
        ("ab\ncd\n", 1u32, "source"),
        ("ab\ncd\n", 2, "2 source"),
        ("ab\ncd\n", 3, "2 2 source"),
        ("ab\ncd\n", 4, "2 2 end"),
        ("ab\nc", 3, "2 source"),
        ("ab\nc", 4, "2 1 end"),
    ] {
        let input = letters(rt.alloc(), 0, end)?;
        let text = notes(rt.alloc(), input, 3, fail)?;
        assert_eq!(rt; text.as_str(), expected, "{end:?} {fail}");
    }
    Ok(())
}
