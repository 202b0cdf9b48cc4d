//! What an input asks for next.

ghost use Rattle.std.specs.Prelude.{◌≡◌, ◌≤◌, ◌<◌, ℕ, List, [], ◌∷◌, ◌++◌, length, true, false};
ghost use Rattle.std.specs.Prelude.{IsTrue, IsErrOf, IfOk, IsSome, OnOk, Ok, Some, codes};
ghost use Rattle.std.specs.List.{slice_split};
ghost use Rattle.std.specs.Str.{bytes_eq};
ghost use Rattle.site_disk.specs.Causes.{Rose};
ghost use Rattle.session_desk.specs.Lines.{HasSource, IsUnfinished, raw_line};
ghost use Rattle.session_desk.specs.Asking.{Asks};
ghost use Rattle.session_desk.specs.Session.{line_of_words, line_of_word, line_with, is_space};
ghost use Rattle.session_desk.specs.Passing.{word_of as word_said, OneWord, Words};
ghost use Rattle.session_desk.specs.Passing.{HasLines, OneInBody, Bodies, HasRoom, KeepsRoom};
ghost use Rattle.session_desk.specs.Passing.{ShrinksBy, ShrinksOver, ShrinksOverAny};

use crate::lines::{LineReader, SessionLine};
use crate::reading::ReadFault;
use batch_text::number::number_within;
use site_disk::Source;
use std::alloc::{AllocError, Global};
use vec_record::{Bytes, Number};

/// What a line outside of a batch asks for.
#[derive(Clone, Copy, Drop)]
pub(crate) enum Line {
    Report,
    Summary,
    /// The line of a number in the report.
    Label(Number),
    /// The members of the cluster with a label.
    Cluster(Number),
    /// The numbers near a number.
    Near(Number),
    /// What the watcher of a slot says.
    Watch(u32),
    /// That the watcher of a slot is dropped.
    Drop(u32),
    /// A line that says nothing that is known.
    Unknown,
    /// A line of over 4,096 bytes.
    Long,
}

/// What a session is asked next.
#[derive(Drop)]
pub(crate) enum Asked {
    /// A batch, with the bytes of its body as they came.
    Batch(Bytes),
    /// A batch with a line of over 4,096 bytes.
    LongBatch,
    /// A batch without its end.
    Cut,
    /// Any other line.
    Line(Line),
}

/// What a line outside of a body says.
#[derive(Clone, Copy, Drop)]
enum Word {
    Batch,
    Line(Line),
    End,
}

/// What a line inside of a body is.
#[derive(Clone, Copy, Drop)]
enum BodyLine {
    Kept,
    /// The line that ends the batch.
    End,
    /// The end of the input.
    Cut,
}

/// The body of a batch so far: its bytes as they came, or that it has a long line.
#[derive(Drop)]
struct Body {
    bytes: Bytes,
    is_long: bool,
}

/// Reads the next request, or None where the input has ended. After a fault of the source, more
/// bytes than may count, or want of memory nothing more is read.
pub(crate) fn next_request<S: Source>(
    alloc: Global,
    reader: &mut LineReader,
    source: &mut S,
) -> Result<Option<Asked>, ReadFault>
    requires { reader.old.failed ≡ false }

    // What is answered, by the bytes that the reader held or that were left.
    ensures told { IsTrue S.tells → HasSource reader.old (S.left source.old)
        → Asks result reader.old (S.left source.old) reader.new (S.left source.new) }
    ensures taken { IsTrue S.tells → HasSource reader.old (S.left source.old)
        → IsUnfinished reader.old (S.left source.old) (S.left source.new) }
    ensures same_source { IsTrue S.tells → HasSource reader.old (S.left source.old)
        → HasSource reader.new (S.left source.new) }

    // What holds over every source.
    ensures few { (body : List ℕ) → result ≡ Ok (Some (Asked.Batch body)) → length body
        ≤ reader.old.room }
    ensures shrinks { IfOk result (λ asked. IsSome asked → reader.new.room < reader.old.room) }
    ensures whole { OnOk result (reader.new.failed ≡ false) }
    ensures source { IsErrOf result ReadFault.Source
        → Rose (S.faults source.old) (S.faults source.new) }
    ensures later { S.faults source.old ≤ S.faults source.new }
    ensures ended { reader.old.ended ≡ true → reader.new.ended ≡ true }
{
    match next_word(reader, source)? {
        Word::Batch => Ok(Some(read_body(alloc, reader, source)?)),
        Word::Line(line) => Ok(Some(Asked::Line(line))),
        Word::End => Ok(None),
    }
}

/// Reads lines outside of a body up to one that isn't empty.
fn next_word<S: Source>(reader: &mut LineReader, source: &mut S) -> Result<Word, ReadFault>
    requires { reader.old.failed ≡ false }
    ensures told { IsTrue S.tells → HasSource reader.old (S.left source.old)
        → Words result reader.old (S.left source.old) reader.new (S.left source.new) }
    ensures taken { IsTrue S.tells → HasSource reader.old (S.left source.old)
        → IsUnfinished reader.old (S.left source.old) (S.left source.new) }
    ensures same_source { IsTrue S.tells → HasSource reader.old (S.left source.old)
        → HasSource reader.new (S.left source.new) }
    ensures shrinks { IfOk result (λ w. ShrinksOver w reader.old reader.new) }
    ensures whole { OnOk result (reader.new.failed ≡ false) }
    ensures source { IsErrOf result ReadFault.Source
        → Rose (S.faults source.old) (S.faults source.new) }
    ensures later { S.faults source.old ≤ S.faults source.new }
    ensures ended { reader.old.ended ≡ true → reader.new.ended ≡ true }
{
    'lines: loop {
        if let Some(word) = read_word(reader, source)? {
            return Ok(word);
        }
    }
}

/// Reads one line outside of a body: what it says, or None where it is empty.
fn read_word<S: Source>(reader: &mut LineReader, source: &mut S) -> Result<Option<Word>, ReadFault>
    requires { reader.old.failed ≡ false }
    ensures told { IsTrue S.tells → HasSource reader.old (S.left source.old)
        → OneWord result reader.old (S.left source.old) reader.new (S.left source.new) }
    ensures taken { IsTrue S.tells → HasSource reader.old (S.left source.old)
        → IsUnfinished reader.old (S.left source.old) (S.left source.new) }
    ensures same_source { IsTrue S.tells → HasSource reader.old (S.left source.old)
        → HasSource reader.new (S.left source.new) }
    ensures shrinks { IfOk result (λ w. ShrinksOverAny w reader.old reader.new) }
    ensures whole { OnOk result (reader.new.failed ≡ false) }
    ensures source { IsErrOf result ReadFault.Source
        → Rose (S.faults source.old) (S.faults source.new) }
    ensures later { S.faults source.old ≤ S.faults source.new }
    ensures ended { reader.old.ended ≡ true → reader.new.ended ≡ true }
{
    match reader.next(source)? {
        SessionLine::Whole { line, .. } => Ok(word_of(line.as_slice())),
        SessionLine::Long => Ok(Some(Word::Line(Line::Long))),
        SessionLine::End => Ok(Some(Word::End)),
    }
}

/// What a line says, or None where it is empty.
fn word_of(line: &[u8]) -> Option<Word>
    ensures { result ≡ word_said line.now }
{
    if line.is_empty() {
        None
    } else if line == b"batch".as_slice() {
        Some(Word::Batch)
    } else {
        Some(Word::Line(line_of(line)))
    }
}

/// What a line asks for that isn't long.
fn line_of(line: &[u8]) -> Line
    ensures { result ≡ line_of_words (slice_split is_space line.now) }
{
    match line.iter().position(|b| *b == b' ') {
        None => plain_line(line),
        Some(at) => match number_within(&line[at + 1..], 1, u32::MAX) {
            None => Line::Unknown,
            Some(number) => numbered_line(&line[..at], number),
        },
    }
}

/// What one word asks for.
fn plain_line(word: &[u8]) -> Line
    ensures { result ≡ line_of_word word.now }
{
    if word == b"report".as_slice() {
        Line::Report
    } else if word == b"summary".as_slice() {
        Line::Summary
    } else {
        Line::Unknown
    }
}

/// What a word asks for with a number behind it.
fn numbered_line(word: &[u8], number: u32) -> Line
    ensures { result ≡ line_with word.now (Some number) }
{
    if word == b"label".as_slice() {
        Line::Label(number)
    } else if word == b"cluster".as_slice() {
        Line::Cluster(number)
    } else if word == b"near".as_slice() {
        Line::Near(number)
    } else if word == b"watch".as_slice() {
        Line::Watch(number)
    } else if word == b"drop".as_slice() {
        Line::Drop(number)
    } else {
        Line::Unknown
    }
}

/// Reads the body of a batch, up to its end or the end of the input.
fn read_body<S: Source>(
    alloc: Global,
    reader: &mut LineReader,
    source: &mut S,
) -> Result<Asked, ReadFault>
    requires { reader.old.failed ≡ false }
    ensures told { IsTrue S.tells → HasSource reader.old (S.left source.old)
        → Bodies result reader.old (S.left source.old) reader.new (S.left source.new) }
    ensures taken { IsTrue S.tells → HasSource reader.old (S.left source.old)
        → IsUnfinished reader.old (S.left source.old) (S.left source.new) }
    ensures same_source { IsTrue S.tells → HasSource reader.old (S.left source.old)
        → HasSource reader.new (S.left source.new) }
    ensures few { (body : List ℕ) → result ≡ Ok (Asked.Batch body) → length body ≤ reader.old.room }
    ensures shrinks { OnOk result (reader.new.room ≤ reader.old.room) }
    ensures whole { OnOk result (reader.new.failed ≡ false) }
    ensures source { IsErrOf result ReadFault.Source
        → Rose (S.faults source.old) (S.faults source.new) }
    ensures later { S.faults source.old ≤ S.faults source.new }
    ensures ended { reader.old.ended ≡ true → reader.new.ended ≡ true }
{
    let mut body = Body {
        bytes: Bytes::new(alloc),
        is_long: false,
    };
    'lines: loop {
        match read_line(&mut body, reader, source)? {
            BodyLine::Kept => {}
            BodyLine::End if body.is_long => return Ok(Asked::LongBatch),
            BodyLine::End => return Ok(Asked::Batch(body.bytes)),
            BodyLine::Cut => return Ok(Asked::Cut),
        }
    }
}

/// Reads one line inside of a body, and keeps it where it doesn't end the body.
fn read_line<S: Source>(
    body: &mut Body,
    reader: &mut LineReader,
    source: &mut S,
) -> Result<BodyLine, ReadFault>
    requires { reader.old.failed ≡ false }
    ensures told { IsTrue S.tells → HasSource reader.old (S.left source.old)
        → (lines : List (List ℕ)) → HasLines body.old lines
        → OneInBody result lines body.new reader.old (S.left source.old) reader.new
        (S.left source.new) }
    ensures taken { IsTrue S.tells → HasSource reader.old (S.left source.old)
        → IsUnfinished reader.old (S.left source.old) (S.left source.new) }
    ensures same_source { IsTrue S.tells → HasSource reader.old (S.left source.old)
        → HasSource reader.new (S.left source.new) }
    ensures room { (most : ℕ) → HasRoom most body.old reader.old
        → KeepsRoom result most body.new reader.new }
    ensures shrinks { ShrinksBy result reader.old reader.new }
    ensures whole { OnOk result (reader.new.failed ≡ false) }
    ensures source { IsErrOf result ReadFault.Source
        → Rose (S.faults source.old) (S.faults source.new) }
    ensures later { S.faults source.old ≤ S.faults source.new }
    ensures ended { reader.old.ended ≡ true → reader.new.ended ≡ true }
{
    match reader.next(source)? {
        SessionLine::Whole { line, cr } => match take_line(body, line.as_slice(), cr) {
            Ok(true) => Ok(BodyLine::End),
            Ok(false) => Ok(BodyLine::Kept),
            Err(AllocError) => Err(ReadFault::Memory),
        },
        SessionLine::Long => {
            body.is_long = true;
            Ok(BodyLine::Kept)
        }
        SessionLine::End => Ok(BodyLine::Cut),
    }
}

/// Whether a line ends a body. Else it is kept as it came, where it is of use.
fn take_line(body: &mut Body, line: &[u8], cr: bool) -> Result<bool, AllocError>
    ensures ends { IfOk result (λ ends. ends ≡ bytes_eq line.now (codes "end")) }
    ensures long { body.new.is_long ≡ body.old.is_long }
    ensures kept { result ≡ Ok false → body.old.is_long ≡ false → body.new.bytes
        ≡ body.old.bytes ++ (raw_line line.now cr ++ 10 ∷ []) }
    ensures same { result ≡ Ok true → body.new.bytes ≡ body.old.bytes }
    ensures unkept { result ≡ Ok false → body.old.is_long ≡ true → body.new.bytes ≡ body.old.bytes }
{
    if line == b"end".as_slice() {
        return Ok(true);
    }
    if !body.is_long {
        append_line(&mut body.bytes, line, cr)?;
    }
    Ok(false)
}

/// Appends a line as it came, with its line feed.
fn append_line(bytes: &mut Bytes, line: &[u8], cr: bool) -> Result<(), AllocError>
    ensures { OnOk result (bytes.new ≡ bytes.old ++ (raw_line line.now cr ++ 10 ∷ [])) }
{
    bytes.append(line)?;
    if cr {
        bytes.push(b'\r')?;
    }
    bytes.push(b'\n')
}
