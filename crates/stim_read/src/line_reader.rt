ghost use Rattle.std.specs.Prelude.{◌≡◌, ◌≢◌, ℕ, ◌+◌, ◌<◌, ◌≤◌, ◌⊎◌, true, false, [], ◌∷◌, ◌++◌, length, take, drop, slice_index, All, MatchOption, Ok, IfOk, OnErr, vec_len, vec_capacity};
ghost use Rattle.std.specs.Io.KnownBytes.{Keeps, Consumes, IsAtEnd, prepend_known};
ghost use Rattle.std.specs.Str.Lines.{strip_carriage_return};
ghost use Rattle.ila_base.specs.Faults.{Rose};
ghost use Rattle.stim_read.specs.declared.line_reader.Found.TheVariants as found;
ghost use Rattle.stim_read.specs.declared.line_reader.LineEnd.TheVariants as got;
ghost use Rattle.stim_read.specs.declared.line_reader.TheConstants.{PIECE};
ghost use Rattle.stim_read.specs.Streams.{newline, Unbroken, Finds, between, rest_of, TakesLine, HasLongLine, IsDrained, ReadsAhead, UsesEnds};

use ila_base::{Failed, NoMemory, Source};
use std::alloc::Global;

/// How many bytes are read at once, at most.
pub const PIECE: usize = 4096;

// What a search for a newline found.
#[derive(Clone, Copy)]
pub(crate) enum Found {
    Newline,
    Nothing,
    TooLong,
}

// What stands at the front of a stream: a line, the end, or more bytes than a line may have.
#[derive(Clone, Copy)]
pub(crate) enum LineEnd {
    Line,
    End,
    TooLong,
}

// Reads a source line by line, in pieces, and takes no memory while it reads.
#[derive(Drop)]
pub(crate) struct LineReader {
    // The bytes that were read and not used yet stand from `at` up to `end`.
    buffer: Vec<u8>,
    at: usize,
    end: usize,
    // The bytes of the line so far, and how many it may have.
    line: Vec<u8>,
    most: usize,
    // Whether the end of the source was met.
    ended: bool,
    ghost within: { (at ≤ end) × (end ≤ vec_len buffer) },
    ghost room: { (vec_len line ≤ most) × (most ≤ vec_capacity line) },
    ghost size: { vec_len buffer ≡ PIECE },
    ghost unbroken: { All (λ byte. byte ≢ 10) line.items },
    ghost drained: { ended ≡ true → at ≡ end },
}

// The place of the first newline, by the bytes before it.
fn first_newline(bytes: &[u8]) -> Option<usize>
    ensures { MatchOption result (Unbroken bytes.now) (λ n. (n < length bytes.now)
        × (slice_index bytes.now n ≡ newline) × ((k : ℕ) → k < n
        → slice_index bytes.now k ≢ newline)) }
{
    bytes.iter().position(|byte| *byte == b'\n')
}

// The place of the first newline.
fn newline_of(bytes: &[u8]) -> Option<usize>
    ensures { MatchOption result (Unbroken bytes.now) (λ n. (n < length bytes.now)
        × Unbroken (take n bytes.now)
        × (bytes.now ≡ take n bytes.now ++ newline ∷ drop (n + 1) bytes.now)) }
{
    match first_newline(bytes) {
        Some(at) => Some(at),
        None => None,
    }
}

impl LineReader {
    ghost use Rattle.stim_read.specs.Reader.{ahead_of, unused_of, rest_behind, rest_with_line};

    /// A reader that has read nothing, of lines of at most so many bytes.
    pub(crate) fn new(alloc: Global, most: usize) -> Result<LineReader, NoMemory>
        ensures { IfOk result (λ reader. (reader.line.items ≡ []) × (reader.at ≡ 0)
            × (reader.end ≡ 0) × (reader.most ≡ most) × (reader.ended ≡ false)) }
    {
        Ok(LineReader {
            buffer: vec![in alloc; 0; PIECE]?,
            at: 0,
            end: 0,
            line: Vec::with_capacity(alloc, most)?,
            most,
            ended: false,
        })
    }

    // Appends the next bytes to the line, as many as are asked for, where it has room for them.
    fn append(&mut self, count: usize) -> bool
        requires within { self.old.at + count ≤ self.old.end }
        requires unbroken { Unbroken (take count (ahead_of self.old)) }
        ensures fits { result ≡ true
            → (self.new.line.items ≡ self.old.line.items ++ take count (ahead_of self.old))
            × (self.new.at ≡ self.old.at + count) }
        ensures full { result ≡ false → self.old.most < length self.old.line.items + count }
        ensures buffer { (self.new.buffer.items ≡ self.old.buffer.items)
            × (self.new.end ≡ self.old.end) }
        ensures kept { (self.new.most ≡ self.old.most) × (self.new.ended ≡ self.old.ended) }
    {
        if self.most - self.line.len() < count {
            return false;
        }
        let piece = &self.buffer[self.at..self.at + count];
        if self.line.extend_from_slice(piece).is_err() {
            unreachable!();
        }
        self.at += count;
        true
    }

    // Moves the bytes that were read to the line, up to a newline.
    fn take_ahead(&mut self) -> Found
        ensures found { Finds result self.old.most self.old.line.items
            (ahead_of self.old) self.new.line.items (ahead_of self.new) }
        ensures kept { (self.new.most ≡ self.old.most) × (self.new.ended ≡ self.old.ended) }
        ensures all { result ≡ found.Nothing → self.new.at ≡ self.new.end }
    {
        let ahead = &self.buffer[self.at..self.end];
        let count = ahead.len();
        match newline_of(ahead) {
            Some(count) => {
                if !self.append(count) {
                    return Found::TooLong;
                }
                self.at += 1;
                Found::Newline
            }
            None => {
                if !self.append(count) {
                    return Found::TooLong;
                }
                Found::Nothing
            }
        }
    }

    // Reads on, where nothing is ahead. It answers whether something then is, which at the end is not.
    fn fill<S: Source>(&mut self, source: &mut S) -> Result<bool, Failed>
        requires { self.old.at ≡ self.old.end }
        ensures rest { Keeps (rest_of [] self.old.ended (S.left source.old)) (rest_behind self.new
            (S.left source.new)) }
        ensures taken { Consumes (S.left source.old) (S.left source.new) (ahead_of self.new) }
        ensures line { self.new.line.items ≡ self.old.line.items }
        ensures most { self.new.most ≡ self.old.most }
        ensures more { IfOk result (λ more. more ≡ true → self.new.at < self.new.end) }
        ensures end { IfOk result (λ more. more ≡ false → self.new.ended ≡ true) }
        ensures stays { OnErr result ((self.new.at ≡ self.new.end) × (self.new.ended ≡ false)) }
        ensures quiet { self.old.ended ≡ true → (source.new ≡ source.old)
            × (self.new.ended ≡ true) }
        ensures drained { IsDrained self.old.ended (S.left source.old)
            → IsDrained self.new.ended (S.left source.new) }
        ensures later { S.faults source.old ≤ S.faults source.new }
        ensures cause { OnErr result (Rose (S.faults source.old) (S.faults source.new)) }
    {
        if self.ended {
            return Ok(false);
        }
        let count = source.read(&mut self.buffer)?;
        self.at = 0;
        self.end = count;
        self.ended = count == 0;
        Ok(count > 0)
    }

    // Takes a carriage return from the end of the line.
    fn strip(&mut self)
        ensures line { self.new.line.items ≡ strip_carriage_return self.old.line.items }
        ensures ahead { ahead_of self.new ≡ ahead_of self.old }
        ensures kept { (self.new.most ≡ self.old.most) × (self.new.ended ≡ self.old.ended) }
    {
        if self.line.last() == Some(&b'\r') {
            let _ = self.line.pop();
        }
    }

    /// Takes the first line of what is still to come: the line so far, the bytes ahead and what the
    /// source has left. The line has neither its newline nor a carriage return before that. It reads
    /// only where the bytes ahead hold no newline. After a fault nothing is lost.
    pub(crate) fn next_line<S: Source>(&mut self, source: &mut S) -> Result<LineEnd, Failed>
        ensures line { result ≡ Ok got.Line
            → TakesLine (rest_with_line self.old (S.left source.old)) self.new.line.items
            (rest_behind self.new (S.left source.new)) }
        ensures used { result ≡ Ok got.Line → UsesEnds 1 (unused_of self.old) (S.left source.old)
            (ahead_of self.new) (S.left source.new) }
        ensures end { result ≡ Ok got.End → IsAtEnd (rest_with_line self.old (S.left source.old)) }
        ensures ends { result ≡ Ok got.End → (self.new.line.items ≡ [])
            × (self.new.at ≡ self.new.end) × (self.new.ended ≡ true) }
        ensures long { result ≡ Ok got.TooLong
            → HasLongLine self.old.most (rest_with_line self.old (S.left source.old)) }
        ensures rest { OnErr result (Keeps (rest_with_line self.old (S.left source.old))
            (rest_with_line self.new (S.left source.new))) }
        ensures stays { OnErr result ((self.new.at ≡ self.new.end) × (self.new.ended ≡ false)) }
        ensures most { self.new.most ≡ self.old.most }
        ensures ahead { ReadsAhead self.old.most (unused_of self.old) (S.left source.old)
            (S.left source.new) }
        ensures quiet { (Unbroken (ahead_of self.old) → ⊥) → source.new ≡ source.old }
        ensures ended { self.old.ended ≡ true → (source.new ≡ source.old)
            × (self.new.ended ≡ true) }
        ensures drained { IsDrained self.old.ended (S.left source.old)
            → IsDrained self.new.ended (S.left source.new) }
        ensures later { S.faults source.old ≤ S.faults source.new }
        ensures cause { OnErr result (Rose (S.faults source.old) (S.faults source.new)) }
    {
        loop {
            match self.take_ahead() {
                Found::Newline => {
                    self.strip();
                    return Ok(LineEnd::Line);
                }
                Found::TooLong => return Ok(LineEnd::TooLong),
                Found::Nothing => {}
            }
            if !self.fill(source)? {
                if self.line.is_empty() {
                    return Ok(LineEnd::End);
                }
                return Ok(LineEnd::Line);
            }
        }
    }

    /// The line that was taken last.
    pub(crate) fn line(&self) -> &[u8]
        ensures { result.now ≡ self.now.line.items }
    {
        self.line.as_slice()
    }

    /// Begins a new line.
    pub(crate) fn clear(&mut self)
        ensures line { self.new.line.items ≡ [] }
        ensures ahead { ahead_of self.new ≡ ahead_of self.old }
        ensures kept { (self.new.most ≡ self.old.most) × (self.new.ended ≡ self.old.ended) }
    {
        self.line.clear();
    }
}
