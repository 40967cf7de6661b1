//! The line and the column of a part.
ghost use Rattle.std.specs.Prelude.{◌≡◌, ◌+◌, ◌-◌, ◌<◌, ◌≤◌, length, map, drop, slice_index, encode_utf8};
ghost use Rattle.std.specs.Str.{chars};
ghost use Rattle.encoding_definitions.specs.Parts.{Character, IllFormed};
ghost use Rattle.utf8_check_library.specs.Lines.{CountsColumns, line_feeds, next_place, place_after};

use encoding_text::count::utf8_count;

/// What a column is.
#[derive(Clone, Copy, Debug, PartialEq, Eq)]
pub enum Columns {
    /// A character or a malformed sequence.
    Characters,
    /// A byte.
    Bytes,
}

/// Where a part is.
#[derive(Clone, Copy, Debug, PartialEq, Eq)]
pub(crate) struct Place {
    /// One more than the line feeds before it.
    pub(crate) line: u64,
    /// One more than the columns since the last line feed.
    pub(crate) column: u64,
}

/// The place of the first part.
pub(crate) const START: Place = Place { line: 1, column: 1 };

const LINE_FEED: u8 = 0xA;

/// The most bytes whose line feeds are counted in a byte: a whole number of vectors.
const SPAN: usize = 128;

/// Counts the line feeds of at most `SPAN` bytes. The count is a byte, so a lane of a vector has room for it.
#[inline(always)]
fn count_in_span(bytes: &[u8]) -> u8
    requires { length bytes.now ≤ 128 }
    ensures count { result ≡ line_feeds bytes.now }
    ensures few { result ≤ length bytes.now }
{
    let mut count: u8 = 0;
    for byte in bytes {
        count += u8::from(*byte == LINE_FEED);
    }
    count
}

/// Counts the line feeds.
fn count_line_feeds(bytes: &[u8]) -> usize
    ensures count { result ≡ line_feeds bytes.now }
    ensures few { result ≤ length bytes.now }
{
    let mut count = 0;
    let mut at = 0;
    while at < bytes.len() {
        let span = SPAN.min(bytes.len() - at);
        count += usize::from(count_in_span(&bytes[at..at + span]));
        at += span;
    }
    count
}

/// Returns the index after the last line feed, 0 if there is none.
fn after_last_line_feed(bytes: &[u8]) -> usize
    ensures within { result ≤ length bytes.now }
    ensures none_after { line_feeds (drop result bytes.now) ≡ 0 }
    ensures line_feed { 0 < result → slice_index bytes.now (result - 1) ≡ 10 }
{
    let mut start = bytes.len();
    while start > 0 && bytes[start - 1] != LINE_FEED {
        start -= 1;
    }
    start
}

/// Returns how many columns bytes without a line feed have.
fn width(bytes: &[u8], columns: Columns) -> usize
    ensures count { CountsColumns columns bytes.now result }
    ensures few { result ≤ length bytes.now }
{
    match columns {
        Columns::Characters => utf8_count(bytes),
        Columns::Bytes => bytes.len(),
    }
}

impl Place {
    /// Returns the place after the text.
    pub(crate) fn after_text(self, text: &str, columns: Columns) -> Place
        requires line { self.line + length text.now ≤ u64.MAX }
        requires column { self.column + length text.now ≤ u64.MAX }
        ensures { (result.line, result.column)
            ≡ place_after columns (self.line, self.column) (map Character (chars text.now)) }
    {
        let bytes = text.as_bytes();
        let line_feeds = count_line_feeds(bytes);
        if line_feeds == 0 {
            return Place {
                line: self.line,
                column: self.column + width(bytes, columns) as u64,
            };
        }
        let start = after_last_line_feed(bytes);
        Place {
            line: self.line + line_feeds as u64,
            column: width(&bytes[start..], columns) as u64 + 1,
        }
    }

    /// Returns the place after a character.
    pub(crate) fn after_character(self, character: char, columns: Columns) -> Place
        requires line { self.line + length (encode_utf8 character) < u64.MAX }
        requires column { self.column + length (encode_utf8 character) < u64.MAX }
        ensures { (result.line, result.column)
            ≡ next_place columns (self.line, self.column) (Character character) }
    {
        if character == '\n' {
            return Place {
                line: self.line + 1,
                column: 1,
            };
        }
        let width = match columns {
            Columns::Characters => 1,
            Columns::Bytes => character.len_utf8() as u64,
        };
        Place {
            line: self.line,
            column: self.column + width,
        }
    }

    /// Returns the place after a malformed sequence.
    pub(crate) fn after_malformed(self, bytes: &[u8], columns: Columns) -> Place
        requires column { self.column + length bytes.now < u64.MAX }
        ensures { (result.line, result.column)
            ≡ next_place columns (self.line, self.column) (IllFormed bytes.now) }
    {
        let width = match columns {
            Columns::Characters => 1,
            Columns::Bytes => bytes.len() as u64,
        };
        Place {
            line: self.line,
            column: self.column + width,
        }
    }
}
