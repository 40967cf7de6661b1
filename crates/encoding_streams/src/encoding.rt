//! The encodings that a decoder decodes, and their byte order marks: Encoding Standard, "BOM sniff".
ghost use Rattle.std.specs.Prelude.{◌≡◌, length, nat_eq};
ghost use Rattle.std.specs.List.{starts_with};
ghost use Rattle.std.specs.Option.{option_map};
ghost use Rattle.encoding_streams.specs.Marks.{mark, found_mark, begins_mark_of, begins_mark};

/// An encoding.
#[derive(Clone, Copy, Debug, PartialEq, Eq, Drop)]
pub enum Encoding {
    /// UTF-8.
    Utf8,
    /// UTF-16LE: the less significant byte comes first.
    Utf16Le,
    /// UTF-16BE: the more significant byte comes first.
    Utf16Be,
}

/// Which byte order marks a decoder looks for at the start of its stream. A mark that it finds is removed.
#[derive(Clone, Copy, Debug, PartialEq, Eq, Drop)]
pub enum BomHandling {
    /// None: U+FEFF is a character like any other.
    Off,
    /// That of its own encoding.
    Remove,
    /// Those of the three encodings: the mark decides the encoding.
    Sniff,
}

/// Why a call that replaces malformed sequences ended.
#[derive(Clone, Copy, Debug, PartialEq, Eq, Drop)]
pub enum CoderResult {
    /// All of the source was read.
    InputEmpty,
    /// The rest of the destination may be too short for what comes next. Call again with the unread rest of the source
    /// and a larger or emptied destination.
    OutputFull,
}

/// U+FEFF in UTF-8.
const UTF_8_MARK: [u8; 3] = [0xEF, 0xBB, 0xBF];

/// U+FEFF in UTF-16LE.
const UTF_16LE_MARK: [u8; 2] = [0xFF, 0xFE];

/// U+FEFF in UTF-16BE.
const UTF_16BE_MARK: [u8; 2] = [0xFE, 0xFF];

/// Returns whether the bytes start with the mark of the encoding.
fn starts_with_mark(encoding: Encoding, bytes: &[u8]) -> bool
    ensures { result ≡ starts_with nat_eq bytes.now (mark encoding) }
{
    match encoding {
        Encoding::Utf8 => bytes.starts_with(&UTF_8_MARK),
        Encoding::Utf16Le => bytes.starts_with(&UTF_16LE_MARK),
        Encoding::Utf16Be => bytes.starts_with(&UTF_16BE_MARK),
    }
}

/// Returns whether the bytes are the start of the mark of the encoding, and not all of it.
fn begins_mark_of(encoding: Encoding, bytes: &[u8]) -> bool
    ensures { result ≡ begins_mark_of encoding bytes.now }
{
    if bytes.len() >= mark_length(encoding) {
        return false;
    }
    match encoding {
        Encoding::Utf8 => UTF_8_MARK.starts_with(bytes),
        Encoding::Utf16Le => UTF_16LE_MARK.starts_with(bytes),
        Encoding::Utf16Be => UTF_16BE_MARK.starts_with(bytes),
    }
}

/// Returns the length of the mark of the encoding.
pub(crate) fn mark_length(encoding: Encoding) -> usize
    ensures { result ≡ length (mark encoding) }
{
    match encoding {
        Encoding::Utf8 => UTF_8_MARK.len(),
        Encoding::Utf16Le => UTF_16LE_MARK.len(),
        Encoding::Utf16Be => UTF_16BE_MARK.len(),
    }
}

/// Returns the encoding whose mark the bytes start with, if a decoder of `encoding` looks for that mark.
pub(crate) fn found_mark(bom: BomHandling, encoding: Encoding, bytes: &[u8]) -> Option<Encoding>
    ensures { result ≡ found_mark bom encoding bytes.now }
{
    match bom {
        BomHandling::Off => None,
        BomHandling::Remove => starts_with_mark(encoding, bytes).then_some(encoding),
        BomHandling::Sniff => {
            if starts_with_mark(Encoding::Utf8, bytes) {
                return Some(Encoding::Utf8);
            }
            if starts_with_mark(Encoding::Utf16Be, bytes) {
                return Some(Encoding::Utf16Be);
            }
            starts_with_mark(Encoding::Utf16Le, bytes).then_some(Encoding::Utf16Le)
        }
    }
}

/// Returns whether the bytes are the start of a mark that a decoder of `encoding` looks for, and not all of it.
pub(crate) fn begins_mark(bom: BomHandling, encoding: Encoding, bytes: &[u8]) -> bool
    ensures { result ≡ begins_mark bom encoding bytes.now }
{
    match bom {
        BomHandling::Off => false,
        BomHandling::Remove => begins_mark_of(encoding, bytes),
        BomHandling::Sniff => {
            begins_mark_of(Encoding::Utf8, bytes)
                || begins_mark_of(Encoding::Utf16Be, bytes)
                || begins_mark_of(Encoding::Utf16Le, bytes)
        }
    }
}

impl Encoding {
    /// Returns the encoding whose byte order mark `bytes` starts with, and the length of the mark: three bytes for
    /// UTF-8, or two. `None` if it starts with none.
    pub fn for_bom(bytes: &[u8]) -> Option<(Encoding, usize)>
        ensures { result ≡ option_map (λ e. (e, length (mark e)))
            (found_mark BomHandling.Sniff Encoding.Utf8 bytes.now) }
    {
        let encoding = found_mark(BomHandling::Sniff, Encoding::Utf8, bytes)?;
        Some((encoding, mark_length(encoding)))
    }
}
