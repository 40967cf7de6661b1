//! Reads a stream that comes in pieces and may start with a byte order mark: its text in UTF-8, with U+FFFD for each
//! malformed sequence. The laws say more of such calls. Encoding Standard, "decode".
#![tactic(auto)]

mod marked_text;
mod streams;
mod whole_streams;

ghost use Rattle.std.specs.Prelude.{◌<◌, [], encode_utf8, IfOk};
ghost use Rattle.encoding_streams.specs.Decoders.{YieldText};
ghost use Rattle.encoding_streams.specs.Marks.{without_mark};
ghost use Rattle.encoding_streams.specs.declared.encoding.BomHandling.{BomHandling};
ghost use Rattle.decoder_example.specs.Streams.{AppendsText};

use encoding_streams::decoder::Decoder;
use encoding_streams::encoding::Encoding;
pub use marked_text::read_marked_text;
use std::alloc::{AllocError, Global};
pub use streams::{law_incomplete_stays, law_next_stream, law_whole_text, law_yielded_stays};
pub use whole_streams::{law_same_calls, law_text_of_utf16, law_whole_stream, law_whole_utf16};

/// The text of a stream, in UTF-8.
#[derive(Drop)]
pub struct StreamText {
    /// The text, without the mark.
    pub text: Vec<u8>,
    /// The encoding of the stream: that of its mark, if it has one.
    pub encoding: Encoding,
    /// The number of malformed sequences replaced by U+FFFD.
    pub replaced: usize,
}

/// Decodes a piece, and appends its text. Returns the number of malformed sequences replaced. `last` says that no piece
/// follows. An `Err` means that an allocation failed.
///
/// The destination has the queried length, so one call reads all of the piece.
fn append_text(
    decoder: &mut Decoder,
    piece: &[u8],
    last: bool,
    text: &mut Vec<u8>,
) -> Result<usize, AllocError>
    ensures { IfOk result (λ replaced. AppendsText decoder.old piece.now last text.old.items
        text.new.items replaced decoder.new) }
{
    let at = text.len();
    let Some(room) = decoder.max_utf8_buffer_length(piece.len()) else {
        return Err(AllocError);
    };
    let Some(end) = at.checked_add(room) else {
        return Err(AllocError);
    };
    text.resize(end, 0)?;
    let (_, _, written, replaced) = decoder.decode_to_utf8(piece, &mut text[at..], last);
    text.truncate(at + written);
    Ok(replaced)
}

/// Decodes a stream that comes in pieces of `length` bytes, of which the last may be shorter. Its byte order mark decides
/// the encoding. Without one it is `encoding`. An `Err` means that an allocation failed.
///
/// The pieces cut characters and the mark anywhere: what is incomplete is pending until the next piece.
pub fn decode_stream(
    alloc: Global,
    encoding: Encoding,
    bytes: &[u8],
    length: usize,
) -> Result<StreamText, AllocError>
    requires { 0 < length }
    ensures { IfOk result (λ stream. YieldText encode_utf8
        (without_mark BomHandling.Sniff encoding bytes.now)
        (stream.encoding, []) stream.text.items stream.replaced) }
{
    let mut decoder = encoding.new_decoder();
    let mut text = Vec::new(alloc);
    let mut replaced = 0;
    let mut rest = bytes;
    while !rest.is_empty() {
        let (piece, following) = rest.split_at(rest.len().min(length));
        replaced += append_text(&mut decoder, piece, false, &mut text)?;
        rest = following;
    }
    replaced += append_text(&mut decoder, &[], true, &mut text)?;
    Ok(StreamText {
        text,
        encoding: decoder.encoding(),
        replaced,
    })
}
