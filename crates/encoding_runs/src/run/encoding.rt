//! Runs of an encoder: one call for each turn. The rest of the destination is unchanged.
ghost use Rattle.std.specs.Prelude.{◌+◌, ◌*◌, ◌≤◌, length, take};
ghost use Rattle.encoding_definitions.specs.Prefixes.{WritesPrefix};
ghost use Rattle.encoding_text.specs.Encoding.{EncodeStep};
ghost use Rattle.encoding_runs.specs.Runs.{room_of, is_marked_last, Completes, EncodesByTurns};

use super::turns::Turn;
use encoding_text::utf_8::{EncoderResult, Utf8Encoder};

/// What a run of an encoder did.
#[derive(Debug, PartialEq, Eq, Drop)]
pub struct EncodeOutcome {
    /// The number of code units of the source that were read.
    pub read: usize,
    /// The number of bytes that were written.
    pub written: usize,
    /// The result of the last call, `None` if there are no turns.
    pub result: Option<EncoderResult>,
}

fn encode_turn(
    encoder: &mut Utf8Encoder,
    turn: &Turn,
    unread: &[u16],
    left: &mut [u8],
) -> (EncoderResult, usize, usize)
    ensures call { EncodeStep encoder.old (take turn.now.take unread.now)
        (room_of turn.now (length left.old))
        (is_marked_last turn.now (length unread.now)) result.0 result.1
        (take result.2 left.new) encoder.new }
    ensures within { result.1 ≤ length unread.now }
    ensures unchanged_after { WritesPrefix left.old left.new result.2 (take result.2 left.new) }
{
    let piece = turn.piece_length(unread.len());
    let room = turn.room_of(left.len());
    encoder.encode_from_utf16_raw(
        &unread[..piece],
        &mut left[..room],
        turn.is_marked_last(unread.len()),
    )
}

/// Encodes a source with one call for each turn, regardless of their results. Returns the totals and the last result.
///
/// A call takes the next unread code units, at most `take` of them, and the rest of `dst`, at most `room` bytes of it.
/// It is marked last if the turn's `last` is set and its piece reaches the end of `src`. So the run writes the UTF-8 of
/// the first parts of the pending surrogate and `src`, however the turns cut them. The rest of `dst` is unchanged.
///
/// At least `2 * src.len() + 2` turns encode all of `src` if each takes at least one code unit, has a `room` of at
/// least four bytes and has `last` set. For this `dst` must have at least the length that
/// `max_buffer_length_from_utf16_without_replacement` returns.
pub fn run_from_utf16(
    encoder: &mut Utf8Encoder,
    src: &[u16],
    turns: &[Turn],
    dst: &mut [u8],
) -> EncodeOutcome
    ensures delivers { EncodesByTurns encoder.old src.now turns.now dst.old dst.new
        result encoder.new }
    ensures completes { Completes EncoderResult.InputEmpty
        (λ n pending. 3 * (n + pending)) 4 encoder.old src.now turns.now
        (length dst.old) result.result }
{
    // Without turns no other contract says that at most one surrogate is pending.
    let room = encoder.max_buffer_length_from_utf16_without_replacement(0);
    prove!(room.is_some());
    let mut outcome = EncodeOutcome {
        read: 0,
        written: 0,
        result: None,
    };
    for turn in turns {
        let (result, read, written) = encode_turn(
            encoder,
            turn,
            &src[outcome.read..],
            &mut dst[outcome.written..],
        );
        outcome.read += read;
        outcome.written += written;
        outcome.result = Some(result);
    }
    outcome
}
