//! Constants that decide how fast a call is and not what it returns. Each has its unit, its use, and the row of the
//! benchmark that decided it: how fast other values are next to it, above 1 being faster, for `x86-64-v2` on one of
//! four shared cores of 2.5 GHz, where 0.03 is noise.

use crate::simd::width::STRIDE;

/// In code units: after this much ASCII in a row the block loop from UTF-16 to UTF-8 stops, and the ASCII-prefix loop
/// takes over.
///
/// UTF-16 to UTF-8, JSON and code of 1 MiB: half as much 0.92, twice as much 1.04, without an end 1.07.
pub const ASCII_RUN: usize = 24 * STRIDE;

/// In code units: the most below U+0800 that are converted to UTF-8 before the next test for ASCII.
///
/// UTF-16 to UTF-8, 4 KiB: half as many, Latin 0.86 and code 1.09; twice as many, Latin 1.01 and code 0.88.
pub const TWO_BYTE_RUN: usize = 6 * STRIDE;

/// In code units: the most of any class that are converted to UTF-8 before the next test for one class.
///
/// UTF-16 to UTF-8, 4 KiB: half as many, CJK 1.05 and CJK with ASCII 0.94; twice as many, CJK 0.92 and CJK with ASCII
/// 1.02; without an end, CJK 0.53.
pub const MIXED_RUN: usize = 8 * STRIDE;

/// In bytes: how far the length of UTF-8 is added lane by lane until the lanes are summed and ASCII is tested for.
///
/// `utf16_length_from_utf8`, 4 KiB: with 256, logs 0.70 and code 0.76; with 64, logs 1.27 and Latin 0.92.
pub const UTF8_LENGTH_SPAN: usize = 128;

/// In code units: how far the length of UTF-16 is added lane by lane until the lanes are summed and ASCII is tested
/// for.
///
/// `utf8_length_from_utf16`: with 128, logs of 4 KiB 1.25 and Latin of 1 MiB 0.92; with 512, logs 0.82 and Latin
/// 1.02.
pub const UTF16_LENGTH_SPAN: usize = 256;

/// In bytes: how far the lengths of Latin1 are added lane by lane until the lanes are summed.
///
/// `utf8_length_from_latin1`, 4 KiB of any kind: with 512, 0.93; with 2,032, the most that a lane can count, 1.05.
pub const LATIN1_LENGTH_SPAN: usize = 1024;

/// In bytes: the longest slice that is copied by vectors. A longer one is copied by the C library.
///
/// `repair_slice` and `decode_to_utf8_raw`, ASCII of 200 to 256 bytes: with 128, 0.94.
pub const LONGEST_VECTOR_COPY: usize = 256;

/// In bytes: how much is validated before it is scanned for right-to-left characters, so that it is still in the
/// nearest cache.
///
/// `is_utf8_bidi`, Latin of 16 MiB: with 1,024, 0.88; as one piece, 0.72. With 8,192, a text with a right-to-left
/// character near its start 0.74.
pub const VALIDATED_PIECE: usize = 4096;

/// In bytes: how much is validated before it is converted to UTF-16. Each piece ends with a text that is too short
/// for a group.
///
/// Decoding to UTF-16, 5,000 bytes to 900 KB, in a build without the toolchain: with 4,096, HTML, Chinese, prose and
/// Russian 0.94 to 0.97, logs 0.92 to 0.97; with 8,192, 0.97 to 1.00; with 32,768, 0.98 to 1.01.
pub const CONVERTED_PIECE: usize = 16384;

/// In bytes: how much is validated before it is converted to UTF-16, if it begins with a character and a run of
/// ASCII. A source of at most twice as much stays in the nearest cache, so there such a run is copied at once.
///
/// Decoding ASCII with a character in 2,000 bytes, 16 KiB: if all runs are copied at once, 1.12, and for `x86-64-v3`
/// 0.86. In an earlier timing for `x86-64-v3`, next to another build: 1.00, with 16,384 1.05, with 1,024 0.85.
pub const CONVERTED_RUN: usize = 4096;

/// In bytes, a multiple of two blocks: how much more ASCII is skipped after two blocks of it, before the ASCII prefix
/// takes over.
///
/// `utf8_valid_up_to`, 16 KiB, in a build without the toolchain: with 500, logs 0.86, JSON 0.94, ASCII with a
/// character in 10,000 bytes 1.02; with 2,000, 1.00, 1.03, 0.97; without an end, 1.01, 1.04, 0.90.
pub const MOST_SKIPPED: usize = 1024;

/// In blocks of 32 code units: the most that are tested for right-to-left units until the next test for units below
/// U+0590. A scan begins with one, and each such test that finds fewer than `LOW_UNITS` adds one.
///
/// `is_utf16_bidi`, 16,384 code units, in a build without the toolchain: with four, prose 0.90, Chinese and chat
/// 0.93; with sixteen, 1.02 to 1.05, and of 1,000 code units 0.98 to 1.00.
pub const MOST_UNIT_BLOCKS: usize = 8;

/// In code units. A skip over at least this many units below U+0590 is tried again after every block.
///
/// `is_utf16_bidi`, 16,384 code units, in a build without the toolchain: with 64, prose 0.94, ASCII with a dash in 96
/// units 0.95, in 150 units 1.07; with 128, prose 1.03, with a dash in 96 units 1.06, in 150 units 0.93.
pub const LOW_UNITS: usize = 96;

/// In blocks of 64 bytes: the most that are tested for right-to-left characters until the next test for lower bytes,
/// which are below D6 or of punctuation. A scan begins with one, and each such test that finds fewer than `LOW_BYTES`
/// adds one.
///
/// `is_utf8_bidi`, 1,000 bytes to 16 KiB, in a build without the toolchain: with four, Chinese 0.96 and chat 0.96 to
/// 0.99; with sixteen, 1.00 to 1.01.
pub const MOST_BYTE_BLOCKS: usize = 8;

/// In bytes. A skip over at least this many low bytes is tried again after every block.
///
/// `is_utf8_bidi`, 1,000 bytes to 16 KiB, in a build without the toolchain: with 64, chat 0.95 to 0.98; with 256,
/// chat 1.01 to 1.02, the rest 0.99 to 1.00.
pub const LOW_BYTES: usize = 128;

/// In blocks of sixteen bytes: how many go from UTF-8 to Latin1 after a test for ASCII until the next.
///
/// UTF-8 to Latin1, 4 KiB, each block stored by itself: with one, code 0.92 and logs 1.02; with four, logs 0.93 and
/// code 0.95. Now both blocks are stored at once, so no other value is proved.
pub const BLOCKS_BEFORE_RETEST: usize = 2;

/// In blocks: how many after one with surrogates are tested for pairs at once.
///
/// `utf16_valid_up_to`: with none, emoji of 1 MiB 0.80 and logs of 4 KiB 1.16; with 16, emoji 1.08 and logs 0.94.
pub const PAIRED_BLOCKS_BEFORE_RETEST: usize = 8;
