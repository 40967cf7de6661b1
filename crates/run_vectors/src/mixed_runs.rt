//! The mixed text through each run that takes it whole, and through the search for what is malformed.

use encoding_runs::malformed::next_malformed;
use encoding_runs::repair::repair_block;
use encoding_runs::run::{Report, Turn, run_from_utf16, run_to_utf8, run_to_utf16};
use encoding_text::decoder::{DecoderResult, Utf8Decoder};
use encoding_text::utf_8::{EncoderResult, Utf8Encoder};
use test_support::mixed_text::{BYTES, UNITS};
use test_support::texts::are_written;

#[test]
fn runs_take_it(rt: HostRuntime) {
    let turns = [Turn {
        take: 36,
        room: 40,
        last: true,
    }];
    let mut reports = [Report {
        place: 0x71,
        length: 0x71,
    }];
    let mut units = [0x71; 40];
    let mut decoder = Utf8Decoder::new_inner();
    let outcome = run_to_utf16(&mut decoder, &BYTES, &turns, &mut units, &mut reports);
    assert!(rt; outcome.result == Some(DecoderResult::InputEmpty) && outcome.reports == 0);
    assert!(rt; outcome.read == 36 && outcome.written == 31 && are_written(&UNITS, &units, 31));
    let mut bytes = [0x71; 40];
    let outcome = run_to_utf8(&mut decoder, &BYTES, &turns, &mut bytes, &mut reports);
    assert!(rt; outcome.result == Some(DecoderResult::InputEmpty) && outcome.reports == 0);
    assert!(rt; outcome.read == 36 && outcome.written == 36 && are_written(&BYTES, &bytes, 36));
    let mut bytes = [0x71; 40];
    let outcome = run_from_utf16(&mut Utf8Encoder::new_inner(), &UNITS, &turns, &mut bytes);
    assert!(rt; outcome.result == Some(EncoderResult::InputEmpty));
    assert!(rt; outcome.read == 31 && outcome.written == 36 && are_written(&BYTES, &bytes, 36));
}

#[test]
fn nothing_is_malformed(rt: HostRuntime) {
    assert!(rt; next_malformed(&BYTES) == None);
    let mut bytes = [0x71; 44];
    let done = repair_block(&mut Utf8Decoder::new_inner(), &BYTES, &mut bytes, true);
    assert!(rt; done.finished && done.read == 36 && done.replaced == 0);
    assert!(rt; done.written == 36 && are_written(&BYTES, &bytes, 36));
}
