//! Rows of `check` over streams in memory, of the arguments of `utf8_check`, and of names. The offsets are those that
//! Python's `bytes.decode` reports.

use std::alloc::Global;
use std::io::{Error, ErrorKind, Read};
use std::test::Fail;
use test_support::streams::{Input, Output};
use utf8_check_library::arguments::{Argument, argument_of};
use utf8_check_library::names::shown;
use utf8_check_library::{Columns, Fault, Mode, check};

/// Bytes with two malformed sequences.
const DAMAGED: &[u8] = b"one\ntwo \xE2\x98 three\n\xFF\n";

/// Their lines, of a file `t`.
const LINES: &str =
    "t:2:5: error: malformed UTF-8: E2 98: cut short (offset 8)\nt:3:1: error: malformed UTF-8: FF: byte of no character (offset 17)\n";

/// Bytes, and the lines of a file `t`.
const ROWS: [(&[u8], &str); 9] = [
    (b"", ""),
    (b"fine \xC3\xA9\n", ""),
    (
        b"\xE2",
        "t:1:1: error: malformed UTF-8: E2: cut short at the end (offset 0)\n",
    ),
    (
        b"\xE2Z",
        "t:1:1: error: malformed UTF-8: E2: cut short (offset 0)\n",
    ),
    (
        b"\n\xC3\xA9\x80",
        "t:2:2: error: malformed UTF-8: 80: unexpected continuation byte (offset 3)\n",
    ),
    (
        b"a\n\xC0",
        "t:2:1: error: malformed UTF-8: C0: byte of no character (offset 2)\n",
    ),
    (
        b"\n\n\xE0\x80\n",
        "t:3:1: error: malformed UTF-8: E0: overlong form (offset 2)\nt:3:2: error: malformed UTF-8: 80: unexpected continuation byte (offset 3)\n",
    ),
    (
        b"\xF0\x9F\x98\x80\xED\xA0",
        "t:1:2: error: malformed UTF-8: ED: surrogate (offset 4)\nt:1:3: error: malformed UTF-8: A0: unexpected continuation byte (offset 5)\n",
    ),
    (
        b"\xF4\x90\xF0\x9F\x98",
        "t:1:1: error: malformed UTF-8: F4: above U+10FFFF (offset 0)\nt:1:2: error: malformed UTF-8: 90: unexpected continuation byte (offset 1)\nt:1:3: error: malformed UTF-8: F0 9F 98: cut short at the end (offset 2)\n",
    ),
];

#[test]
fn rows_hold(rt: HostRuntime) -> Result<(), Fail> {
    let mut count = 0u32;
    for (bytes, lines) in &ROWS {
        for step in 1..9usize {
            let mut input = Input::of(bytes, step);
            let mut output = Output::that_takes_all();
            let malformed = check(
                "t",
                Columns::Characters,
                Mode::List,
                &mut input,
                &mut output,
            );
            assert!(rt; output.written() == lines.as_bytes(), "{lines}");
            assert!(rt;
                matches!(malformed, Ok(n) if n == lines.lines().count() as u64),
                "{lines}"
            );
        }
        count = count.saturating_add(1);
    }
    assert!(rt; count == 9);
    Ok(())
}

#[test]
fn counts_and_stops(rt: HostRuntime) -> Result<(), Fail> {
    let mut output = Output::that_takes_all();
    assert!(rt;
        matches!(
            check(
                "t",
                Columns::Characters,
                Mode::Count,
                &mut Input::of(DAMAGED, 3),
                &mut output
            ),
            Ok(2)
        )
    );
    let mut input = Input::of(DAMAGED, 1);
    assert!(rt;
        matches!(
            check(
                "t",
                Columns::Characters,
                Mode::Quiet,
                &mut input,
                &mut output
            ),
            Ok(1)
        )
    );
    assert!(rt; input.asked == 11);
    assert!(rt; output.written().is_empty());
    assert!(rt;
        matches!(
            check(
                "t",
                Columns::Characters,
                Mode::Quiet,
                &mut Input::of(b"fine", 1),
                &mut output
            ),
            Ok(0)
        )
    );
    Ok(())
}

#[test]
fn reports_read_faults(rt: HostRuntime) -> Result<(), Fail> {
    let mut output = Output::that_takes_all();
    let mut input = Input::that_fails(DAMAGED, ErrorKind::TimedOut);
    match check(
        "t",
        Columns::Characters,
        Mode::List,
        &mut input,
        &mut output,
    ) {
        Err(Fault::Read(error)) => assert!(rt; error.kind() == ErrorKind::TimedOut),
        _ => return Err(Fail::from("no read fault")),
    }
    assert!(rt; output.written() == LINES.as_bytes());
    Ok(())
}

#[test]
fn reports_write_faults(rt: HostRuntime) -> Result<(), Fail> {
    let mut output = Output::that_takes(40, Some(ErrorKind::BrokenPipe));
    match check(
        "t",
        Columns::Characters,
        Mode::List,
        &mut Input::of(DAMAGED, 9),
        &mut output,
    ) {
        Err(Fault::Write(error)) => assert!(rt; error.kind() == ErrorKind::BrokenPipe),
        _ => return Err(Fail::from("no write fault")),
    }
    assert!(rt; output.written() == &LINES.as_bytes()[..40]);
    let mut output = Output::that_takes(40, None);
    match check(
        "t",
        Columns::Characters,
        Mode::List,
        &mut Input::of(DAMAGED, 9),
        &mut output,
    ) {
        Err(Fault::Write(error)) => assert!(rt; error.kind() == ErrorKind::WriteZero),
        _ => return Err(Fail::from("no write fault")),
    }
    let mut output = Output::that_cannot_flush();
    let flushed = check(
        "t",
        Columns::Characters,
        Mode::List,
        &mut Input::of(DAMAGED, 9),
        &mut output,
    );
    assert!(rt; matches!(flushed, Err(Fault::Write(_))));
    Ok(())
}

/// More than a block, with a sequence across two reads of a whole block.
fn long_input(alloc: Global) -> Result<Vec<u8>, Fail> {
    let mut bytes = vec![in alloc; b'x'; 0xFFFF]?;
    bytes.extend_from_slice(b"\xE2\x98\n")?;
    let line = vec![in alloc; b'y'; 70_000]?;
    bytes.extend_from_slice(&line)?;
    bytes.push(0xFF)?;
    Ok(bytes)
}

#[test]
fn checks_long_inputs(rt: HostRuntime) -> Result<(), Fail> {
    let bytes = long_input(rt.alloc())?;
    let mut output = Output::that_takes_all();
    let malformed = check(
        "t",
        Columns::Characters,
        Mode::List,
        &mut Input::of(&bytes, 1_000_000),
        &mut output,
    );
    assert!(rt; matches!(malformed, Ok(2)));
    let lines =
        "t:1:65536: error: malformed UTF-8: E2 98: cut short (offset 65535)\nt:2:70001: error: malformed UTF-8: FF: byte of no character (offset 135538)\n";
    assert!(rt; output.written() == lines.as_bytes());
    Ok(())
}

/// Bytes, and their lines with columns in bytes.
const BYTE_ROWS: [(&[u8], &str); 3] = [
    (
        b"\n\xC3\xA9\x80",
        "t:2:3: error: malformed UTF-8: 80: unexpected continuation byte (offset 3)\n",
    ),
    (
        b"\xF0\x9F\x98\x80\xED\xA0",
        "t:1:5: error: malformed UTF-8: ED: surrogate (offset 4)\nt:1:6: error: malformed UTF-8: A0: unexpected continuation byte (offset 5)\n",
    ),
    (
        b"\xF0\x9F\x98a\xFF",
        "t:1:1: error: malformed UTF-8: F0 9F 98: cut short (offset 0)\nt:1:5: error: malformed UTF-8: FF: byte of no character (offset 4)\n",
    ),
];

#[test]
fn counts_columns_in_bytes(rt: HostRuntime) -> Result<(), Fail> {
    for (bytes, lines) in &BYTE_ROWS {
        for step in 1..9usize {
            let mut input = Input::of(bytes, step);
            let mut output = Output::that_takes_all();
            let malformed = check("t", Columns::Bytes, Mode::List, &mut input, &mut output);
            assert!(rt; malformed.is_ok(), "{lines}");
            assert!(rt; output.written() == lines.as_bytes(), "{lines}");
        }
    }
    Ok(())
}

/// Is interrupted before each read.
#[derive(Drop)]
struct Interrupted<'a> {
    inner: Input<'a>,
    is_next: bool,
}

impl Read for Interrupted<'_> {
    fn read(&mut self, buffer: &mut [u8]) -> Result<usize, Error> {
        self.is_next = !self.is_next;
        if self.is_next {
            return Err(Error::from(ErrorKind::Interrupted));
        }
        self.inner.read(buffer)
    }
}

#[test]
fn reads_again_after_an_interruption(rt: HostRuntime) -> Result<(), Fail> {
    let mut input = Interrupted {
        inner: Input::of(DAMAGED, 3),
        is_next: false,
    };
    let mut output = Output::that_takes_all();
    let malformed = check(
        "t",
        Columns::Characters,
        Mode::List,
        &mut input,
        &mut output,
    );
    assert!(rt; matches!(malformed, Ok(2)));
    assert!(rt; output.written() == LINES.as_bytes());
    Ok(())
}

#[test]
fn each_argument_asks_for_one_thing(rt: HostRuntime) -> Result<(), Fail> {
    let rows: [(&[u8], Argument); 18] = [
        (b"--list", Argument::Report(Mode::List)),
        (b"-l", Argument::Report(Mode::List)),
        (b"--count", Argument::Report(Mode::Count)),
        (b"-c", Argument::Report(Mode::Count)),
        (b"--quiet", Argument::Report(Mode::Quiet)),
        (b"-q", Argument::Report(Mode::Quiet)),
        (b"--column=byte", Argument::Columns(Columns::Bytes)),
        (
            b"--column=character",
            Argument::Columns(Columns::Characters),
        ),
        (b"--files0-from", Argument::NamesInNext),
        (b"--files0-from=f", Argument::NamesIn(14)),
        (b"-h", Argument::Help),
        (b"-V", Argument::Version),
        (b"--", Argument::EndOfOptions),
        (b"-", Argument::Input),
        (b"", Argument::Input),
        (b"caf\xE9", Argument::Input),
        (b"-x", Argument::Wrong("no such option")),
        (b"--lists", Argument::Wrong("no such option")),
    ];
    for (word, argument) in &rows {
        assert!(rt; argument_of(word) == *argument);
    }
    Ok(())
}

#[test]
fn names_are_shown(rt: HostRuntime) -> Result<(), Fail> {
    let rows: [(&[u8], &str); 5] = [
        (b"caf\xE9", "caf\\xE9"),
        (b"a\nb", "a\\nb"),
        (b"\xC3\xA9\xE2\x98/\xFF", "\u{e9}\\xE2\\x98/\\xFF"),
        (b"a\\b", "a\\b"),
        (b"", ""),
    ];
    for (name, text) in &rows {
        assert!(rt; shown(rt.alloc(), name)?.as_str() == *text, "{text}");
    }
    Ok(())
}
