//! Records of CSV in sound and in damaged UTF-8.

use crate::reader::Faulty;
use csv::{ErrorKind, StringRecord};
use csv_example::read_records;
use std::alloc::{AllocError, Global};
use std::test::Fail;

/// Bytes, and their records: a bar after each field, and a line feed after each record. They are those of Python's
/// module `csv` over the text that `bytes.decode` returns with errors="replace", without the byte order mark.
const ROWS: [(&[u8], &str); 6] = [
    (b"", ""),
    (b"a,b\n1,2\n", "a|b|\n1|2|\n"),
    (
        b"\"x, y\",\"say \"\"hi\"\"\"\r\nz,\xE2\x98\x83\n",
        "x, y|say \"hi\"|\nz|\u{2603}|\n",
    ),
    (
        b"caf\xE9,\xF0\x9F\x92\n\xFF,b",
        "caf\u{FFFD}|\u{FFFD}|\n\u{FFFD}|b|\n",
    ),
    (
        b"\"\xE2\x98\",\xF0\x9F\x92\xA9\n\"\xC3\n\",\"\"\n",
        "\u{FFFD}|\u{1F4A9}|\n\u{FFFD}\n||\n",
    ),
    (b"\xEF\xBB\xBFa\n", "a|\n"),
];

/// Returns the records as the rows have them.
fn shown(alloc: Global, records: &[StringRecord]) -> Result<String, AllocError> {
    let mut text = String::new(alloc);
    for record in records {
        for field in record.iter() {
            text.push_str(field)?;
            text.push('|')?;
        }
        text.push('\n')?;
    }
    Ok(text)
}

#[test]
fn reads_records(rt: HostRuntime) -> Result<(), Fail> {
    for (bytes, records) in &ROWS {
        let read = read_records(rt.alloc(), *bytes)?;
        let text = shown(rt.alloc(), &read)?;
        assert!(rt; text.as_str() == *records, "{records}");
    }
    Ok(())
}

#[test]
fn reads_more_than_each_buffer(rt: HostRuntime) -> Result<(), Fail> {
    let mut bytes = Vec::new(rt.alloc());
    let mut text = String::new(rt.alloc());
    for _ in 0..3_000 {
        bytes.extend_from_slice(b"caf\xE9,\xE2\x98\x83\n")?;
        text.push_str("caf\u{FFFD}|\u{2603}|\n")?;
    }
    let read = read_records(rt.alloc(), bytes.as_slice())?;
    assert!(rt; read.len() == 3_000, "as many records");
    let shown = shown(rt.alloc(), &read)?;
    assert!(rt; shown == text, "the records of a long stream");
    Ok(())
}

#[test]
fn fails_as_its_reader_does(rt: HostRuntime) -> Result<(), Fail> {
    let failed = read_records(
        rt.alloc(),
        Faulty {
            rest: b"a,b\n",
            step: 1,
            fails: false,
        },
    );
    let kind = failed.err().ok_or("no error")?;
    assert!(rt;
        matches!(kind.kind(), ErrorKind::Io(_)),
        "the reader's error"
    );
    let unequal = read_records(rt.alloc(), b"a,b\nc\n".as_slice());
    let kind = unequal.err().ok_or("no error")?;
    assert!(rt;
        matches!(kind.kind(), ErrorKind::UnequalLengths { .. }),
        "records of two lengths"
    );
    Ok(())
}
