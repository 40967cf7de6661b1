//! The records of a CSV stream whose text may be damaged: the reader of CSV stands over `Utf8Reader`, which replaces each
//! malformed sequence with U+FFFD, so that every field is text.
#![tactic(auto)]

ghost use Rattle.std.specs.Prelude.{IfOk, IfSome, map};
ghost use Rattle.std.specs.List.{All};
ghost use Rattle.std.specs.Str.Lossy.{utf8_lossy};
ghost use Rattle.csv.specs.Reading.{AreRecords, default_config, strip_bom};
ghost use Rattle.csv.specs.Records.{AllText, fields_of};
ghost use Rattle.csv.specs.declared.parser.State.TheVariants as state;

use csv::{Error, ReaderBuilder, StringRecord};
use encoding_runs::reader::Utf8Reader;
use std::alloc::Global;
use std::io::Read;

/// Returns the records of a stream of CSV without a header row: those of its repaired text, without a byte order mark.
/// Fails with the reader's error, if an allocation fails, or if a record has another number of fields than the first.
pub fn read_records<R: Read + Drop>(alloc: Global, inner: R) -> Result<Vec<StringRecord>, Error>
    ensures records { IfOk result (λ records. IfSome (R.remaining inner)
        (λ bytes. AreRecords default_config state.StartRecord (strip_bom (utf8_lossy bytes))
        (map fields_of records.items))) }
    ensures text { IfOk result (λ records. All (λ r. AllText (fields_of r)) records.items) }
{
    let reader = ReaderBuilder::new()
        .has_headers(false)
        .from_reader(alloc, Utf8Reader::new(inner));
    let mut records = Vec::new(alloc);
    for record in reader.into_records() {
        if records.push(record?).is_err() {
            return Err(Error::out_of_memory());
        }
    }
    Ok(records)
}
