//! Tests only: each public call of `encoding_text`, by rows and published vectors; every allocation that may fail, and
//! long results. `tests/ROWS.md` has every row.
#![tactic(auto)]

#[cfg(test)]
mod ascii_latin1_rows;
#[cfg(test)]
mod assertions;
#[cfg(test)]
mod bidi_rows;
#[cfg(test)]
mod borrowed_call_rows;
#[cfg(test)]
mod borrowed_rows;
#[cfg(test)]
mod bounded_rows;
#[cfg(test)]
mod constant_rows;
#[cfg(test)]
mod count_rows;
#[cfg(test)]
mod counted_rows;
#[cfg(test)]
mod decoder_chains;
#[cfg(test)]
mod decoder_rows;
#[cfg(test)]
mod encoder_rows;
#[cfg(test)]
mod long_results;
#[cfg(test)]
mod mixed_text;
#[cfg(test)]
mod pending_surrogate_rows;
#[cfg(test)]
mod replacing_rows;
#[cfg(test)]
mod surrogate_rows;
#[cfg(test)]
mod up_to_invalid_rows;
#[cfg(test)]
mod utf16_byte_rows;
#[cfg(test)]
mod utf16_rows;
