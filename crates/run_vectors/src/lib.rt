//! Tests only: each public call of `encoding_runs`, by rows and published vectors; every offset at which a stream may
//! fail, and long input; and the calls of `utf8_check_library`. `tests/ROWS.md` has every row.
#![tactic(auto)]

#[cfg(test)]
mod assertions;
#[cfg(test)]
mod check_rows;
#[cfg(test)]
mod encoder_run_rows;
#[cfg(test)]
mod failing_streams;
#[cfg(test)]
mod long_streams;
#[cfg(test)]
mod malformation_rows;
#[cfg(test)]
mod mixed_runs;
#[cfg(test)]
mod repair_rows;
#[cfg(test)]
mod repair_stream_rows;
#[cfg(test)]
mod run_rows;
