//! Runs of `serve` over streams in memory, which allocate nothing themselves.
//!
//! | Row | Test |
//! |---|---|
//! | an empty input: nothing is written, status 0 | `serve_rows::repairs` |
//! | `61 E2 98 5A`, `61 E0 80 80`, `61 C2 7F`: status 1 | `serve_rows::repairs` |
//! | one argument: status 2 and its line; the reader isn't read, the writer isn't flushed | `serve_rows::refuses_arguments` |
//! | a read fails: status 3 and its line, with the text of the final parts written | `serve_rows::reports_read_faults` |
//! | a write fails or writes no byte: status 4 and its line | `serve_rows::reports_write_faults` |
//! | the flush fails after all was written: status 4 and its line | `serve_rows::reports_flush_faults` |
//! | each allocation fails: the same statuses, texts and lines | `serve_rows::takes_no_memory` |
//! | the error stream fails: the same status | `serve_rows::ignores_faults_of_the_error_stream` |
//! | the bytes of one read are written by one write, before the next read | `lines::answers_what_is_typed_by_one_write` |
//!
//! No run over memory returns status 5, and `main` itself returns 6. The test of their lines is
//! `serve_rows::says_each_line`.
mod buffers;
mod lines;
mod long_streams;
mod peers;
mod serve_rows;
