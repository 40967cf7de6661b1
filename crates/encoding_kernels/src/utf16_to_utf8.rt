//! UTF-16 to UTF-8 by blocks of sixteen code units. A block stores forward: after its own bytes it may change up to
//! sixteen, which later units overwrite, since each unit has at least one byte. `text` has the calls, and loops over
//! the `kinds` of blocks; each kind has a module.

pub mod bytes;
mod kinds;
mod mixed;
mod pairs;
pub mod tail;
pub mod text;
mod three_byte;
pub(crate) mod two_byte;
