//! Tables of constants: of the sixteen bytes that a nibble is looked up in, and of a row for each mask of lanes, which
//! lists what is kept of them.

/// A table of one of four kinds. `nibbles` has its sixteen entries twice, once for each sixteen lanes. The others have a
/// row for each mask and are built lane by lane, last lane first: each row of the later lanes yields one for each value
/// of the lane's bits.
///
/// `pairs` lists the index of a pair's first byte, or those of both bytes, by its bit. A row has four words.
///
/// `units` lists the indices of a lane's UTF-8 by its two bits. If neither is set, these are the third, last and second
/// byte, and if only the second is, the last and the second. Otherwise it is the first one. A row has three words of
/// indices and one with their number.
///
/// `lanes` lists the indices of a lane's two bytes if its bit is set. A row has two words.
macro_rules! table {
    (nibbles $($entry:expr),* $(,)?) => {
        [$($entry),*, $($entry),*]
    };
    (pairs [] $($row:expr),*) => {
        [$(
            ($row & 0xFFFF_FFFF) as u32,
            ($row >> 32 & 0xFFFF_FFFF) as u32,
            ($row >> 64 & 0xFFFF_FFFF) as u32,
            ($row >> 96) as u32
        ),*]
    };
    (pairs [$first:literal $($before:literal)*] $($row:expr),*) => {
        table!(pairs [$($before)*] $(
            $row << 8 | $first,
            $row << 16 | $first + 1 << 8 | $first
        ),*)
    };
    (units [] $($row:expr, $length:expr);*) => {
        [$(
            ($row & 0xFFFF_FFFF) as u32,
            ($row >> 32 & 0xFFFF_FFFF) as u32,
            ($row >> 64) as u32,
            $length
        ),*]
    };
    (units [$first:literal $($before:literal)*] $($row:expr, $length:expr);*) => {
        table!(units [$($before)*] $(
            $row << 24 | $first + 1 << 16 | $first + 3 << 8 | $first + 2, $length + 3;
            $row << 8 | $first, $length + 1;
            $row << 16 | $first + 1 << 8 | $first + 3, $length + 2;
            $row << 8 | $first, $length + 1
        );*)
    };
    (lanes [] $($row:expr),*) => {
        [$(
            ($row & 0xFFFF_FFFF_FFFF_FFFF) as u64,
            ($row >> 64) as u64
        ),*]
    };
    (lanes [$last:literal $($before:literal)*] $($row:expr),*) => {
        table!(lanes [$($before)*] $(
            $row,
            ($row & 0xFFFF_FFFF_FFFF_FFFF_FFFF_FFFF_FFFF) << 16 | $last
        ),*)
    };
}

pub(crate) use table;
