//! Bytes, at most six, and their text for a decoder of each encoding, with each handling of byte order marks. The text
//! and the number of malformed sequences are those of Python's decoders with an error handler that counts, after the
//! mark that "decode" of the Encoding Standard removes.

use encoding_streams::encoding::{BomHandling, Encoding};
use test_support::rows::{Bytes, Row, Units};

/// What a row has: what the decoder is, the bytes, and their text in UTF-16 with the number of malformed sequences and
/// the encoding.
#[derive(Drop)]
pub struct Vector {
    pub bom: BomHandling,
    pub encoding: Encoding,
    pub bytes: Bytes,
    pub decided: Encoding,
    pub replaced: usize,
    pub units: Units,
}

/// The handling of marks and the encoding, the bytes, the encoding that decides with the number of malformed
/// sequences, and the code units.
pub const ROWS: &str = "\
sniff utf8 | | utf8 0 |
sniff utf8 | EF | utf8 1 | FFFD
sniff utf8 | EF BB | utf8 1 | FFFD
sniff utf8 | EF BB BF | utf8 0 |
sniff utf8 | EF BB BF 61 | utf8 0 | 0061
sniff utf8 | EF BB 61 | utf8 1 | FFFD 0061
sniff utf8 | EF BB BF EF BB BF | utf8 0 | FEFF
sniff utf8 | EF BB BF C3 28 80 | utf8 2 | FFFD 0028 FFFD
sniff utf8 | 61 EF BB BF | utf8 0 | 0061 FEFF
sniff utf8 | EF BB BF FF FE | utf8 2 | FFFD FFFD
sniff utf8 | FF | utf8 1 | FFFD
sniff utf8 | FF FE | utf16le 0 |
sniff utf8 | FF FE 61 00 | utf16le 0 | 0061
sniff utf8 | FF FE FF FE | utf16le 0 | FEFF
sniff utf8 | FF FE 3D D8 61 | utf16le 1 | FFFD
sniff utf8 | FF FE 69 DC 61 00 | utf16le 1 | FFFD 0061
sniff utf8 | FF 61 | utf8 1 | FFFD 0061
sniff utf8 | FE | utf8 1 | FFFD
sniff utf8 | FE FF | utf16be 0 |
sniff utf8 | FE FF 00 61 | utf16be 0 | 0061
sniff utf8 | FE FF FE FF | utf16be 0 | FEFF
sniff utf8 | FE FF D8 3D DC | utf16be 1 | FFFD
sniff utf8 | FE FF EF BB BF | utf16be 1 | EFBB FFFD
sniff utf8 | 3D D8 69 DC 61 00 | utf8 2 | 003D FFFD 0069 FFFD 0061 0000
sniff utf16le | | utf16le 0 |
sniff utf16le | EF | utf16le 1 | FFFD
sniff utf16le | EF BB | utf16le 0 | BBEF
sniff utf16le | EF BB BF | utf8 0 |
sniff utf16le | EF BB BF 61 | utf8 0 | 0061
sniff utf16le | EF BB 61 | utf16le 1 | BBEF FFFD
sniff utf16le | EF BB BF EF BB BF | utf8 0 | FEFF
sniff utf16le | EF BB BF C3 28 80 | utf8 2 | FFFD 0028 FFFD
sniff utf16le | 61 EF BB BF | utf16le 0 | EF61 BFBB
sniff utf16le | EF BB BF FF FE | utf8 2 | FFFD FFFD
sniff utf16le | FF | utf16le 1 | FFFD
sniff utf16le | FF FE | utf16le 0 |
sniff utf16le | FF FE 61 00 | utf16le 0 | 0061
sniff utf16le | FF FE FF FE | utf16le 0 | FEFF
sniff utf16le | FF FE 3D D8 61 | utf16le 1 | FFFD
sniff utf16le | FF FE 69 DC 61 00 | utf16le 1 | FFFD 0061
sniff utf16le | FF 61 | utf16le 0 | 61FF
sniff utf16le | FE | utf16le 1 | FFFD
sniff utf16le | FE FF | utf16be 0 |
sniff utf16le | FE FF 00 61 | utf16be 0 | 0061
sniff utf16le | FE FF FE FF | utf16be 0 | FEFF
sniff utf16le | FE FF D8 3D DC | utf16be 1 | FFFD
sniff utf16le | FE FF EF BB BF | utf16be 1 | EFBB FFFD
sniff utf16le | 3D D8 69 DC 61 00 | utf16le 0 | D83D DC69 0061
sniff utf16be | | utf16be 0 |
sniff utf16be | EF | utf16be 1 | FFFD
sniff utf16be | EF BB | utf16be 0 | EFBB
sniff utf16be | EF BB BF | utf8 0 |
sniff utf16be | EF BB BF 61 | utf8 0 | 0061
sniff utf16be | EF BB 61 | utf16be 1 | EFBB FFFD
sniff utf16be | EF BB BF EF BB BF | utf8 0 | FEFF
sniff utf16be | EF BB BF C3 28 80 | utf8 2 | FFFD 0028 FFFD
sniff utf16be | 61 EF BB BF | utf16be 0 | 61EF BBBF
sniff utf16be | EF BB BF FF FE | utf8 2 | FFFD FFFD
sniff utf16be | FF | utf16be 1 | FFFD
sniff utf16be | FF FE | utf16le 0 |
sniff utf16be | FF FE 61 00 | utf16le 0 | 0061
sniff utf16be | FF FE FF FE | utf16le 0 | FEFF
sniff utf16be | FF FE 3D D8 61 | utf16le 1 | FFFD
sniff utf16be | FF FE 69 DC 61 00 | utf16le 1 | FFFD 0061
sniff utf16be | FF 61 | utf16be 0 | FF61
sniff utf16be | FE | utf16be 1 | FFFD
sniff utf16be | FE FF | utf16be 0 |
sniff utf16be | FE FF 00 61 | utf16be 0 | 0061
sniff utf16be | FE FF FE FF | utf16be 0 | FEFF
sniff utf16be | FE FF D8 3D DC | utf16be 1 | FFFD
sniff utf16be | FE FF EF BB BF | utf16be 1 | EFBB FFFD
sniff utf16be | 3D D8 69 DC 61 00 | utf16be 0 | 3DD8 69DC 6100
remove utf8 | | utf8 0 |
remove utf8 | EF | utf8 1 | FFFD
remove utf8 | EF BB | utf8 1 | FFFD
remove utf8 | EF BB BF | utf8 0 |
remove utf8 | EF BB BF 61 | utf8 0 | 0061
remove utf8 | EF BB 61 | utf8 1 | FFFD 0061
remove utf8 | EF BB BF EF BB BF | utf8 0 | FEFF
remove utf8 | EF BB BF C3 28 80 | utf8 2 | FFFD 0028 FFFD
remove utf8 | 61 EF BB BF | utf8 0 | 0061 FEFF
remove utf8 | EF BB BF FF FE | utf8 2 | FFFD FFFD
remove utf8 | FF | utf8 1 | FFFD
remove utf8 | FF FE | utf8 2 | FFFD FFFD
remove utf8 | FF FE 61 00 | utf8 2 | FFFD FFFD 0061 0000
remove utf8 | FF FE FF FE | utf8 4 | FFFD FFFD FFFD FFFD
remove utf8 | FF FE 3D D8 61 | utf8 3 | FFFD FFFD 003D FFFD 0061
remove utf8 | FF FE 69 DC 61 00 | utf8 3 | FFFD FFFD 0069 FFFD 0061 0000
remove utf8 | FF 61 | utf8 1 | FFFD 0061
remove utf8 | FE | utf8 1 | FFFD
remove utf8 | FE FF | utf8 2 | FFFD FFFD
remove utf8 | FE FF 00 61 | utf8 2 | FFFD FFFD 0000 0061
remove utf8 | FE FF FE FF | utf8 4 | FFFD FFFD FFFD FFFD
remove utf8 | FE FF D8 3D DC | utf8 4 | FFFD FFFD FFFD 003D FFFD
remove utf8 | FE FF EF BB BF | utf8 2 | FFFD FFFD FEFF
remove utf8 | 3D D8 69 DC 61 00 | utf8 2 | 003D FFFD 0069 FFFD 0061 0000
remove utf16le | | utf16le 0 |
remove utf16le | EF | utf16le 1 | FFFD
remove utf16le | EF BB | utf16le 0 | BBEF
remove utf16le | EF BB BF | utf16le 1 | BBEF FFFD
remove utf16le | EF BB BF 61 | utf16le 0 | BBEF 61BF
remove utf16le | EF BB 61 | utf16le 1 | BBEF FFFD
remove utf16le | EF BB BF EF BB BF | utf16le 0 | BBEF EFBF BFBB
remove utf16le | EF BB BF C3 28 80 | utf16le 0 | BBEF C3BF 8028
remove utf16le | 61 EF BB BF | utf16le 0 | EF61 BFBB
remove utf16le | EF BB BF FF FE | utf16le 1 | BBEF FFBF FFFD
remove utf16le | FF | utf16le 1 | FFFD
remove utf16le | FF FE | utf16le 0 |
remove utf16le | FF FE 61 00 | utf16le 0 | 0061
remove utf16le | FF FE FF FE | utf16le 0 | FEFF
remove utf16le | FF FE 3D D8 61 | utf16le 1 | FFFD
remove utf16le | FF FE 69 DC 61 00 | utf16le 1 | FFFD 0061
remove utf16le | FF 61 | utf16le 0 | 61FF
remove utf16le | FE | utf16le 1 | FFFD
remove utf16le | FE FF | utf16le 0 | FFFE
remove utf16le | FE FF 00 61 | utf16le 0 | FFFE 6100
remove utf16le | FE FF FE FF | utf16le 0 | FFFE FFFE
remove utf16le | FE FF D8 3D DC | utf16le 1 | FFFE 3DD8 FFFD
remove utf16le | FE FF EF BB BF | utf16le 1 | FFFE BBEF FFFD
remove utf16le | 3D D8 69 DC 61 00 | utf16le 0 | D83D DC69 0061
remove utf16be | | utf16be 0 |
remove utf16be | EF | utf16be 1 | FFFD
remove utf16be | EF BB | utf16be 0 | EFBB
remove utf16be | EF BB BF | utf16be 1 | EFBB FFFD
remove utf16be | EF BB BF 61 | utf16be 0 | EFBB BF61
remove utf16be | EF BB 61 | utf16be 1 | EFBB FFFD
remove utf16be | EF BB BF EF BB BF | utf16be 0 | EFBB BFEF BBBF
remove utf16be | EF BB BF C3 28 80 | utf16be 0 | EFBB BFC3 2880
remove utf16be | 61 EF BB BF | utf16be 0 | 61EF BBBF
remove utf16be | EF BB BF FF FE | utf16be 1 | EFBB BFFF FFFD
remove utf16be | FF | utf16be 1 | FFFD
remove utf16be | FF FE | utf16be 0 | FFFE
remove utf16be | FF FE 61 00 | utf16be 0 | FFFE 6100
remove utf16be | FF FE FF FE | utf16be 0 | FFFE FFFE
remove utf16be | FF FE 3D D8 61 | utf16be 1 | FFFE 3DD8 FFFD
remove utf16be | FF FE 69 DC 61 00 | utf16be 0 | FFFE 69DC 6100
remove utf16be | FF 61 | utf16be 0 | FF61
remove utf16be | FE | utf16be 1 | FFFD
remove utf16be | FE FF | utf16be 0 |
remove utf16be | FE FF 00 61 | utf16be 0 | 0061
remove utf16be | FE FF FE FF | utf16be 0 | FEFF
remove utf16be | FE FF D8 3D DC | utf16be 1 | FFFD
remove utf16be | FE FF EF BB BF | utf16be 1 | EFBB FFFD
remove utf16be | 3D D8 69 DC 61 00 | utf16be 0 | 3DD8 69DC 6100
off utf8 | | utf8 0 |
off utf8 | EF | utf8 1 | FFFD
off utf8 | EF BB | utf8 1 | FFFD
off utf8 | EF BB BF | utf8 0 | FEFF
off utf8 | EF BB BF 61 | utf8 0 | FEFF 0061
off utf8 | EF BB 61 | utf8 1 | FFFD 0061
off utf8 | EF BB BF EF BB BF | utf8 0 | FEFF FEFF
off utf8 | EF BB BF C3 28 80 | utf8 2 | FEFF FFFD 0028 FFFD
off utf8 | 61 EF BB BF | utf8 0 | 0061 FEFF
off utf8 | EF BB BF FF FE | utf8 2 | FEFF FFFD FFFD
off utf8 | FF | utf8 1 | FFFD
off utf8 | FF FE | utf8 2 | FFFD FFFD
off utf8 | FF FE 61 00 | utf8 2 | FFFD FFFD 0061 0000
off utf8 | FF FE FF FE | utf8 4 | FFFD FFFD FFFD FFFD
off utf8 | FF FE 3D D8 61 | utf8 3 | FFFD FFFD 003D FFFD 0061
off utf8 | FF FE 69 DC 61 00 | utf8 3 | FFFD FFFD 0069 FFFD 0061 0000
off utf8 | FF 61 | utf8 1 | FFFD 0061
off utf8 | FE | utf8 1 | FFFD
off utf8 | FE FF | utf8 2 | FFFD FFFD
off utf8 | FE FF 00 61 | utf8 2 | FFFD FFFD 0000 0061
off utf8 | FE FF FE FF | utf8 4 | FFFD FFFD FFFD FFFD
off utf8 | FE FF D8 3D DC | utf8 4 | FFFD FFFD FFFD 003D FFFD
off utf8 | FE FF EF BB BF | utf8 2 | FFFD FFFD FEFF
off utf8 | 3D D8 69 DC 61 00 | utf8 2 | 003D FFFD 0069 FFFD 0061 0000
off utf16le | | utf16le 0 |
off utf16le | EF | utf16le 1 | FFFD
off utf16le | EF BB | utf16le 0 | BBEF
off utf16le | EF BB BF | utf16le 1 | BBEF FFFD
off utf16le | EF BB BF 61 | utf16le 0 | BBEF 61BF
off utf16le | EF BB 61 | utf16le 1 | BBEF FFFD
off utf16le | EF BB BF EF BB BF | utf16le 0 | BBEF EFBF BFBB
off utf16le | EF BB BF C3 28 80 | utf16le 0 | BBEF C3BF 8028
off utf16le | 61 EF BB BF | utf16le 0 | EF61 BFBB
off utf16le | EF BB BF FF FE | utf16le 1 | BBEF FFBF FFFD
off utf16le | FF | utf16le 1 | FFFD
off utf16le | FF FE | utf16le 0 | FEFF
off utf16le | FF FE 61 00 | utf16le 0 | FEFF 0061
off utf16le | FF FE FF FE | utf16le 0 | FEFF FEFF
off utf16le | FF FE 3D D8 61 | utf16le 1 | FEFF FFFD
off utf16le | FF FE 69 DC 61 00 | utf16le 1 | FEFF FFFD 0061
off utf16le | FF 61 | utf16le 0 | 61FF
off utf16le | FE | utf16le 1 | FFFD
off utf16le | FE FF | utf16le 0 | FFFE
off utf16le | FE FF 00 61 | utf16le 0 | FFFE 6100
off utf16le | FE FF FE FF | utf16le 0 | FFFE FFFE
off utf16le | FE FF D8 3D DC | utf16le 1 | FFFE 3DD8 FFFD
off utf16le | FE FF EF BB BF | utf16le 1 | FFFE BBEF FFFD
off utf16le | 3D D8 69 DC 61 00 | utf16le 0 | D83D DC69 0061
off utf16be | | utf16be 0 |
off utf16be | EF | utf16be 1 | FFFD
off utf16be | EF BB | utf16be 0 | EFBB
off utf16be | EF BB BF | utf16be 1 | EFBB FFFD
off utf16be | EF BB BF 61 | utf16be 0 | EFBB BF61
off utf16be | EF BB 61 | utf16be 1 | EFBB FFFD
off utf16be | EF BB BF EF BB BF | utf16be 0 | EFBB BFEF BBBF
off utf16be | EF BB BF C3 28 80 | utf16be 0 | EFBB BFC3 2880
off utf16be | 61 EF BB BF | utf16be 0 | 61EF BBBF
off utf16be | EF BB BF FF FE | utf16be 1 | EFBB BFFF FFFD
off utf16be | FF | utf16be 1 | FFFD
off utf16be | FF FE | utf16be 0 | FFFE
off utf16be | FF FE 61 00 | utf16be 0 | FFFE 6100
off utf16be | FF FE FF FE | utf16be 0 | FFFE FFFE
off utf16be | FF FE 3D D8 61 | utf16be 1 | FFFE 3DD8 FFFD
off utf16be | FF FE 69 DC 61 00 | utf16be 0 | FFFE 69DC 6100
off utf16be | FF 61 | utf16be 0 | FF61
off utf16be | FE | utf16be 1 | FFFD
off utf16be | FE FF | utf16be 0 | FEFF
off utf16be | FE FF 00 61 | utf16be 0 | FEFF 0061
off utf16be | FE FF FE FF | utf16be 0 | FEFF FEFF
off utf16be | FE FF D8 3D DC | utf16be 1 | FEFF FFFD
off utf16be | FE FF EF BB BF | utf16be 1 | FEFF EFBB FFFD
off utf16be | 3D D8 69 DC 61 00 | utf16be 0 | 3DD8 69DC 6100";

/// Returns the encoding that a word names.
fn encoding_of(word: &str) -> Option<Encoding> {
    match word {
        "utf8" => Some(Encoding::Utf8),
        "utf16le" => Some(Encoding::Utf16Le),
        "utf16be" => Some(Encoding::Utf16Be),
        _ => None,
    }
}

/// Returns the handling of marks that a word names.
fn bom_of(word: &str) -> Option<BomHandling> {
    match word {
        "off" => Some(BomHandling::Off),
        "remove" => Some(BomHandling::Remove),
        "sniff" => Some(BomHandling::Sniff),
        _ => None,
    }
}

/// Returns what a row has.
pub fn vector_of(row: &mut Row<'_>) -> Option<Vector> {
    let (bom, encoding) = row.word().split_once(' ')?;
    let bytes = row.bytes();
    let (decided, replaced) = row.word().split_once(' ')?;
    Some(Vector {
        bom: bom_of(bom)?,
        encoding: encoding_of(encoding)?,
        bytes,
        decided: encoding_of(decided)?,
        replaced: row.number_of(replaced),
        units: row.units(),
    })
}
