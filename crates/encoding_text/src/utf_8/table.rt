//! A table whose bits say which second bytes may follow which first bytes, and the two formulas that decide sequences
//! of three and of four bytes by it.
ghost use Rattle.std.specs.Prelude.{◌≡◌, ◌≢◌, ◌↔◌, ◌+◌, ◌≤◌, [], ◌∷◌};
ghost use Rattle.encoding_definitions.specs.Sequence.{IsSequence, three_byte_formula, four_byte_formula};

/// An entry for each second byte, followed by one for each first byte from 0x80 on. The two lowest bits of each are
/// zero. A byte may follow the first byte of a sequence of three or four if and only if their entries have no bit in
/// common.
pub struct Utf8Data {
    pub table: [u8; 384],
}

/// The entries.
pub const UTF8_DATA: Utf8Data = Utf8Data {
    table: [
        // second byte 00 to 7F
        252, 252, 252, 252, 252, 252, 252, 252, 252, 252, 252, 252, 252, 252, 252, 252, 252, 252,
        252, 252, 252, 252, 252, 252, 252, 252, 252, 252, 252, 252, 252, 252, 252, 252, 252, 252,
        252, 252, 252, 252, 252, 252, 252, 252, 252, 252, 252, 252, 252, 252, 252, 252, 252, 252,
        252, 252, 252, 252, 252, 252, 252, 252, 252, 252, 252, 252, 252, 252, 252, 252, 252, 252,
        252, 252, 252, 252, 252, 252, 252, 252, 252, 252, 252, 252, 252, 252, 252, 252, 252, 252,
        252, 252, 252, 252, 252, 252, 252, 252, 252, 252, 252, 252, 252, 252, 252, 252, 252, 252,
        252, 252, 252, 252, 252, 252, 252, 252, 252, 252, 252, 252, 252, 252, 252, 252, 252, 252,
        252, 252,
        // 80 to 8F
        84, 84, 84, 84, 84, 84, 84, 84, 84, 84, 84, 84, 84, 84, 84, 84,
        // 90 to 9F
        148, 148, 148, 148, 148, 148, 148, 148, 148, 148, 148, 148, 148, 148, 148, 148,
        // A0 to BF, and C0 to FF
        164, 164, 164, 164, 164, 164, 164, 164, 164, 164, 164, 164, 164, 164, 164, 164, 164, 164,
        164, 164, 164, 164, 164, 164, 164, 164, 164, 164, 164, 164, 164, 164, 252, 252, 252, 252,
        252, 252, 252, 252, 252, 252, 252, 252, 252, 252, 252, 252, 252, 252, 252, 252, 252, 252,
        252, 252, 252, 252, 252, 252, 252, 252, 252, 252, 252, 252, 252, 252, 252, 252, 252, 252,
        252, 252, 252, 252, 252, 252, 252, 252, 252, 252, 252, 252, 252, 252, 252, 252, 252, 252,
        252, 252, 252, 252, 252, 252,
        // first byte 80 to C1, and C2 to DF
        4, 4, 4, 4, 4, 4, 4, 4, 4, 4, 4, 4, 4, 4, 4, 4, 4, 4, 4, 4, 4, 4, 4, 4, 4, 4, 4, 4, 4, 4,
        4, 4, 4, 4, 4, 4, 4, 4, 4, 4, 4, 4, 4, 4, 4, 4, 4, 4, 4, 4, 4, 4, 4, 4, 4, 4, 4, 4, 4, 4,
        4, 4, 4, 4, 4, 4, 8, 8, 8, 8, 8, 8, 8, 8, 8, 8, 8, 8, 8, 8, 8, 8, 8, 8, 8, 8, 8, 8, 8, 8,
        8, 8, 8, 8, 8, 8,
        // E0 to EF
        16, 8, 8, 8, 8, 8, 8, 8, 8, 8, 8, 8, 8, 32, 8, 8,
        // F0 to F4
        64, 8, 8, 8, 128,
        // F5 to FF
        4, 4, 4, 4, 4, 4, 4, 4, 4, 4, 4,
    ],
};

/// What the table says of four bytes. The first three, or all of them, are well-formed if and only if their formula has
/// one certain value. It never has that value for a first byte of 0x80 to 0xC1 (three bytes) or from 0xF5 on (four).
#[tactic(auto, using(crate::proofs::TableLemmas::formulas))]
pub fn law_table(lead: u8, second: u8, third: u8, fourth: u8)
    ensures three { 0xE0 ≤ lead → lead ≤ 0xEF
        → (three_byte_formula UTF8_DATA.table lead second third ≡ 2) ↔ IsSequence
        (lead ∷ second ∷ third ∷ []) }
    ensures low { 0x80 ≤ lead → lead ≤ 0xC1
        → three_byte_formula UTF8_DATA.table lead second third ≢ 2 }
    ensures four { 0xF0 ≤ lead → lead ≤ 0xF4
        → (four_byte_formula UTF8_DATA.table lead second third fourth ≡ 0x202)
        ↔ IsSequence (lead ∷ second ∷ third ∷ fourth ∷ []) }
    ensures high { 0xF5 ≤ lead
        → four_byte_formula UTF8_DATA.table lead second third fourth ≢ 0x202 }
{}
