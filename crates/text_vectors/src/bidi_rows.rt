//! Right-to-left characters, code units and texts, and the checks for Latin1 before them.

use encoding_text::mem::{
    Latin1Bidi, check_str_for_latin1_and_bidi, check_utf8_for_latin1_and_bidi,
    check_utf16_for_latin1_and_bidi, is_char_bidi, is_str_bidi, is_utf8_bidi, is_utf16_bidi,
    is_utf16_code_unit_bidi,
};
use std::alloc::Global;
use std::test::Fail;

const RIGHT_TO_LEFT: [char; 15] = [
    '\u{590}',
    '\u{61C}',
    '\u{8FF}',
    '\u{200F}',
    '\u{202B}',
    '\u{202E}',
    '\u{2067}',
    '\u{FB50}',
    '\u{FDFF}',
    '\u{FE70}',
    '\u{FEFE}',
    '\u{10800}',
    '\u{10FFF}',
    '\u{1E800}',
    '\u{1EFFF}',
];

const LEFT_TO_RIGHT: [char; 7] = [
    '\u{61}',
    '\u{3B1}',
    '\u{3041}',
    '\u{1F4A9}',
    '\u{FE00}',
    '\u{202C}',
    '\u{FEFF}',
];

/// Returns the text of the characters with `letters` letters on either side.
fn between_letters(alloc: Global, letters: usize, characters: &str) -> Result<String, Fail> {
    let mut text = String::new(alloc);
    for _ in 0..letters {
        text.push('a')?;
    }
    text.push_str(characters)?;
    for _ in 0..letters {
        text.push('a')?;
    }
    Ok(text)
}

/// Returns the UTF-16 of the text.
fn units_of(alloc: Global, text: &str) -> Result<Vec<u16>, Fail> {
    let mut units = Vec::new(alloc);
    for c in text.chars() {
        units.extend_from_slice(c.encode_utf16(&mut [0; 2]))?;
    }
    Ok(units)
}

/// Returns whether all checks of the text have these results.
fn text_is(alloc: Global, text: &str, bidi: bool, class: Latin1Bidi) -> Result<bool, Fail> {
    let units = units_of(alloc, text)?;
    Ok(
        is_str_bidi(text) == bidi
            && is_utf8_bidi(text.as_bytes()) == bidi
            && is_utf16_bidi(&units) == bidi
            && check_str_for_latin1_and_bidi(text) == class
            && check_utf8_for_latin1_and_bidi(text.as_bytes()) == class
            && check_utf16_for_latin1_and_bidi(&units) == class,
    )
}

/// Returns the class of a text of ASCII and the character.
fn class_of(c: char, bidi: bool) -> Latin1Bidi {
    if bidi {
        Latin1Bidi::Bidi
    } else if u32::from(c) <= 0xFF {
        Latin1Bidi::Latin1
    } else {
        Latin1Bidi::LeftToRight
    }
}

/// Returns whether the checks of the character, and of texts that have it between letters, have this result.
fn character_is(alloc: Global, c: char, bidi: bool) -> Result<bool, Fail> {
    let mut bytes = [0; 4];
    let character = c.encode_utf8(&mut bytes);
    let mut holds = is_char_bidi(c) == bidi;
    for letters in [0, 1, 7, 8, 15, 16, 17, 33] {
        let text = between_letters(alloc, letters, character)?;
        holds = holds && text_is(alloc, &text, bidi, class_of(c, bidi))?;
    }
    Ok(holds)
}

#[test]
fn characters_between_letters(rt: HostRuntime) -> Result<(), Fail> {
    for c in RIGHT_TO_LEFT {
        assert!(rt; character_is(rt.alloc(), c, true)?, "{c:?}");
    }
    for c in LEFT_TO_RIGHT {
        assert!(rt; character_is(rt.alloc(), c, false)?, "{c:?}");
    }
    Ok(())
}

/// Returns whether the checks of the code unit, and of units that have it between letters, have this result.
fn unit_is(unit: u16, bidi: bool) -> bool {
    let mut units = [0x61; 41];
    for at in 0..41 {
        units[at] = unit;
        if is_utf16_bidi(&units) != bidi || is_utf16_bidi(&units[at..]) != bidi {
            return false;
        }
        units[at] = 0x61;
    }
    is_utf16_code_unit_bidi(unit) == bidi
}

#[test]
fn units_between_letters(rt: HostRuntime) {
    for unit in [
        0x0590, 0x061C, 0x08FF, 0x200F, 0x202B, 0x202E, 0x2067, 0xFB50, 0xFDFF, 0xFE70, 0xFEFE,
        0xFB1D, 0xD802, 0xD803, 0xD83A, 0xD83B,
    ] {
        assert!(rt; unit_is(unit, true), "{unit}");
    }
    for unit in [
        0x0061, 0x03B1, 0x3041, 0xFE00, 0x202C, 0xFEFF, 0x0062, 0xD801,
    ] {
        assert!(rt; unit_is(unit, false), "{unit}");
    }
}

#[test]
fn one_of_several(rt: HostRuntime) -> Result<(), Fail> {
    for letters in 0..40 {
        let text = between_letters(rt.alloc(), letters, "\u{590}\u{3041}")?;
        let holds = text_is(rt.alloc(), &text, true, Latin1Bidi::Bidi)?;
        assert!(rt; holds, "{letters}");
    }
    Ok(())
}

/// Returns whether a high surrogate decides for its pair, and also if it is unpaired.
fn high_surrogates_decide() -> bool {
    is_utf16_bidi(&[0xD802, 0xDC00])
        && !is_utf16_bidi(&[0xD801, 0xDC00])
        && is_utf16_bidi(&[0xD802])
        && !is_utf16_bidi(&[0xD801])
}

#[test]
fn halves_of_pairs(rt: HostRuntime) {
    assert!(rt; high_surrogates_decide());
}

/// They count as right-to-left, and so not as Latin1.
#[test]
fn ill_formed_bytes_are_right_to_left(rt: HostRuntime) {
    let bytes = [
        [0xC3, 0x61],
        [0x61, 0xC3],
        [0xED, 0xA0],
        [0x80, 0x61],
        [0x61, 0xFF],
    ];
    for two in &bytes {
        let class = check_utf8_for_latin1_and_bidi(two);
        assert!(rt; is_utf8_bidi(two) && class == Latin1Bidi::Bidi);
    }
    assert!(rt; !is_utf8_bidi(&[]));
}

/// Returns whether bytes are of their classes.
fn bytes_are_distinguished() -> bool {
    check_utf8_for_latin1_and_bidi(&[0xC3]) == Latin1Bidi::Bidi
        && check_utf8_for_latin1_and_bidi(&[0xC4, 0x80]) == Latin1Bidi::LeftToRight
        && check_utf8_for_latin1_and_bidi(&[0xC3, 0xBF]) == Latin1Bidi::Latin1
        && check_utf8_for_latin1_and_bidi(&[0xE2, 0x80, 0x8F]) == Latin1Bidi::Bidi
        && check_utf8_for_latin1_and_bidi(&[]) == Latin1Bidi::Latin1
}

/// Returns whether code units are of their classes.
fn units_are_distinguished() -> bool {
    check_utf16_for_latin1_and_bidi(&[0x00FF]) == Latin1Bidi::Latin1
        && check_utf16_for_latin1_and_bidi(&[0x0100]) == Latin1Bidi::LeftToRight
        && check_utf16_for_latin1_and_bidi(&[0x05D0]) == Latin1Bidi::Bidi
        && check_utf16_for_latin1_and_bidi(&[0xD800]) == Latin1Bidi::LeftToRight
}

#[test]
fn classes(rt: HostRuntime) {
    assert!(rt; bytes_are_distinguished());
    assert!(rt; units_are_distinguished());
}
