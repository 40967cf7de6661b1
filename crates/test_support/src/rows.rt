//! Tables of rows as text: a row has fields between bars, of words between spaces, which are mostly hexadecimal. A row
//! is read into arrays, and remembers a misspelt field, so that the tests have no errors to pass on.

/// Bytes of a field.
#[derive(Drop)]
pub struct Bytes {
    bytes: [u8; 40],
    /// How many bytes there are.
    pub length: usize,
}

impl Bytes {
    /// Returns the bytes.
    pub fn as_slice(&self) -> &[u8] {
        self.bytes.get(..self.length).unwrap_or(&[])
    }

    /// Returns the bytes, to be changed.
    pub fn as_mut_slice(&mut self) -> &mut [u8] {
        let length = self.length.min(40);
        &mut self.bytes[..length]
    }
}

/// Code units of a field.
#[derive(Drop)]
pub struct Units {
    units: [u16; 40],
    /// How many code units there are.
    pub length: usize,
}

impl Units {
    /// Returns the code units.
    pub fn as_slice(&self) -> &[u16] {
        self.units.get(..self.length).unwrap_or(&[])
    }
}

/// A row that is being read.
#[derive(Drop)]
pub struct Row<'a> {
    rest: &'a str,
    misspelt: bool,
}

impl<'a> Row<'a> {
    /// Returns the row that a line has.
    pub fn of(line: &'a str) -> Row<'a> {
        Row {
            rest: line,
            misspelt: false,
        }
    }

    /// Returns the fields that are left.
    pub fn rest(&self) -> &'a str {
        self.rest
    }

    /// Returns the next field, without the spaces around it. After the last one all are empty.
    pub fn word(&mut self) -> &'a str {
        match self.rest.split_once('|') {
            Some((first, rest)) => {
                self.rest = rest;
                first.trim()
            }
            None => {
                let last = self.rest;
                self.rest = "";
                last.trim()
            }
        }
    }

    /// Returns the bytes that the next field names.
    pub fn bytes(&mut self) -> Bytes {
        let mut bytes = [0; 40];
        let mut length = 0usize;
        for word in self.word().split_whitespace() {
            match (u8::from_str_radix(word, 16), bytes.get_mut(length)) {
                (Ok(byte), Some(slot)) => *slot = byte,
                _ => self.misspelt = true,
            }
            length = length.saturating_add(1);
        }
        Bytes { bytes, length }
    }

    /// Returns the code units that the next field names.
    pub fn units(&mut self) -> Units {
        let mut units = [0; 40];
        let mut length = 0usize;
        for word in self.word().split_whitespace() {
            match (u16::from_str_radix(word, 16), units.get_mut(length)) {
                (Ok(unit), Some(slot)) => *slot = unit,
                _ => self.misspelt = true,
            }
            length = length.saturating_add(1);
        }
        Units { units, length }
    }

    /// Returns the number that the next field has.
    pub fn number(&mut self) -> usize {
        let word = self.word();
        self.number_of(word)
    }

    /// Returns the number that a field has in decimal digits. The greatest one is `MAX`, and one below it `MAX - 1`.
    pub fn number_of(&mut self, word: &str) -> usize {
        if word == "MAX" {
            return usize::MAX;
        }
        let digits = word.strip_prefix("MAX - ").unwrap_or(word);
        let Ok(number) = digits.parse::<usize>() else {
            self.misspelt = true;
            return 0;
        };
        if digits.len() < word.len() {
            usize::MAX.saturating_sub(number)
        } else {
            number
        }
    }

    /// Returns whether a field was misspelt.
    pub fn is_misspelt(&self) -> bool {
        self.misspelt
    }

    /// Notes that a field is none of those that its table has.
    pub fn misspell(&mut self) {
        self.misspelt = true;
    }
}

/// A table, and what its rows say of the library's calls.
pub trait Table {
    /// The rows, one a line.
    const ROWS: &'static str;

    /// How many they are.
    const COUNT: usize;

    /// Returns whether a row holds.
    fn holds(&mut self, row: &mut Row<'_>) -> bool;
}

/// Returns the first row that is misspelt or doesn't hold, if any, or what to say if there are more or fewer rows.
pub fn failing_row<T: Table>(table: &mut T) -> Option<&'static str> {
    let mut count = 0usize;
    for line in T::ROWS.lines() {
        let mut row = Row::of(line);
        if !table.holds(&mut row) || row.misspelt {
            return Some(line);
        }
        count = count.saturating_add(1);
    }
    if count == T::COUNT {
        None
    } else {
        Some("the table has another number of rows")
    }
}
