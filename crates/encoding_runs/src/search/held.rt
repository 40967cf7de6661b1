//! A copy of a decoder's pending bytes, and of those of a malformed sequence.
ghost use Rattle.std.specs.Prelude.{◌≡◌, ℕ, ◌+◌, ◌≤◌, List, [], ◌++◌, length, take};

use std::marker::Model;

/// At most three bytes.
#[derive(Drop)]
pub(crate) struct Held {
    bytes: [u8; 3],
    count: usize,
}

impl Model for Held {
    ghost Value = { List ℕ };

    ghost view = { λ h. take h.count h.bytes };

    ghost invariant = { λ h. h.count ≤ 3 };
}

impl Held {
    pub(crate) fn none() -> Held
        ensures { result ≡ [] }
    {
        Held {
            bytes: [0; 3],
            count: 0,
        }
    }

    pub(crate) fn len(&self) -> usize
        ensures length { result ≡ length self.now }
        ensures within { result ≤ 3 }
    {
        self.count
    }

    pub(crate) fn bytes(&self) -> [u8; 3]
        ensures { take (length self.now) result ≡ self.now }
    {
        self.bytes
    }

    pub(crate) fn push(&mut self, more: &[u8])
        requires fits { length self.old + length more.now ≤ 3 }
        ensures { self.new ≡ self.old ++ more.now }
    {
        let end = self.count + more.len();
        self.bytes[self.count..end].copy_from_slice(more);
        self.count = end;
    }
}
