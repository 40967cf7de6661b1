//! The pending bytes of a decoder.
ghost use Rattle.std.specs.Prelude.{◌≡◌, ℕ, ◌+◌, ◌-◌, ◌≤◌, ◌↔◌, ◌++◌, List, [], length, take, drop, min, IsTrue};

use super::window::WINDOW;
use std::marker::Model;

/// At most three bytes.
#[derive(Drop)]
pub(crate) struct Pending {
    bytes: [u8; 4],
    count: u8,
}

impl Model for Pending {
    ghost Value = { List ℕ };

    ghost view = { λ p. take p.count p.bytes };

    ghost invariant = { λ p. p.count ≤ 3 };
}

impl Pending {
    /// Returns no bytes.
    pub(crate) fn none() -> Pending
        ensures { result ≡ [] }
    {
        Pending {
            bytes: [0; 4],
            count: 0,
        }
    }

    /// Returns these bytes as pending. A call rarely ends inside a character, and then no bytes are copied.
    #[inline(always)]
    pub(crate) fn hold(held: &[u8]) -> Pending
        requires at_most_three { length held.now ≤ 3 }
        ensures { result ≡ held.now }
    {
        if held.is_empty() {
            return Pending::none();
        }
        let count = held.len();
        let mut bytes = [0; 4];
        bytes[..count].copy_from_slice(held);
        Pending {
            bytes,
            count: count as u8,
        }
    }

    /// Returns the first `count` of these bytes as pending.
    #[inline(always)]
    pub(crate) fn of(bytes: [u8; 4], count: usize) -> Pending
        requires at_most_three { count ≤ 3 }
        ensures { result ≡ take count bytes }
    {
        Pending {
            bytes,
            count: count as u8,
        }
    }

    /// Returns whether there are none.
    pub(crate) fn is_empty(&self) -> bool
        ensures { IsTrue result ↔ (self.now ≡ []) }
    {
        self.count == 0
    }

    /// Returns how many there are.
    pub(crate) fn len(&self) -> usize
        ensures length { result ≡ length self.now }
        ensures within { result ≤ 3 }
    {
        usize::from(self.count)
    }

    /// Returns an array that starts with these bytes, and how many they are.
    pub(crate) fn bytes(&self) -> ([u8; 4], usize)
        ensures bytes { take result.1 result.0 ≡ self.now }
        ensures count { result.1 ≡ length self.now }
        ensures within { result.1 ≤ 3 }
    {
        (self.bytes, self.len())
    }

    /// Returns the first four bytes of these bytes and `src`, and how many they are, if fewer.
    pub(crate) fn followed_by(&self, src: &[u8]) -> ([u8; 4], usize)
        ensures count { result.1 ≡ min 4 (length self.now + length src.now) }
        ensures bytes { take result.1 result.0 ≡ take 4 (self.now ++ src.now) }
    {
        if self.count == 0 && src.len() >= WINDOW {
            return ([src[0], src[1], src[2], src[3]], WINDOW);
        }
        let mut bytes = self.bytes;
        let more = src.len().min(WINDOW - self.len());
        let end = self.len() + more;
        bytes[self.len()..end].copy_from_slice(&src[..more]);
        (bytes, end)
    }

    /// Returns the last `count` bytes of these as pending.
    pub(crate) fn suffix(bytes: &[u8], count: usize) -> Pending
        requires at_most_three { count ≤ 3 }
        requires within { count ≤ length bytes.now }
        ensures { result ≡ drop (length bytes.now - count) bytes.now }
    {
        Pending::hold(&bytes[bytes.len() - count..])
    }
}
