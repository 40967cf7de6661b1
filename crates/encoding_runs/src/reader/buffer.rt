//! A buffer of fixed length: what was put into it, without what was consumed. Nothing is moved until it is empty.
ghost use Rattle.std.specs.Prelude.{◌≡◌, ◌<◌, ◌≤◌, [], List, ◌++◌, length, take, drop, min, OnOk};
ghost use Rattle.std.specs.Io.KnownBytes.{Consumes, IsAtEnd};

use std::io;
use std::io::Read;
use std::marker::Model;

/// The units from `begin` to `end`.
#[derive(Drop)]
pub(super) struct Buffer<T: Copy, const N: usize> {
    units: [T; N],
    begin: usize,
    end: usize,
}

impl<T: Copy, const N: usize> Model for Buffer<T, N> {
    ghost use Rattle.std.specs.Prelude.{◌≤◌, List, length, slice_range};

    ghost Value = { List T };

    ghost view = { λ b. slice_range b.units b.begin b.end };

    ghost invariant = { λ b. (b.begin ≤ b.end) × (b.end ≤ length b.units) };
}

impl<T: Copy, const N: usize> Buffer<T, N> {
    pub(super) fn new(unit: T) -> Buffer<T, N>
        ensures { result ≡ [] }
    {
        Buffer {
            units: [unit; N],
            begin: 0,
            end: 0,
        }
    }

    pub(super) fn unread(&self) -> &[T]
        ensures value { result.now ≡ self.now }
        ensures fits { length result.now ≤ N }
    {
        let units = &self.units[..];
        &units[self.begin..self.end]
    }

    pub(super) fn consume(&mut self, count: usize)
        requires { count ≤ length self.old }
        ensures { self.new ≡ drop count self.old }
    {
        self.begin += count;
    }

    pub(super) fn hold(&mut self, units: &[T])
        requires { length units.now ≤ N }
        ensures { self.new ≡ units.now }
    {
        self.units[..units.len()].copy_from_slice(units);
        self.begin = 0;
        self.end = units.len();
    }

    pub(super) fn give(&mut self, dst: &mut [T]) -> usize
        ensures copied_length { result ≡ min (length dst.old) (length self.old) }
        ensures same_length { length dst.new ≡ length dst.old }
        ensures bytes { self.old ≡ take result dst.new ++ self.new }
    {
        let unread = self.unread();
        let count = dst.len().min(unread.len());
        dst[..count].copy_from_slice(&unread[..count]);
        self.consume(count);
        count
    }
}

impl<const N: usize> Buffer<u8, N> {
    pub(super) fn fill<R: Read>(&mut self, reader: &mut R) -> io::Result<()>
        requires empty { self.old ≡ [] }
        requires capacity { 0 < N }
        ensures bytes { Consumes (R.remaining reader.old) (R.remaining reader.new) self.new }
        ensures end { OnOk result (self.new ≡ [] → IsAtEnd (R.remaining reader.new)) }
    {
        self.begin = 0;
        self.end = 0;
        self.end = reader.read(&mut self.units)?;
        Ok(())
    }
}
