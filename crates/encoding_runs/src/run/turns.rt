//! How much of the source and of the destination a turn of a run uses.
ghost use Rattle.std.specs.Prelude.{◌≡◌, min};
ghost use Rattle.encoding_runs.specs.Runs.{room_of, is_marked_last};

/// One call of a run: the most of the unread source and of the destination that it takes.
#[repr(C)]
#[derive(Debug, PartialEq, Eq, Drop)]
pub struct Turn {
    /// The length of its piece of the source, in bytes or code units of UTF-16. The piece is shorter if less is unread.
    pub take: usize,
    /// The length of its output space, in code units of UTF-16 or bytes of UTF-8. The space is shorter if less of the
    /// destination is left.
    pub room: usize,
    /// Whether the call is marked last if its piece reaches the end of the source.
    pub last: bool,
}

impl Turn {
    pub(super) fn piece_length(&self, unread: usize) -> usize
        ensures { result ≡ min self.now.take unread }
    {
        self.take.min(unread)
    }

    pub(super) fn room_of(&self, left: usize) -> usize
        ensures { result ≡ room_of self.now left }
    {
        self.room.min(left)
    }

    pub(super) fn is_marked_last(&self, unread: usize) -> bool
        ensures { result ≡ is_marked_last self.now unread }
    {
        self.last && unread <= self.take
    }
}
