// One piece of the journal while it is read: the front, up to the ring's end, or the back, from the first block on.
ghost use Rattle.std.specs.Prelude.{◌≡◌};
ghost use Rattle.loading.specs.Pieces.{blocks_of, piece_interval, piece_reads, piece_unread, piece_loaded, piece_reads_differ, without_read, piece_read};

use super::Piece;
use interval::JournalInterval;
use superblock::JournalRead;

// How many blocks a piece has: none where it isn't there.
pub(crate) fn blocks_of(v: Option<JournalInterval>) -> u64
    ensures { result ≡ blocks_of v }
{
    match v {
        Some(i) => i.len,
        None => 0,
    }
}

impl Piece {
    // Is a piece that is read, or in, there?
    pub(crate) fn has_interval(self, v: Option<JournalInterval>) -> bool
        ensures { result ≡ piece_interval self v }
    {
        self.unread() || v.is_some()
    }

    // Is the read under this id awaited?
    pub(crate) fn reads(self, id: u64) -> bool
        ensures { result ≡ piece_reads self id }
    {
        match self {
            Piece::Reading(k) => k == id,
            _ => false,
        }
    }

    pub(crate) fn unread(self) -> bool
        ensures { result ≡ piece_unread self }
    {
        matches!(self, Piece::Unread)
    }

    // Is it in, or not there at all?
    pub(crate) fn loaded(self, v: Option<JournalInterval>) -> bool
        ensures { result ≡ piece_loaded self v }
    {
        matches!(self, Piece::In) || v.is_none()
    }

    // Are not both pieces read under one id?
    pub(crate) fn differs(self, other: Piece) -> bool
        ensures { result ≡ piece_reads_differ self other }
    {
        match self {
            Piece::Reading(k) => !other.reads(k),
            _ => true,
        }
    }

    // The piece with its read cleared if it has this id.
    pub(crate) fn without(self, id: u64) -> Piece
        ensures { result ≡ without_read self id }
    {
        if self.reads(id) {
            return Piece::Unread;
        }
        self
    }

    // How a read ends: a damaged one can be asked for again.
    pub(crate) fn of_read(read: JournalRead) -> Piece
        ensures { result ≡ piece_read read }
    {
        match read {
            JournalRead::Whole => Piece::In,
            JournalRead::Damaged => Piece::Unread,
        }
    }
}
