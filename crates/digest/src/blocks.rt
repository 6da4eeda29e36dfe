// The journal's blocks: each mark, and where that is 1 its block; and the pieces of it that are read while loading.
ghost use Rattle.std.specs.Prelude.{◌≡◌};
ghost use Rattle.loading.specs.Pieces.{blocks_of};
ghost use Rattle.digest.specs.Take.{takes};
ghost use Rattle.digest.specs.Visible.{marked_bytes, journal_bytes, piece_bytes, loaded_bytes};

use super::bytes::Taken;
use interval::JournalInterval;
use journal::bytes_of;
use layout::Geometry;
use loading::{LoadingOther, Piece};

const BLOCK: usize = 4096;

fn blocks_of(v: Option<JournalInterval>) -> u64
    ensures { result ≡ blocks_of v }
{
    match v {
        Some(i) => i.len,
        None => 0,
    }
}

impl Taken {
    // A mark, and where it is 1 the first of these blocks.
    fn marked(self, mark: u8, blocks: &[u8]) -> Taken
        ensures { result.number ≡ takes self.number (marked_bytes mark blocks.now) }
    {
        let v = self.byte(mark);
        if mark == 1 {
            return v.part(blocks, 0, BLOCK);
        }
        v
    }

    pub(crate) fn journal(self, blocks: &[u8], marks: &[u8]) -> Taken
        ensures { result.number ≡ takes self.number (journal_bytes blocks.now marks.now) }
    {
        let mut v = self;
        for (i, mark) in marks.iter().enumerate() {
            let at = bytes_of(i as u64, blocks.len());
            v = v.marked(*mark, &blocks[at..]);
        }
        v
    }

    // The blocks of a piece that is in, `count` of them from block `from` on.
    fn piece(self, p: Piece, pieces: &[u8], from: u64, count: u64) -> Taken
        ensures { result.number ≡ takes self.number (piece_bytes p pieces.now from count) }
    {
        match p {
            Piece::Unread => self,
            Piece::Reading(_) => self,
            Piece::In => {
                let at = bytes_of(from, pieces.len());
                let size = bytes_of(count, pieces.len() - at);
                self.part(pieces, at, size)
            },
        }
    }

    pub(crate) fn loaded(self, g: Geometry, other: LoadingOther, pieces: &[u8]) -> Taken
        ensures { result.number ≡ takes self.number (loaded_bytes g other pieces.now) }
    {
        let first = blocks_of(other.superblock.front(g));
        let second = blocks_of(other.superblock.back(g));
        let a = self.piece(other.front, pieces, 0, first);
        a.piece(other.back, pieces, first, second)
    }
}
