// A commit in flight, asked for.
ghost use Rattle.std.specs.Prelude.{◌≡◌};
ghost use Rattle.ready.specs.State.{no_commit, awaits_id};

use super::Commit;

impl Commit {
    pub(crate) fn is_none(self) -> bool
        ensures { result ≡ no_commit self }
    {
        matches!(self, Commit::CommitNone)
    }

    // Is its superblock write under this id?
    pub(crate) fn awaits(self, id: u64) -> bool
        ensures { result ≡ awaits_id self id }
    {
        match self {
            Commit::CommitNone => false,
            Commit::CommitAdvanceLog { id: k, .. } | Commit::CommitAdvanceLocation { id: k, .. } =>
                k == id,
        }
    }
}
