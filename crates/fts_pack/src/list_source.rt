// A reader of a list's blocks, which are opened one at a time and counted.
use crate::blocks::Blocks;
use crate::list_ref::ListRef;
use fts_base::GhostCount;

/// A reader of a list's blocks. It counts the blocks that it opens, in a counter visible only to contracts.
#[derive(Drop)]
pub struct ListSource<'a> {
    list: ListRef<'a>,
    opened: GhostCount,
}

impl<'a> ListSource<'a> {
    ghost use Rattle.std.specs.Prelude.{◌≡◌};
    ghost use Rattle.fts_pack.specs.ListRef.{listed};
    ghost use Rattle.fts_pack.specs.ListSource.{documents_in, openings_of};

    /// A reader of the list's blocks, none of which was opened yet.
    pub(crate) fn over(list: ListRef<'a>) -> ListSource<'a>
        ensures documents { documents_in result ≡ listed list.entry }
        ensures unopened { openings_of result ≡ 0 }
    {
        ListSource {
            list,
            opened: GhostCount::zero(),
        }
    }
}

impl Blocks for ListSource<'_> {
    ghost use Rattle.fts_pack.specs.Documents.{blocks_of};
    ghost use Rattle.fts_pack.specs.ListSource.{documents_in, openings_of};
    ghost use Rattle.fts_pack.specs.SourceLaws.{blocks_sized, blocks_rise};

    ghost contents = { λ source. blocks_of (documents_in source) };

    ghost openings = { openings_of };

    ghost sized = { λ source. blocks_sized (documents_in source) };

    ghost rises = { λ source. blocks_rise (documents_in source) source.list.rises };

    fn blocks(&self) -> usize {
        self.list.blocks()
    }

    fn last(&self, block: usize) -> u32 {
        self.list.last(block)
    }

    fn open(&mut self, block: usize, out: &mut [u32; 128]) -> usize {
        self.opened = self.opened.and_one();
        self.list.open(block, out)
    }
}
