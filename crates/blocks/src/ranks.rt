// Comparing ranks, places and blocks.
ghost use Rattle.std.specs.Prelude.{◌≡◌};
ghost use Rattle.blocks.specs.Ranks.{same_rank, below, at_least, parent_of, same_block};

use crate::block::{Block, Rank};
use content::kind::Content;

// `same`, `below` and `at_least` are ==, < and >= under the names of the definitions, which their clauses tie to them.
impl Rank {
    // Whether view and turn are the same.
    pub fn same(self, other: Rank) -> bool
        ensures { result ≡ same_rank self other }
    {
        self == other
    }

    // By view, then by turn.
    pub fn below(self, other: Rank) -> bool
        ensures { result ≡ below self other }
    {
        self < other
    }
}

// Whether place a is b or above it; the root is below every rank.
pub fn at_least(a: Option<Rank>, b: Option<Rank>) -> bool
    ensures { result ≡ at_least a b }
{
    a >= b
}

impl<R> Block<R> {
    // Where the block's parent is: a block of height 1 stands on the root.
    pub fn parent_place(&self) -> Option<Rank>
        ensures { result ≡ parent_of self.now }
    {
        (self.height != 1).then_some(self.parent)
    }
}

// Whether two blocks are equal: their numbers, and the bytes of their contents. It is not a derived ==, since
// contents are equal where their bytes are.
pub fn same_block<const L: usize, C: Content<L>>(a: &Block<C::Record>, b: &Block<C::Record>) -> bool
    ensures { result ≡ same_block C.Content.kind a.now b.now }
{
    a.rank.same(b.rank)
        && a.height == b.height
        && a.parent.same(b.parent)
        && C::same(&a.content, &b.content)
}
