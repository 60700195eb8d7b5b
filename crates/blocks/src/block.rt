// Blocks and their ranks.

// The rank of a block: its view, and its turn in that view. Ranks are ordered by view, then by turn. The root of
// the log has no rank and lies below every rank: where a rank or the root is meant, the type is Option<Rank>.
#[derive(Clone, Copy, PartialEq, Eq, PartialOrd, Ord, Debug)]
pub struct Rank {
    pub view: u16,
    pub turn: u16,
}

// One entry of the log with its place: its rank, its height (the root has 0), the rank of the block below it,
// and the record of its content.
#[derive(Clone, Copy)]
pub struct Block<R> {
    pub rank: Rank,
    pub height: u32,
    pub parent: Rank,
    pub content: R,
}
