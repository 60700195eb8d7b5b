// Searching a list of blocks by plain scans.
ghost use Rattle.std.specs.Prelude.{◌≡◌};
ghost use Rattle.std.specs.Option.{option_map};
ghost use Rattle.shelf.specs.Blocks.{find, top_turn, one_lower, climb, read_below};
ghost use Rattle.shelf.specs.Cells.{behind, behind_some};

use blocks::block::{Block, Rank};
use content::refusal::Refusal;

// The first block of a rank.
pub fn first_of_rank<R: Copy>(blocks: &[Block<R>], rank: Rank) -> Option<&Block<R>>
    ensures { option_map (λ x. x.now) result ≡ find rank blocks.now }
{
    // move: by reference, a walk up a chain would read the rank from memory again at every block
    blocks.iter().find(move |block| block.rank.same(rank))
}

// The highest turn among the blocks of a view.
pub fn top_turn_of<R: Copy>(blocks: &[Block<R>], view: u16) -> Option<u16>
    ensures { result ≡ top_turn view blocks.now }
{
    blocks
        .iter()
        .filter(|block| block.rank.view == view)
        .map(|block| block.rank.turn)
        .max()
}

// The parent of a block: the first block of its parent's rank, which must be exactly one height lower.
fn parent_of<'b, R: Copy>(blocks: &'b [Block<R>], block: &Block<R>) -> Result<&'b Block<R>, Refusal>
    ensures { behind result ≡ one_lower block.now.height (find block.now.parent blocks.now) }
{
    first_of_rank(blocks, block.parent)
        .filter(|parent| parent.height as u64 + 1 == block.height as u64)
        .ok_or(Refusal::BrokenShelf)
}

// From a block to its parent, so many times.
fn ancestor_of<'b, R: Copy>(
    blocks: &'b [Block<R>],
    block: &'b Block<R>,
    steps: u32,
) -> Result<&'b Block<R>, Refusal>
    ensures { behind result ≡ climb steps blocks.now block.now }
{
    let mut at = block;
    // a loop with ?, which try_fold would say no more plainly
    for _ in 0..steps {
        at = parent_of(blocks, at)?;
    }
    Ok(at)
}

// The block of a height at or below a place.
pub fn block_below<R: Copy>(
    blocks: &[Block<R>],
    place: Option<Rank>,
    height: u32,
) -> Result<Option<&Block<R>>, Refusal>
    ensures { behind_some result ≡ read_below blocks.now place height }
{
    let Some(rank) = place else {
        return Ok(None);
    };
    match first_of_rank(blocks, rank) {
        Some(block) if height > 0 && height <= block.height => {
            ancestor_of(blocks, block, block.height - height).map(Some)
        }
        _ => Ok(None),
    }
}
