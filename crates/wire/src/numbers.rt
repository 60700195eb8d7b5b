// Which five numbers a block may have, and which of them fit a parent.
ghost use Rattle.std.specs.Prelude.{◌≡◌};
ghost use Rattle.wire.specs.Lawful.{FourBytes};
ghost use Rattle.wire.specs.Layout.{carries, lawful_numbers};
ghost use Rattle.wire.specs.Making.{RankHeld};

use blocks::block::Rank;

// Whether a block of this view and turn may stand on a parent of this rank: one of an earlier view at turn 0, else the
// turn before. The turn may be one that no rank can have.
pub fn carries(parent: Rank, view: u16, turn: u32) -> bool
    ensures { result ≡ carries parent.view parent.turn view turn }
{
    if turn == 0 {
        parent.view < view
    } else {
        parent.view == view && parent.turn as u32 + 1 == turn
    }
}

// Whether a block may have this rank and height, on a parent of that rank.
pub(crate) fn lawful_numbers(rank: Rank, height: u32, parent: Rank) -> bool
    ensures ranges { RankHeld rank × FourBytes height × RankHeld parent }
    ensures value { result ≡ lawful_numbers rank.view rank.turn height parent.view parent.turn }
{
    match height {
        0 => false,
        1 => rank.turn == 0 && parent == Rank { view: 0, turn: 0 },
        _ => carries(parent, rank.view, rank.turn as u32),
    }
}
