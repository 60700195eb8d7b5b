// One seat with the cells of its shelf, and the slip that is out.
use blocks::block::Block;
use content::kind::Content;
use seat::seat::Seat;
use seat::slip::Slip;

pub struct Desk<const L: usize, const S: usize, C: Content<L>> {
    pub(crate) cells: Vec<Block<C::Record>>,
    // how many of the cells are blocks; counted beside them, since the shelf of a call stands over cells that are lent to it
    pub(crate) filled: usize,
    pub(crate) slip: Option<Slip>,
    pub(crate) seat: Seat<L, S, C>,
}

impl<const L: usize, const S: usize, C: Content<L>> Drop for Desk<L, S, C> {
    // A slip that is out is taken back before the seat is let go.
    fn drop(self) {
        let Desk {
            cells,
            filled: _,
            slip,
            mut seat,
        } = self;
        if let Some(slip) = slip {
            seat.sent(slip);
        }
        drop(cells);
    }
}
