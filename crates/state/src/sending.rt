// The seat's own messages, written into the outbox.
ghost use Rattle.std.specs.Prelude.{◌≡◌, ◌+◌, ◌≤◌, length, replicate, Some};
ghost use Rattle.wire.specs.Meaning.{plain};
ghost use Rattle.wire.specs.Writing.{message_size};
ghost use Rattle.wire.specs.declared.message.Parts.TheVariants.{Blame, Vote};
ghost use Rattle.state.specs.Sends.{end_of, item_at, put_item, write};
ghost use Rattle.state.specs.Steps.{Leaves};

use crate::answer::Item;
use crate::call::Call;
use crate::state::Terms;
use blocks::block::Block;
use content::kind::Content;
use wire::message::Parts;
use wire::writer::write_parts;

// Writes a message that has room, behind what is written already.
pub fn put<const L: usize, C: Content<L>>(
    parts: &Parts<C::Record, &[u8]>,
    outbox: &mut [u8],
    from: usize,
) -> Item
    requires { from + message_size L (plain parts.now) ≤ length outbox.old }
    ensures item { Some result ≡ item_at C.Content.kind from (Some (write (plain parts.now))) }
    ensures bytes { outbox.new ≡ put_item C.Content.kind from (Some (write (plain parts.now))) outbox.old }
{
    let to = write_parts::<L, C>(parts, outbox, from).unwrap();
    Item::Outbox { from, to }
}

// Where the next message begins.
pub fn end_of(item: &Option<Item>) -> usize
    ensures { result ≡ end_of item.now }
{
    match item {
        Some(Item::Outbox { to, .. }) => *to,
        _ => 0,
    }
}

// The seat's own blame of a view, with zero bytes as its seal, for the signing box to fill.
pub fn put_blame<const L: usize, const S: usize, C: Content<L>>(
    terms: &Terms,
    view: u16,
    outbox: &mut [u8],
    from: usize,
) -> Item
    requires { from + (4 + S) ≤ length outbox.old }
    ensures item { Some result ≡ item_at C.Content.kind from (Some (write (Blame terms.now.own view (replicate S 0)))) }
    ensures bytes { outbox.new ≡ put_item C.Content.kind from (Some (write (Blame terms.now.own view (replicate S 0)))) outbox.old }
{
    let seal = [0; S];
    let parts = Parts::Blame {
        seat: terms.own,
        view,
        seal: &seal[..],
    };
    put::<L, C>(&parts, outbox, from)
}

// The seat's own vote, likewise: the first that is written.
pub fn put_vote<const L: usize, const S: usize, C: Content<L>>(
    terms: &Terms,
    block: &Block<C::Record>,
    outbox: &mut [u8],
) -> Item
    requires { 14 + L + S ≤ length outbox.old }
    ensures item { Some result ≡ item_at C.Content.kind 0 (Some (write (Vote terms.now.own block.now (replicate S 0)))) }
    ensures bytes { outbox.new ≡ put_item C.Content.kind 0 (Some (write (Vote terms.now.own block.now (replicate S 0)))) outbox.old }
{
    let seal = [0; S];
    let parts = Parts::Vote {
        seat: terms.own,
        block: *block,
        seal: &seal[..],
    };
    put::<L, C>(&parts, outbox, 0)
}

// The same in a call, whose outbox has room.
impl<const S: usize> Call<'_, S> {
    pub fn put_blame<const L: usize, C: Content<L>>(&mut self, view: u16, from: usize) -> Item
        requires { from + (4 + S) ≤ length self.old.outbox.now }
        ensures item { Some result ≡ item_at C.Content.kind from (Some (write (Blame self.old.terms.now.own view (replicate S 0)))) }
        ensures call { Leaves self.new self.old (put_item C.Content.kind from (Some (write (Blame self.old.terms.now.own view (replicate S 0)))) self.old.outbox.now) }
    {
        put_blame::<L, S, C>(self.terms, view, self.outbox, from)
    }

    pub fn put_vote<const L: usize, C: Content<L>>(&mut self, block: &Block<C::Record>) -> Item
        ensures item { Some result ≡ item_at C.Content.kind 0 (Some (write (Vote self.old.terms.now.own block.now (replicate S 0)))) }
        ensures call { Leaves self.new self.old (put_item C.Content.kind 0 (Some (write (Vote self.old.terms.now.own block.now (replicate S 0)))) self.old.outbox.now) }
    {
        put_vote::<L, S, C>(self.terms, block, self.outbox)
    }
}
