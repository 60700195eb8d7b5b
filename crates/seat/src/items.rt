// The items of an answer: what the caller has to send.
ghost use Rattle.std.specs.Prelude.{◌≡◌, ◌-◌, ◌&&◌, leb, [], length, take, drop, if◌then◌else◌, Some, None, nat_le};
ghost use Rattle.std.specs.Option.{option_map};
ghost use Rattle.seat.specs.Items.{infront, item_of, items_of, nth};

use state::answer::{Answer, Item};

// Number k of the items that are there.
fn nth_item(answer: &Answer, k: usize) -> Option<Item>
    ensures { result ≡ nth (items_of answer.now) k }
{
    let items = [answer.certificate, answer.message, answer.blame];
    items.iter().filter_map(|item| *item).nth(k)
}

// Item k of an answer, counted from 0: the message that was handed in, or a part of the outbox that the call wrote. Nothing
// where there are no more items.
pub fn item<'a>(answer: &Answer, k: usize, inbox: &'a [u8], outbox: &'a [u8]) -> Option<&'a [u8]>
    ensures { option_map (λ x. x.now) result ≡ item_of answer.now k inbox.now outbox.now }
{
    match nth_item(answer, k)? {
        Item::Inbox => Some(inbox),
        Item::Outbox { from, to } => outbox.get(from..to),
    }
}
