// A house of three seats that lead in turn and log edits: its desks, its replays, and its signing box.
use blocks::block::{Block, Rank};
use content::edit::Edit;
use content::refusal::Refusal;
use rota::robin::RoundRobin;
use seals::house::HouseSeals;
use seat::seat::Seat;
use state::answer::Word;
use std::alloc::Global;
use std::process::Abort;
use std::test::Fail;
use world::call::{Call, Reply, What};
use world::desk::Desk;
use world::making::blank_cells;
use world::world::replay;

const KEYS: [u8; 48] = *b"Ana's first key.Ben's other key.Cleo, third key.";

const ROOT: Rank = Rank { view: 0, turn: 0 };

// A desk with four cells. Its seat counts on messages within one tick, and waits 100 for progress.
fn desk(heap: Global, own: u8) -> Result<Desk<17, 8, Edit>, Fail> {
    let blank = Block {
        rank: ROOT,
        height: 0,
        parent: ROOT,
        content: Edit::Undo.record()?,
    };
    let seat = Seat::<17, 8, Edit>::new::<HouseSeals>(3, own, 1, 100)?;
    Ok(Desk::new(seat, blank_cells(heap, 4, blank)?))
}

// Three new desks.
pub fn desks(heap: Global) -> Result<Vec<Desk<17, 8, Edit>>, Fail> {
    let mut desks = Vec::new(heap);
    for own in 0..3 {
        desks.push(desk(heap, own)?)?;
    }
    Ok(desks)
}

// A call at a seat, with an outbox that has room for every message.
pub fn at<'c>(seat: u8, what: What<'c>) -> Call<'c> {
    Call {
        seat,
        what,
        room: 1024,
    }
}

// Replays calls: all of them are made, and they answer these words and refusals.
pub fn replayed(
    rt: &(impl Abort + AllocGlobal),
    world: &mut [Desk<17, 8, Edit>],
    calls: &[Call<'_>],
    words: &[Result<Word, Refusal>],
) -> Result<Vec<Reply>, Fail> {
    let mut house = HouseSeals::new(&KEYS, 3)?;
    let rota = RoundRobin::new(3)?;
    let replayed = replay::<17, 8, Edit, RoundRobin, HouseSeals>(
        rt.alloc(),
        world,
        &rota,
        &mut house,
        calls,
    );
    assert_eq!(rt; replayed.ended, Ok(()));
    assert_eq!(rt; replayed.replies.len(), words.len());
    for (reply, word) in replayed.replies.iter().zip(words) {
        assert_eq!(rt; reply.answer.map(|answer| answer.word), *word);
        assert_eq!(rt; reply.outbox.len(), 1024);
    }
    Ok(replayed.replies)
}

// Puts a seat's seal into the last eight bytes of a message: on the tag, and the bytes from an offset up to the seal.
fn seal(rt: &impl Abort, message: &mut [u8], seat: u8, tag: u8, from: usize) -> Result<(), Fail> {
    assert!(rt; message.len() >= 8 && from <= message.len() - 8);
    let at = message.len() - 8;
    let house = HouseSeals::new(&KEYS, 3)?;
    let seal = house.sign(seat, tag, &message[from..at]).ok_or("no key")?;
    message[at..].copy_from_slice(&seal);
    Ok(())
}

// The message of N bytes in front of an outbox, sealed so.
fn sealed<const N: usize>(
    rt: &impl Abort,
    outbox: &[u8],
    seat: u8,
    tag: u8,
    from: usize,
) -> Result<[u8; N], Fail> {
    let mut message = *outbox.first_chunk::<N>().ok_or("a short outbox")?;
    seal(rt, &mut message, seat, tag, from)?;
    Ok(message)
}

// The proposal at height 1 in front of an outbox, with the seal of seat 0.
pub fn sealed_proposal(rt: &impl Abort, outbox: &[u8]) -> Result<[u8; 38], Fail> {
    sealed(rt, outbox, 0, 1, 1)
}

// The vote in front of an outbox, with the seal of its seat.
pub fn sealed_vote(rt: &impl Abort, outbox: &[u8], seat: u8) -> Result<[u8; 39], Fail> {
    sealed(rt, outbox, seat, 2, 2)
}
