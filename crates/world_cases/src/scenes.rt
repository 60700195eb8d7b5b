// Calls at three seats: an entry from its offer to the log, two proposals of one rank, and calls that are refused.
use crate::house::{at, desks, replayed, sealed_proposal, sealed_vote};
use content::edit::Edit;
use content::refusal::Refusal;
use state::answer::{Item, Word};
use std::process::Abort;
use std::test::Fail;
use world::call::What;
use world::desk::Desk;

const SAVE: [u8; 17] = [3, 0, 0, 0, 0, 0, 0, 0, 0, 0, 0, 0, 0, 0, 0, 0, 0];

// Seat 0, which leads view 0, offers an entry. Its proposal, sealed.
fn proposed(
    rt: &(impl Abort + AllocGlobal),
    world: &mut [Desk<17, 8, Edit>],
) -> Result<[u8; 38], Fail> {
    let calls = [at(0, What::Offer(&SAVE)), at(0, What::Sent)];
    let words = [Ok(Word::Offered), Ok(Word::Idle)];
    let replies = replayed(rt, world, &calls, &words)?;
    let offered = replies.first().ok_or("no reply")?;
    assert_eq!(rt;
        offered.answer?.message,
        Some(Item::Outbox { from: 0, to: 38 })
    );
    sealed_proposal(rt, &offered.outbox)
}

// A seat is handed the proposal, accepts it, and votes after two ticks. Its vote, sealed.
fn voted(
    rt: &(impl Abort + AllocGlobal),
    world: &mut [Desk<17, 8, Edit>],
    seat: u8,
    proposal: &[u8],
) -> Result<[u8; 39], Fail> {
    let handed = [at(seat, What::HandIn(proposal)), at(seat, What::Sent)];
    replayed(rt, world, &handed, &[Ok(Word::Accepted), Ok(Word::Idle)])?;
    let waited = [at(seat, What::Tick), at(seat, What::Sent)];
    replayed(rt, world, &waited, &[Ok(Word::Idle), Ok(Word::Idle)])?;
    let replies = replayed(rt, world, &waited, &[Ok(Word::Voted), Ok(Word::Idle)])?;
    let voted = replies.first().ok_or("no reply")?;
    assert_eq!(rt;
        voted.answer?.message,
        Some(Item::Outbox { from: 0, to: 39 })
    );
    sealed_vote(rt, &voted.outbox, seat)
}

// A seat is handed two votes: the second completes a quorum, and the seat commits height 1.
fn committed(
    rt: &(impl Abort + AllocGlobal),
    world: &mut [Desk<17, 8, Edit>],
    seat: u8,
    first: &[u8],
    second: &[u8],
) -> Result<(), Fail> {
    let counted = [at(seat, What::HandIn(first)), at(seat, What::Sent)];
    replayed(rt, world, &counted, &[Ok(Word::Counted), Ok(Word::Idle)])?;
    let certified = [at(seat, What::HandIn(second)), at(seat, What::Sent)];
    let words = [Ok(Word::Certified), Ok(Word::Idle)];
    let replies = replayed(rt, world, &certified, &words)?;
    let answer = replies.first().ok_or("no reply")?.answer?;
    assert_eq!(rt; answer.height, 1);
    assert_eq!(rt; answer.certificate, Some(Item::Outbox { from: 0, to: 48 }));
    Ok(())
}

#[test]
fn an_entry_is_offered_voted_for_and_committed_at_every_seat(rt: HostRuntime) -> Result<(), Fail> {
    let mut world = desks(rt.alloc())?;
    let proposal = proposed(&rt, &mut world)?;
    let votes = [
        voted(&rt, &mut world, 0, &proposal)?,
        voted(&rt, &mut world, 1, &proposal)?,
        voted(&rt, &mut world, 2, &proposal)?,
    ];
    committed(&rt, &mut world, 0, &votes[1], &votes[2])?;
    committed(&rt, &mut world, 1, &votes[0], &votes[2])?;
    committed(&rt, &mut world, 2, &votes[1], &votes[0])?;
    for desk in &world {
        let block = desk.blocks().first().ok_or("no block")?;
        assert_eq!(rt; desk.blocks().len(), 1);
        assert_eq!(rt; block.height, 1);
        assert_eq!(rt; block.content.edit(), Ok(Edit::Save));
        assert_eq!(rt; desk.seat().state().turn, 1);
    }
    Ok(())
}

// Seat 0 signs a second entry for the rank that its first one has.
#[test]
fn two_proposals_of_one_rank_clash(rt: HostRuntime) -> Result<(), Fail> {
    let mut world = desks(rt.alloc())?;
    let first = proposed(&rt, &mut world)?;
    let mut changed = first;
    changed[13] = 2;
    let second = sealed_proposal(&rt, &changed)?;
    let calls = [
        at(1, What::HandIn(&first)),
        at(1, What::Sent),
        at(1, What::HandIn(&changed)),
        at(1, What::HandIn(&second)),
    ];
    let words = [
        Ok(Word::Accepted),
        Ok(Word::Idle),
        Err(Refusal::BadSeal { seat: 0 }),
        Ok(Word::Clash),
    ];
    replayed(&rt, &mut world, &calls, &words)?;
    Ok(())
}

#[test]
fn a_call_that_is_refused_is_replayed_too(rt: HostRuntime) -> Result<(), Fail> {
    let mut world = desks(rt.alloc())?;
    let calls = [
        at(0, What::Offer(&SAVE)),
        at(0, What::Tick),
        at(0, What::Sent),
        at(0, What::Offer(&SAVE)),
        at(1, What::Offer(&SAVE)),
        at(3, What::Tick),
    ];
    let words = [
        Ok(Word::Offered),
        Err(Refusal::SlipOut),
        Ok(Word::Idle),
        Err(Refusal::OfferedAlready),
        Err(Refusal::NotLeader),
        Err(Refusal::OutOfLimits),
    ];
    replayed(&rt, &mut world, &calls, &words)?;
    Ok(())
}
