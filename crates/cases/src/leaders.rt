// Leaders by round robin and by a posted rota.
use content::refusal::Refusal;
use rota::leaders::{Rota, seats_in_limits};
use rota::posted::PostedRota;
use rota::robin::RoundRobin;
use std::test::Fail;

const ENTRIES: [u8; 17] = [4, 0, 255, 3, 3, 9, 1, 2, 8, 7, 6, 5, 4, 3, 2, 1, 0];

#[test]
fn logs_have_an_odd_number_of_seats_from_three_to_fifteen(rt: HostRuntime) {
    for n in 0..=255u8 {
        let lawful = matches!(n, 3 | 5 | 7 | 9 | 11 | 13 | 15);
        assert_eq!(rt; seats_in_limits(n), lawful);
        assert_eq!(rt; RoundRobin::new(n).is_ok(), lawful);
        assert_eq!(rt; PostedRota::new(&ENTRIES[0..1], n).is_ok(), lawful);
    }
}

#[test]
fn round_robin_takes_the_view_by_the_number_of_seats(rt: HostRuntime) -> Result<(), Fail> {
    let five = RoundRobin::new(5)?;
    assert_eq!(rt; five.leader(0), 0);
    assert_eq!(rt; five.leader(7), 2);
    assert_eq!(rt; five.leader(65535), 0);
    assert_eq!(rt; five.seat_count(), 5);
    Ok(())
}

#[test]
fn a_posted_rota_goes_round_its_entries(rt: HostRuntime) -> Result<(), Fail> {
    let posted = PostedRota::new(&ENTRIES[0..4], 5)?;
    assert_eq!(rt; posted.leader(0), 4);
    assert_eq!(rt; posted.leader(2), 0);
    assert_eq!(rt; posted.leader(3), 3);
    assert_eq!(rt; posted.leader(5), 0);
    assert_eq!(rt; posted.leader(65535), 3);
    assert_eq!(rt; posted.seat_count(), 5);
    Ok(())
}

#[test]
fn a_posted_rota_has_one_to_sixteen_entries(rt: HostRuntime) {
    assert!(rt; PostedRota::new(&ENTRIES[0..16], 15).is_ok());
    for count in [0, 17] {
        assert_eq!(rt;
            PostedRota::new(&ENTRIES[0..count], 15).err(),
            Some(Refusal::OutOfLimits)
        );
    }
}
