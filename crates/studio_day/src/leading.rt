// Who leads: seats in turn, or as the studio posts it.
use crate::tell::tell;
use rota::leaders::Rota;
use rota::posted::PostedRota;
use rota::robin::RoundRobin;
use std::io;

// Five seats lead in turn.
pub fn in_turn(rt: &impl Print) -> io::Result<()> {
    println!(rt; "Five seats lead in turn, one view each.")?;
    tell(rt, "Their rota", RoundRobin::new(5), |rota| {
        leaders(rt, &rota, &[0, 4, 5, 7])
    })
}

// Five seats lead as a list of seats says.
pub fn as_posted(rt: &impl Print) -> io::Result<()> {
    println!(rt; "Another studio of five posts its rota: 4, 0, 0, 3.")?;
    let posted = PostedRota::new(&[4, 0, 0, 3], 5);
    tell(rt, "Their rota", posted, |rota| {
        leaders(rt, &rota, &[0, 2, 3, 4])
    })
}

// Rotas that no log may have.
pub fn out_of_limits(rt: &impl Print) -> io::Result<()> {
    tell(rt, "A rota for four seats", RoundRobin::new(4), |_| {
        println!(rt; "A rota for four seats is made.")
    })?;
    let posted = PostedRota::new(&[], 5);
    tell(rt, "A posted rota without entries", posted, |_| {
        println!(rt; "A posted rota without entries is made.")
    })
}

// One text for every rota.
fn leaders<Q: Rota>(rt: &impl Print, rota: &Q, views: &[u16]) -> io::Result<()> {
    for view in views {
        println!(rt; "View {view} is led by seat {}.", rota.leader(*view))?;
    }
    Ok(())
}
