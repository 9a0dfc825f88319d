//! The claim desk, step by step.

ghost use Rattle.std.specs.Prelude.{◌≡◌};

use filter_workers::{ClaimDesk, DeskSeat};
use std::process::Abort;
use std::test::Fail;

#[test]
fn two_seats_of_a_desk(rt: HostRuntime) -> Result<(), Fail> {
    let (desk, seat) = ClaimDesk::new(rt.alloc(), 2)?;
    let Ok((s, t)) = desk.split(seat) else {
        panic!(rt; "a new seat is refused")
    };
    let (first, s) = desk.claim(s);
    let (second, t) = desk.claim(t);
    assert!(rt; (first, second) == (Some(0), Some(1)));
    let (none_of_s, s) = desk.claim(s);
    let (none_of_t, t) = desk.claim(t);
    assert!(rt; (none_of_s, none_of_t) == (None, None));
    let (again, s) = desk.claim(s);
    assert!(rt; again == None);
    let Err((desk, s)) = desk.close(s) else {
        panic!(rt; "closed with half of the room")
    };
    let whole = desk.join(s, t);
    let Ok(drawn) = desk.close(whole) else {
        panic!(rt; "not closed with all the room")
    };
    assert!(rt; drawn == 2);
    Ok(())
}

/// The half that keeps the numbers.
fn kept_half(rt: &impl Abort, desk: &ClaimDesk, seat: DeskSeat) -> DeskSeat
    requires { seat.desk ≡ desk.now }
    ensures { result.desk ≡ desk.now }
{
    match desk.split(seat) {
        Ok((kept, _given)) => kept,
        Err(_) => panic!(rt; "a seat with room is refused"),
    }
}

#[test]
fn room_one(rt: HostRuntime) -> Result<(), Fail> {
    let (desk, seat) = ClaimDesk::new(rt.alloc(), 9)?;
    let seat = kept_half(&rt, &desk, seat);
    let seat = kept_half(&rt, &desk, seat);
    let seat = kept_half(&rt, &desk, seat);
    let seat = kept_half(&rt, &desk, seat);
    let seat = kept_half(&rt, &desk, seat);
    let seat = kept_half(&rt, &desk, seat);
    let seat = kept_half(&rt, &desk, seat);
    assert!(rt; desk.split(seat).is_err(), "room 1 is split");
    Ok(())
}

#[test]
fn an_empty_desk(rt: HostRuntime) -> Result<(), Fail> {
    let (desk, seat) = ClaimDesk::new(rt.alloc(), 0)?;
    let (number, seat) = desk.claim(seat);
    assert!(rt; number == None);
    let Ok(drawn) = desk.close(seat) else {
        panic!(rt; "not closed with all the room")
    };
    assert!(rt; drawn == 0);
    Ok(())
}

#[test]
fn a_desk_closed_early(rt: HostRuntime) -> Result<(), Fail> {
    let (desk, seat) = ClaimDesk::new(rt.alloc(), 1 << 32)?;
    let (first, seat) = desk.claim(seat);
    let (second, seat) = desk.claim(seat);
    assert!(rt; (first, second) == (Some(0), Some(1)));
    let Ok(drawn) = desk.close(seat) else {
        panic!(rt; "not closed with all the room")
    };
    assert!(rt; drawn == 2);
    Ok(())
}
