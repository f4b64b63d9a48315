ghost use Rattle.std.specs.Prelude.{◌≡◌, ◌+◌, ◌%◌, ◌^◌, ◌<◌, [], length, false};
ghost use Rattle.gi_turn.specs.Seats.{view_of, IsOf};

use gi_turn::{Entered, Seat, Stands, Turnstile};
use std::sync::Wait;
use std::test::Fail;
use std::thread::{Threads, join};

/// It counts the turns.
#[derive(Drop)]
struct Count {
    turns: u64,
}

impl Stands for Count {
    ghost stands = { λ count log. count.turns ≡ length log % 2 ^ 64 };

    ghost may_ask = { λ log mark. Unit {0} };

    ghost longer = { λ log more mark h. tt };
}

/// A turn that carried out this mark.
#[derive(Drop)]
struct Tick {
    mark: u64,
}

impl Entered for Tick {
    ghost told = { λ t. [] };

    ghost mark = { λ t. t.mark };
}

/// One turn, where the seat has a call left.
fn take_turn<R: Wait>(rt: &R, turnstile: &Turnstile<Count>, seat: &mut Seat<Count>, phase: u8)
    requires of { IsOf turnstile.now seat.old }
    requires idle { (view_of seat.old).turn ≡ false }
    requires phase { phase < 8 }
    ensures of { IsOf turnstile.now seat.new }
    ensures idle { (view_of seat.new).turn ≡ false }
{
    if seat.calls_left() == 0 {
        return;
    }
    let mut count = turnstile.enter(rt, seat);
    count.turns = count.turns.wrapping_add(1);
    let mark = turnstile.see(seat);
    turnstile.leave(seat, count, &Tick { mark }, phase);
}

fn take_turns<R: Wait>(
    rt: &R,
    turnstile: &Turnstile<Count>,
    mut seat: Seat<Count>,
    count: u32,
) -> Seat<Count>
    requires of { IsOf turnstile.now seat }
    requires idle { (view_of seat).turn ≡ false }
    ensures of { IsOf turnstile.now result }
    ensures idle { (view_of result).turn ≡ false }
{
    for _ in 0..count {
        take_turn(rt, turnstile, &mut seat, 0);
    }
    seat
}

fn take_turns_in_two_threads<R: Threads + Wait + Sync>(
    rt: &R,
    turnstile: &Turnstile<Count>,
    mut seat: Seat<Count>,
    count: u32,
) -> Seat<Count>
    requires of { IsOf turnstile.now seat }
    requires idle { (view_of seat).turn ≡ false }
    ensures of { IsOf turnstile.now result }
    ensures idle { (view_of result).turn ≡ false }
{
    let other = turnstile.split(&mut seat);
    let (mut seat, other) = join(
        rt,
        || -> Seat<Count>
            requires { IsOf turnstile.now seat × ((view_of seat).turn ≡ false) }
            ensures { IsOf turnstile.entry.now result × ((view_of result).turn ≡ false) }
        { take_turns(rt, turnstile, seat, count) },
        || -> Seat<Count>
            requires { IsOf turnstile.now other × ((view_of other).turn ≡ false) }
            ensures { IsOf turnstile.entry.now result × ((view_of result).turn ≡ false) }
        { take_turns(rt, turnstile, other, count) },
    );
    turnstile.join(&mut seat, other);
    seat
}

fn shared<T: Send + Sync>(_: &T) {}

fn sent<T: Send>(_: &T) {}

fn cross_threads<T: Stands + Send>(turnstile: &Turnstile<T>, seat: &Seat<T>) {
    shared(turnstile);
    sent(seat);
}

#[test]
fn turns_marks_and_seats(rt: HostRuntime) -> Result<(), Fail> {
    let (turnstile, mut seat) = Turnstile::open(rt.alloc(), Count { turns: 0 }, 0)?;
    cross_threads(&turnstile, &seat);
    take_turn(&rt, &turnstile, &mut seat, 7);
    assert!(rt; turnstile.glance(&mut seat) == (1, 7));
    turnstile.raise(&mut seat, 5);
    assert!(rt; turnstile.see(&mut seat) == 5);
    let other = turnstile.split(&mut seat);
    assert!(rt; other.calls_left() == (1 << 55) - 1);
    turnstile.join(&mut seat, other);
    assert!(rt; seat.calls_left() == (1 << 56) - 1);
    Ok(())
}

#[test]
fn two_threads_take_turns(rt: HostRuntime) -> Result<(), Fail> {
    let (turnstile, seat) = Turnstile::open(rt.alloc(), Count { turns: 0 }, 3)?;
    let mut seat = take_turns_in_two_threads(&rt, &turnstile, seat, 1000);
    assert!(rt; turnstile.glance(&mut seat) == (2000, 0));
    Ok(())
}
