//! Lanes and a router: only the calls that make them ask for memory.
ghost use Rattle.std.specs.Prelude.{◌≡◌};

use super::print_refused;
use lane::{Item, Sender, Taker, lane};
use route::{Progress, Router};
use std::alloc::Global;
use std::process::Abort;
use trace::{NoMemory, Placed, Record};

fn put_calls<R: Abort>(rt: &R, sender: &mut Sender<u32>)
    ensures { sender.new.lane ≡ sender.old.lane }
{
    assert!(rt; !sender.marked());
    assert!(rt; sender.put(7) == Ok(()));
    assert!(rt; sender.put_block(&[8, 9]));
    assert!(rt; sender.put(10) == Ok(()));
    assert!(rt; sender.put(11) == Ok(()));
    sender.flush();
}

fn take_calls<R: Abort>(rt: &R, taker: &mut Taker<u32>) {
    let mut items = [Item::Finish; 8];
    assert!(rt; taker.take_block(&mut items) == 5);
    assert!(rt; taker.take() == None);
}

fn lane_calls<R: Abort>(rt: &R, alloc: Global, with: bool) -> Result<(), NoMemory> {
    let (mut sender, mut taker) = lane::<u32>(alloc, 6)?;
    if with {
        put_calls(rt, &mut sender);
        assert!(rt; !sender.marked() && sender.room() == 1);
        taker.beside(&mut sender);
        assert!(rt; (taker.ready(), taker.take()) == (5, Some(Item::One(7))));
        assert!(rt; sender.mark());
        let mut end = sender.end();
        taker.settle(&mut end);
        take_calls(rt, &mut taker);
    }
    Ok(())
}

fn router_calls<R: Abort>(rt: &R, alloc: Global, with: bool) -> Result<(), NoMemory> {
    let (first, mut taker) = lane::<Placed>(alloc, 4)?;
    let mut senders = Vec::new(alloc);
    senders.push(first)?;
    let mut router = Router::new(alloc, senders)?;
    if with {
        let placed = Placed {
            place: 1,
            what: Record::Spawn,
        };
        router.offer(placed);
        assert!(rt; router.pending());
        assert!(rt; router.step() == Progress::Moved);
        assert!(rt; router.step() == Progress::Idle);
        router.flush();
        assert!(rt; taker.take() == Some(Item::One(placed)));
        let next = Placed { place: 2, ..placed };
        assert!(rt; router.send(next).is_ok());
        assert!(rt; router.mark_all_step() == Progress::Moved);
        assert!(rt; router.mark_all_step() == Progress::Idle);
        assert!(rt; router.into_ends().len() == 1);
    }
    Ok(())
}

fn calls<R: Print + Abort>(rt: &R, alloc: Global, with: bool) {
    if lane_calls(rt, alloc, with).is_err() {
        print_refused(rt, "lane");
    }
    if router_calls(rt, alloc, with).is_err() {
        print_refused(rt, "router");
    }
}

#[test]
fn calls_without(rt: HostRuntime) {
    calls(&rt, rt.alloc(), false);
}

#[test]
fn calls_with(rt: HostRuntime) {
    calls(&rt, rt.alloc(), true);
}
