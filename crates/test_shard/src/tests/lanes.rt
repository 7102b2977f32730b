//! The ends in one thread and in two, the least and the greatest capacity, what an end knows of the other, blocks, and
//! what a flush shows.
ghost use Rattle.std.specs.Prelude.{◌≡◌, ◌≤◌, false, length};
ghost use Rattle.lane.specs.declared.sender.TheConstants.{BLOCK};
ghost use Rattle.lane.specs.Items.{has_mark};
ghost use Rattle.lane.specs.Lanes.{put_of, IsUnmarked};

use lane::{BLOCK, End, Item, Sender, Taker, lane};
use std::alloc::Global;
use std::process::Abort;
use std::snapshot::Snapshot;
use std::sync::Wait;
use std::test::*;
use std::thread;
use std::thread::Promise;
use trace::NoMemory;

// What a call of the sender answers. The callers know of the ends no more than they need, or their proofs take long.
fn puts<R: Abort>(rt: &R, sender: &mut Sender<u32>, value: u32, wanted: Result<(), u32>)
    requires { IsUnmarked sender.old }
    ensures lane { sender.new.lane ≡ sender.old.lane }
    ensures unmarked { IsUnmarked sender.new }
{
    assert!(rt; sender.put(value) == wanted, "{value}");
}

// What the sender answers to a block.
fn puts_block<R: Abort>(rt: &R, sender: &mut Sender<u32>, values: &[u32], wanted: bool)
    requires unmarked { IsUnmarked sender.old }
    requires most { length values.now ≤ BLOCK }
    ensures { IsUnmarked sender.new }
{
    assert!(rt; sender.put_block(values) == wanted, "{values:?}");
}

// Whether the mark is put.
fn marks<R: Abort>(rt: &R, sender: &mut Sender<u32>, wanted: bool)
    requires { IsUnmarked sender.old }
    ensures lane { sender.new.lane ≡ sender.old.lane }
    ensures marked { has_mark (put_of sender.new) ≡ wanted }
{
    assert!(rt; sender.mark() == wanted);
    assert!(rt; sender.marked() == wanted);
}

// What a call of the taker answers.
fn takes<R: Abort>(rt: &R, taker: &mut Taker<u32>, wanted: Option<Item<u32>>)
    ensures { taker.new.lane ≡ taker.old.lane }
{
    assert!(rt; taker.take() == wanted, "{wanted:?}");
}

// What the taker puts into the front of a slice.
fn takes_block<R: Abort>(
    rt: &R,
    taker: &mut Taker<u32>,
    items: &mut [Item<u32>],
    wanted: &[Item<u32>],
) {
    assert!(rt; taker.take_block(items) == wanted.len(), "{wanted:?}");
    assert!(rt; items.starts_with(wanted), "{wanted:?}");
}

#[test]
fn lane_of_two(rt: HostRuntime) -> Result<(), Fail> {
    let (mut sender, mut taker) = lane::<u32>(rt.alloc(), 2)?;
    assert!(rt; (sender.put(1), sender.put(2), sender.put(3)) == (Ok(()), Ok(()), Err(3)));
    assert_eq!(rt; taker.take(), Some(Item::One(1)));
    assert_eq!(rt; sender.put(3), Ok(()));
    assert!(rt; !sender.mark());
    assert_eq!(rt; taker.take(), Some(Item::One(2)));
    assert!(rt; sender.mark());
    assert_eq!(rt; taker.take(), Some(Item::One(3)));
    assert_eq!(rt; taker.take(), Some(Item::Finish));
    assert_eq!(rt; taker.take(), None);
    Ok(())
}

// Puts the numbers below the capacity, and takes them.
fn fill<R: Wait + Abort>(rt: &R, alloc: Global, capacity: u32) -> Result<(), NoMemory>
    requires { (1 ≤ capacity) × (capacity ≤ 65536) }
{
    let (mut sender, mut taker) = lane::<u32>(alloc, capacity as usize)?;
    for value in 0..capacity {
        puts(rt, &mut sender, value, Ok(()));
    }
    puts(rt, &mut sender, capacity, Err(capacity));
    for value in 0..capacity {
        takes(rt, &mut taker, Some(Item::One(value)));
    }
    takes(rt, &mut taker, None);
    marks(rt, &mut sender, true);
    takes(rt, &mut taker, Some(Item::Finish));
    Ok(())
}

// For how many items more the sender knows to have room.
fn has_room<R: Abort>(rt: &R, sender: &Sender<u32>, wanted: usize) {
    assert!(rt; sender.room() == wanted, "{wanted}");
}

// How many items the taker knows to wait.
fn has_ready<R: Abort>(rt: &R, taker: &Taker<u32>, wanted: usize) {
    assert!(rt; taker.ready() == wanted, "{wanted}");
}

// Looks at the other end.
fn looks(taker: &mut Taker<u32>, sender: &mut Sender<u32>)
    requires { sender.old.lane ≡ taker.old.lane }
    ensures lane { sender.new.lane ≡ sender.old.lane }
    ensures taken { taker.new.lane ≡ taker.old.lane }
    ensures unmarked { has_mark (put_of sender.new) ≡ has_mark (put_of sender.old) }
{
    taker.beside(sender);
}

// Looks at the receipt.
fn settles(taker: &mut Taker<u32>, mut end: End<u32>)
    requires { end.lane ≡ taker.old.lane }
{
    taker.settle(&mut end);
}

#[test]
fn looks_at_the_other_end(rt: HostRuntime) -> Result<(), Fail> {
    let (mut sender, mut taker) = lane::<u32>(rt.alloc(), 4)?;
    assert!(rt; sender.capacity() == 4);
    has_room(&rt, &sender, 4);
    puts(&rt, &mut sender, 7, Ok(()));
    puts(&rt, &mut sender, 8, Ok(()));
    puts(&rt, &mut sender, 9, Ok(()));
    has_room(&rt, &sender, 1);
    looks(&mut taker, &mut sender);
    has_ready(&rt, &taker, 3);
    takes(&rt, &mut taker, Some(Item::One(7)));
    takes(&rt, &mut taker, Some(Item::One(8)));
    marks(&rt, &mut sender, true);
    settles(&mut taker, sender.end());
    has_ready(&rt, &taker, 2);
    takes(&rt, &mut taker, Some(Item::One(9)));
    takes(&rt, &mut taker, Some(Item::Finish));
    takes(&rt, &mut taker, None);
    Ok(())
}

#[test]
fn blocks(rt: HostRuntime) -> Result<(), Fail> {
    let (mut sender, mut taker) = lane::<u32>(rt.alloc(), 4)?;
    puts_block(&rt, &mut sender, &[1, 2, 3], true);
    puts_block(&rt, &mut sender, &[4, 5], false);
    puts(&rt, &mut sender, 4, Ok(()));
    let mut two = [Item::Finish; 2];
    takes_block(&rt, &mut taker, &mut two, &[Item::One(1), Item::One(2)]);
    marks(&rt, &mut sender, true);
    let mut many = [Item::Finish; 64];
    let rest = [Item::One(3), Item::One(4), Item::Finish];
    takes_block(&rt, &mut taker, &mut many, &rest);
    takes_block(&rt, &mut taker, &mut many, &[]);
    Ok(())
}

#[test]
fn flush_shows_all(rt: HostRuntime) -> Result<(), Fail> {
    let (mut sender, mut taker) = lane::<u32>(rt.alloc(), 8)?;
    puts(&rt, &mut sender, 1, Ok(()));
    puts(&rt, &mut sender, 2, Ok(()));
    puts(&rt, &mut sender, 3, Ok(()));
    has_room(&rt, &sender, 5);
    sender.flush();
    let mut many = [Item::Finish; 64];
    let all = [Item::One(1), Item::One(2), Item::One(3)];
    takes_block(&rt, &mut taker, &mut many, &all);
    Ok(())
}

#[test]
fn a_quarter_of_a_lane_is_shown_without_a_flush(rt: HostRuntime) -> Result<(), Fail> {
    let (mut sender, mut taker) = lane::<u32>(rt.alloc(), 8)?;
    puts(&rt, &mut sender, 1, Ok(()));
    puts(&rt, &mut sender, 2, Ok(()));
    puts(&rt, &mut sender, 3, Ok(()));
    puts(&rt, &mut sender, 4, Ok(()));
    takes(&rt, &mut taker, Some(Item::One(1)));
    Ok(())
}

#[test]
fn capacities(rt: HostRuntime) -> Result<(), Fail> {
    fill(&rt, rt.alloc(), 1)?;
    fill(&rt, rt.alloc(), 65536)?;
    Ok(())
}

/// The receipt is of the lane whose sender went to the thread.
#[derive(Drop)]
struct EndOf {
    sender: Snapshot<Sender<u32>>,
}

impl Promise<End<u32>> for EndOf {
    ghost use Rattle.std.specs.Prelude.{◌≡◌};

    ghost kept_by = { λ p r. r.lane ≡ p.sender.value.lane };
}

fn put_waiting<R: Wait>(rt: &R, sender: &mut Sender<u32>, value: u32)
    requires { IsUnmarked sender.old }
    ensures lane { sender.new.lane ≡ sender.old.lane }
    ensures unmarked { IsUnmarked sender.new }
{
    for _ in rt.forever() {
        if sender.put(value).is_ok() {
            return;
        }
        thread::yield_now();
    }
    unreachable!()
}

fn mark_waiting<R: Wait>(rt: &R, mut sender: Sender<u32>) -> End<u32>
    requires { IsUnmarked sender }
    ensures { result.lane ≡ sender.lane }
{
    for _ in rt.forever() {
        if sender.mark() {
            return sender.end();
        }
        thread::yield_now();
    }
    unreachable!()
}

// Puts the numbers 1 to `count`, and the mark.
fn send<R: Wait>(rt: &R, mut sender: Sender<u32>, count: u32) -> End<u32>
    requires { IsUnmarked sender }
    ensures { result.lane ≡ sender.lane }
{
    for value in 0..count {
        put_waiting(rt, &mut sender, value + 1);
    }
    mark_waiting(rt, sender)
}

// Takes up to the mark: the numbers from 1 on. The last one is checked.
fn receive<R: Wait + Abort>(rt: &R, taker: &mut Taker<u32>) -> u32
    ensures { taker.new.lane ≡ taker.old.lane }
{
    let mut last = 0u32;
    for _ in rt.forever() {
        match taker.take() {
            Some(Item::One(value)) => {
                assert!(rt; last.checked_add(1) == Some(value), "{value} after {last}");
                last = value;
            }
            Some(Item::Finish) => break,
            None => thread::yield_now(),
        }
    }
    last
}

#[test]
fn two_threads(rt: HostRuntime) -> Result<(), Fail> {
    let (sender, mut taker) = lane::<u32>(rt.alloc(), 3)?;
    let promise = EndOf {
        sender: Snapshot::of(&sender),
    };
    let child = thread::spawn_with(&rt, promise, move || send(&rt, sender, 10_000))?;
    let last = receive(&rt, &mut taker);
    assert!(rt; last == 10_000, "{last}");
    settles(&mut taker, child.join(&rt));
    takes(&rt, &mut taker, None);
    Ok(())
}
