//! The router call by call, and what each lane gave at every point of a run.
ghost use Rattle.std.specs.Prelude.{◌≡◌, ◌+◌, ◌≤◌, [], ◌∷◌, All, map, IfOk, OnOk, vec_len};
ghost use Rattle.dag.specs.Bounds.{IsCapacity};
ghost use Rattle.lane.specs.Lanes.{put_of};
ghost use Rattle.route.specs.Routers.{lane_count};

use lane::{End, Item, Sender, Taker, lane};
use route::Progress::{self, Blocked, Idle, Moved};
use route::{Full, Router};
use std::alloc::Global;
use std::process::Abort;
use std::sync::Wait;
use std::test::*;
use trace::{NoMemory, Placed, Record};

fn at(place: u64, what: Record) -> Placed {
    Placed { place, what }
}

fn one(place: u64, what: Record) -> Item<Placed> {
    Item::One(at(place, what))
}

// A router over two lanes of these capacities, and the takers. What the calls below promise to their callers is no more
// than these need, or their proofs take long.
fn over_two(
    alloc: Global,
    first: usize,
    second: usize,
) -> Result<(Router, Taker<Placed>, Taker<Placed>), NoMemory>
    requires { IsCapacity first × IsCapacity second }
    ensures lanes { IfOk result (λ r. r.0.lanes ≡ r.1.lane ∷ r.2.lane ∷ []) }
    ensures count { IfOk result (λ r. lane_count r.0 ≡ 2) }
    ensures idle { IfOk result (λ r. r.0.pending ≡ None) }
    ensures unmarked { IfOk result (λ r. r.0.marked ≡ 0) }
{
    let (sender, taker) = lane::<Placed>(alloc, first)?;
    let (other_sender, other) = lane::<Placed>(alloc, second)?;
    Ok((router_of(alloc, sender, other_sender)?, taker, other))
}

fn router_of(
    alloc: Global,
    first: Sender<Placed>,
    second: Sender<Placed>,
) -> Result<Router, NoMemory>
    requires { (put_of first ≡ []) × (put_of second ≡ []) }
    ensures lanes { IfOk result (λ r. r.lanes ≡ first.lane ∷ second.lane ∷ []) }
    ensures count { IfOk result (λ r. lane_count r ≡ 2) }
    ensures idle { IfOk result (λ r. r.pending ≡ None) }
    ensures unmarked { IfOk result (λ r. r.marked ≡ 0) }
{
    let mut senders = Vec::with_capacity(alloc, 2)?;
    senders.push_reserved(first);
    senders.push_reserved(second);
    Router::new(alloc, senders)
}

// Offers a record where none is pending, and then one is.
fn offers<R: Abort>(rt: &R, router: &mut Router, place: u64, what: Record)
    requires { router.old.marked ≡ 0 }
    ensures lanes { router.new.lanes ≡ router.old.lanes }
    ensures unmarked { router.new.marked ≡ 0 }
{
    assert!(rt; !router.pending());
    router.offer(at(place, what));
    assert!(rt; router.pending());
}

// What the next steps come to.
fn steps<R: Abort>(rt: &R, router: &mut Router, wanted: &[Progress])
    requires { router.old.marked ≡ 0 }
    ensures lanes { router.new.lanes ≡ router.old.lanes }
    ensures unmarked { router.new.marked ≡ 0 }
{
    for progress in wanted {
        assert!(rt; router.step() == *progress, "{progress:?}");
    }
}

// What the next steps to the marks come to.
fn mark_steps<R: Abort>(rt: &R, router: &mut Router, wanted: &[Progress])
    requires { router.old.pending ≡ None }
    ensures lanes { router.new.lanes ≡ router.old.lanes }
    ensures idle { router.new.pending ≡ None }
{
    for progress in wanted {
        assert!(rt; router.mark_all_step() == *progress, "{progress:?}");
    }
}

// What a lane gives next.
fn gives<R: Abort>(rt: &R, taker: &mut Taker<Placed>, wanted: Item<Placed>)
    ensures { taker.new.lane ≡ taker.old.lane }
{
    assert!(rt; taker.take() == Some(wanted), "{wanted:?}");
}

#[test]
fn a_write_goes_to_one_lane(rt: HostRuntime) -> Result<(), Fail> {
    let (to_even, mut even) = lane::<Placed>(rt.alloc(), 4)?;
    let (to_odd, mut odd) = lane::<Placed>(rt.alloc(), 4)?;
    let senders = vec![in rt.alloc(); to_even, to_odd]?;
    let mut router = Router::new(rt.alloc(), senders)?;
    let (place, what) = (1, Record::Write(5));
    assert!(rt; router.send(Placed { place, what }).is_ok());
    router.flush();
    assert_eq!(rt; even.take(), None);
    assert_eq!(rt; odd.take(), Some(Item::One(Placed { place, what })));
    Ok(())
}

#[test]
fn two_lanes(rt: HostRuntime) -> Result<(), Fail> {
    let (router, taker, other) = over_two(rt.alloc(), 1, 1)?;
    send_two(&rt, router, taker, other);
    Ok(())
}

// Three records on two lanes of one item each.
fn send_two<R: Abort>(
    rt: &R,
    mut router: Router,
    mut taker: Taker<Placed>,
    mut other: Taker<Placed>,
)
    requires unmarked { router.marked ≡ 0 }
    requires lanes { router.lanes ≡ taker.lane ∷ other.lane ∷ [] }
{
    offers(rt, &mut router, 1, Record::Spawn);
    steps(rt, &mut router, &[Moved, Moved, Idle]);
    offers(rt, &mut router, 2, Record::Write(5));
    steps(rt, &mut router, &[Blocked(1)]);
    gives(rt, &mut other, one(1, Record::Spawn));
    steps(rt, &mut router, &[Moved, Idle]);
    offers(rt, &mut router, 3, Record::Return);
    steps(rt, &mut router, &[Blocked(0)]);
    gives(rt, &mut taker, one(1, Record::Spawn));
    steps(rt, &mut router, &[Moved, Blocked(1)]);
    gives(rt, &mut other, one(2, Record::Write(5)));
    steps(rt, &mut router, &[Moved]);
    mark_two(rt, router, taker, other);
}

// The marks, after which both lanes are settled.
fn mark_two<R: Abort>(
    rt: &R,
    mut router: Router,
    mut taker: Taker<Placed>,
    mut other: Taker<Placed>,
)
    requires lanes { router.lanes ≡ taker.lane ∷ other.lane ∷ [] }
{
    assert!(rt; !router.pending());
    mark_steps(rt, &mut router, &[Blocked(0)]);
    gives(rt, &mut taker, one(3, Record::Return));
    mark_steps(rt, &mut router, &[Moved, Blocked(1)]);
    gives(rt, &mut other, one(3, Record::Return));
    mark_steps(rt, &mut router, &[Moved]);
    let ends = ends_of(rt, router);
    gives(rt, &mut taker, Item::Finish);
    gives(rt, &mut other, Item::Finish);
    settle_two(ends, taker, other);
}

// The receipts of a router whose lanes have their marks.
fn ends_of<R: Abort>(rt: &R, mut router: Router) -> Vec<End<Placed>>
    requires { router.pending ≡ None }
    ensures { map (λ e. e.lane) result.items ≡ router.lanes }
{
    assert!(rt; router.mark_all_step() == Idle);
    router.into_ends()
}

// The receipts are those of the two lanes, in their order.
fn settle_two(mut ends: Vec<End<Placed>>, mut taker: Taker<Placed>, mut other: Taker<Placed>)
    requires { map (λ e. e.lane) ends.items ≡ taker.lane ∷ other.lane ∷ [] }
{
    taker.settle(&mut ends[0]);
    other.settle(&mut ends[1]);
}

// What a record's send comes to.
fn sends<R: Abort>(rt: &R, router: &mut Router, place: u64, what: Record, wanted: Result<(), Full>)
    requires { router.old.marked ≡ 0 }
    ensures lanes { router.new.lanes ≡ router.old.lanes }
    ensures unmarked { router.new.marked ≡ 0 }
{
    assert!(rt; !router.pending());
    assert!(rt; router.send(at(place, what)) == wanted, "{wanted:?}");
    assert!(rt; router.pending() == wanted.is_err());
}

#[test]
fn sends_up_to_a_full_lane(rt: HostRuntime) -> Result<(), Fail> {
    let (mut router, mut taker, mut other) = over_two(rt.alloc(), 2, 1)?;
    sends(&rt, &mut router, 1, Record::Spawn, Ok(()));
    gives(&rt, &mut other, one(1, Record::Spawn));
    sends(&rt, &mut router, 2, Record::Write(5), Ok(()));
    sends(&rt, &mut router, 3, Record::Return, Err(Full));
    steps(&rt, &mut router, &[Blocked(1)]);
    gives(&rt, &mut other, one(2, Record::Write(5)));
    steps(&rt, &mut router, &[Moved, Idle]);
    sends(&rt, &mut router, 4, Record::Read(4), Err(Full));
    gives(&rt, &mut taker, one(1, Record::Spawn));
    gives(&rt, &mut taker, one(3, Record::Return));
    gives(&rt, &mut other, one(3, Record::Return));
    Ok(())
}

#[test]
fn flush_shows_each_lane(rt: HostRuntime) -> Result<(), Fail> {
    let (mut router, mut taker, mut other) = over_two(rt.alloc(), 8, 8)?;
    offers(&rt, &mut router, 1, Record::Spawn);
    steps(&rt, &mut router, &[Moved, Moved, Idle]);
    router.flush();
    gives(&rt, &mut taker, one(1, Record::Spawn));
    gives(&rt, &mut other, one(1, Record::Spawn));
    Ok(())
}

// A lane's taker, and what it gave.
#[derive(Drop)]
struct Watched {
    taker: Taker<Placed>,
    given: Vec<Placed>,
    marks: u64,
}

impl Watched {
    // Takes the item that is there, and says whether there was one.
    fn take(&mut self) -> Result<bool, Fail> {
        match self.taker.take() {
            Some(Item::One(placed)) => self.given.push(placed)?,
            Some(Item::Finish) => self.marks = self.marks.saturating_add(1),
            None => return Ok(false),
        }
        Ok(true)
    }
}

// Adds a lane of one item.
fn add_lane(
    alloc: Global,
    senders: &mut Vec<Sender<Placed>>,
    all: &mut Vec<Watched>,
) -> Result<(), Fail>
    ensures count { OnOk result (vec_len senders.new ≡ vec_len senders.old + 1) }
    ensures empty { OnOk result (All (λ s. put_of s ≡ []) senders.old.items
        → All (λ s. put_of s ≡ []) senders.new.items) }
{
    let (sender, taker) = lane::<Placed>(alloc, 1)?;
    senders.push(sender)?;
    all.push(Watched {
        taker,
        given: Vec::new(alloc),
        marks: 0,
    })?;
    Ok(())
}

fn lanes(alloc: Global, count: usize) -> Result<(Vec<Sender<Placed>>, Vec<Watched>), Fail>
    ensures count { IfOk result (λ r. vec_len r.0 ≡ count) }
    ensures empty { IfOk result (λ r. All (λ s. put_of s ≡ []) r.0.items) }
{
    let mut senders = Vec::new(alloc);
    let mut all = Vec::new(alloc);
    for _ in 0..count {
        add_lane(alloc, &mut senders, &mut all)?;
    }
    Ok((senders, all))
}

const THREE_SHARDS: [Record; 7] = [
    Record::Spawn,
    Record::Write(8),
    Record::Write(2),
    Record::Return,
    Record::Read(8),
    Record::Read(2),
    Record::Return,
];

fn goes(what: Record, lane: u64, count: u64) -> bool
    requires { 1 ≤ count }
{
    match what {
        Record::Read(location) | Record::Write(location) => location % count == lane,
        _ => true,
    }
}

// Whether the lane gave its share of the row's records up to this place.
fn is_share(given: &[Placed], lane: u64, count: u64, last: u64) -> bool
    requires { 1 ≤ count }
{
    let mut place = 0u64;
    let mut seen = 0usize;
    for what in THREE_SHARDS {
        place = place.saturating_add(1);
        if place <= last && goes(what, lane, count) {
            if given.get(seen) != Some(&at(place, what)) {
                return false;
            }
            seen = seen.saturating_add(1);
        }
    }
    seen == given.len()
}

// Takes from each lane: one of them has an item.
fn take_one<R: Abort>(rt: &R, watched: &mut Vec<Watched>) -> Result<(), Fail> {
    let mut taken = 0u64;
    for one in watched.iter_mut() {
        if one.take()? {
            taken = taken.saturating_add(1);
        }
    }
    assert!(rt; taken == 1, "{taken}");
    Ok(())
}

// Each lane gave its share of the records up to `place`, or lacks that one while it is being sent.
fn compare<R: Abort>(rt: &R, watched: &Vec<Watched>, place: u64, pending: bool) {
    let count = watched.len() as u64;
    let mut lane = 0u64;
    for one in watched {
        let whole = is_share(&one.given, lane, count, place);
        let lacking = is_share(&one.given, lane, count, place.saturating_sub(1));
        assert!(rt; whole || pending && lacking, "lane {lane} at {place}");
        lane = lane.saturating_add(1);
    }
}

// Whether a put was done, of the pending record; a lane is never full.
fn moves<R: Abort>(rt: &R, router: &mut Router) -> bool
    requires { router.old.marked ≡ 0 }
    ensures { router.new.marked ≡ 0 }
{
    let progress = router.step();
    assert!(rt; progress == Moved || progress == Idle);
    progress == Moved
}

// Whether a put was done, of a mark; a lane is never full.
fn marks<R: Abort>(rt: &R, router: &mut Router) -> bool
    requires { router.old.pending ≡ None }
    ensures { router.new.pending ≡ None }
{
    let progress = router.mark_all_step();
    assert!(rt; progress == Moved || progress == Idle);
    progress == Moved
}

// Sends the record, and compares after each put.
fn send<R: Wait + Abort>(
    rt: &R,
    router: &mut Router,
    watched: &mut Vec<Watched>,
    placed: Placed,
) -> Result<(), Fail>
    requires { router.old.marked ≡ 0 }
    ensures { router.new.marked ≡ 0 }
{
    offers(rt, router, placed.place, placed.what);
    for _ in rt.forever() {
        if !moves(rt, router) {
            return Ok(());
        }
        take_one(rt, watched)?;
        compare(rt, watched, placed.place, router.pending());
    }
    unreachable!()
}

// Marks all lanes, each of which has then given its whole share and one mark.
fn mark<R: Wait + Abort>(
    rt: &R,
    mut router: Router,
    watched: &mut Vec<Watched>,
) -> Result<(), Fail> {
    assert!(rt; !router.pending());
    for _ in rt.forever() {
        if !marks(rt, &mut router) {
            break;
        }
        take_one(rt, watched)?;
    }
    compare(rt, watched, 7, false);
    for one in watched.iter() {
        assert!(rt; one.marks == 1);
    }
    assert!(rt; ends_of(rt, router).len() == watched.len());
    Ok(())
}

fn three_shards<R: Wait + Abort>(rt: &R, alloc: Global, count: usize) -> Result<Vec<Watched>, Fail>
    requires { (1 ≤ count) × (count ≤ 64) }
{
    let (senders, mut watched) = lanes(alloc, count)?;
    let mut router = Router::new(alloc, senders)?;
    let mut place = 0u64;
    for what in THREE_SHARDS {
        place = place.saturating_add(1);
        send(rt, &mut router, &mut watched, at(place, what))?;
    }
    mark(rt, router, &mut watched)?;
    Ok(watched)
}

#[test]
fn shares_at_every_point(rt: HostRuntime) -> Result<(), Fail> {
    for count in [1, 2, 3, 64] {
        let watched = three_shards(&rt, rt.alloc(), count)?;
        assert!(rt; watched.len() == count, "{count}");
    }
    Ok(())
}

#[test]
fn taken_by_three(rt: HostRuntime) -> Result<(), Fail> {
    let watched = three_shards(&rt, rt.alloc(), 3)?;
    let mut lane = 0usize;
    for count in [3, 3, 7] {
        let given = watched.get(lane).map(|one| one.given.len());
        assert!(rt; given == Some(count), "lane {lane}");
        lane = lane.saturating_add(1);
    }
    Ok(())
}
