//! A shard on worked rows, and its worker in one thread and in a thread of its own.
ghost use Rattle.std.specs.Prelude.{◌≡◌, false, [], IfOk};
ghost use Rattle.dag.specs.Bounds.{IsCapacity};
ghost use Rattle.lane.specs.Lanes.{put_of, IsUnmarked};

use lane::{Item, Sender, Taker, lane};
use shard::{Back, Gate, Open, Shard, Worked, work};
use std::alloc::Global;
use std::hash::{BuildHasherDefault, FoldHasher};
use std::process::Abort;
use std::snapshot::Snapshot;
use std::sync::Wait;
use std::sync::atomic::{AtomicU64, Ordering};
use std::test::*;
use std::thread;
use std::thread::Promise;
use std::time::Clock;
use trace::Kind::{Read, Write};
use trace::{Kind, NoMemory, Placed, Race, Record};

type Hasher = BuildHasherDefault<FoldHasher>;

/// A race: its location, and the kind and the place of each of its accesses.
type Reported = (u64, (Kind, u64), (Kind, u64));

const SPAWN: Record = Record::Spawn;

const SYNC: Record = Record::Sync;

const RETURN: Record = Record::Return;

const WRITE_3: Record = Record::Write(3);

const WRITE_8: Record = Record::Write(8);

const WRITE_2: Record = Record::Write(2);

const READ_8: Record = Record::Read(8);

const READ_2: Record = Record::Read(2);

/// The records of row `three-writes`.
const THREE_WRITES: [Record; 8] = [
    SPAWN, WRITE_3, RETURN, SPAWN, WRITE_3, RETURN, WRITE_3, RETURN,
];

/// The records of row `three-shards`.
const THREE_SHARDS: [Record; 7] = [SPAWN, WRITE_8, WRITE_2, RETURN, READ_8, READ_2, RETURN];

fn reported(race: Race) -> Reported {
    let (first, second) = (race.first, race.second);
    (
        race.location,
        (first.kind, first.place),
        (second.kind, second.place),
    )
}

/// The race that a shard reports of a record, at its second place.
fn apply(shard: &mut Shard<Hasher>, place: u64, what: Record) -> Result<Option<Reported>, Fail> {
    if !shard.accepts(place) {
        return Err("not accepted".into());
    }
    match shard.apply(Placed { place, what })? {
        Some(race) if race.second.place != place => Err("reported at another place".into()),
        Some(race) => Ok(Some(reported(race))),
        None => Ok(None),
    }
}

/// The races that a shard reports of records.
fn apply_all(
    alloc: Global,
    shard: &mut Shard<Hasher>,
    records: &[(u64, Record)],
) -> Result<Vec<Reported>, Fail> {
    let mut all = Vec::new(alloc);
    for (place, what) in records {
        if let Some(reported) = apply(shard, *place, *what)? {
            all.push(reported)?;
        }
    }
    Ok(all)
}

/// The races that a new shard reports of records, and the number of records that it took.
fn races(alloc: Global, records: &[(u64, Record)]) -> Result<(Vec<Reported>, u64), Fail> {
    let mut shard = Shard::new(alloc, 0, Hasher::default())?;
    let all = apply_all(alloc, &mut shard, records)?;
    Ok((all, shard.taken()))
}

/// Rows, their records, and the reported races.
const ROWS: &str = "empty | return | []
write-write | spawn, write 5, return, write 5, return | [(5, (Write, 2), (Write, 4))]
sync-orders | spawn, write 5, return, sync, write 5, return | []
read-read | spawn, read 5, return, read 5, return | []
two-readers-then-write | spawn, read 9, return, spawn, read 9, return, write 9, return | [(9, (Read, 2), (Write, 7))]
reader-moves-to-child | read 9, spawn, read 9, return, write 9, return | [(9, (Read, 3), (Write, 5))]
grandchild-synced | spawn, spawn, write 1, return, return, sync, read 1, return | []
sync-in-sibling | spawn, write 1, return, spawn, sync, write 1, return, return | [(1, (Write, 2), (Write, 6))]
grandchild-unsynced | spawn, spawn, write 1, return, return, read 1, return | [(1, (Write, 3), (Read, 6))]
location-range | write 18446744073709551615, return | []
three-writes | spawn, write 3, return, spawn, write 3, return, write 3, return | [(3, (Write, 2), (Write, 5))]
first-reader-stays | spawn, read 4, return, read 4, write 4, return | [(4, (Read, 2), (Write, 5))]
read-then-write-in-child | spawn, read 7, write 7, return, write 7, return | [(7, (Write, 3), (Write, 5))]
read-in-child-of-writer | write 7, spawn, read 7, return, write 7, return | [(7, (Read, 3), (Write, 5))]
three-shards | spawn, write 8, write 2, return, read 8, read 2, return | \
    [(8, (Write, 2), (Read, 5)), (2, (Write, 3), (Read, 6))]";

fn record_of(words: &str) -> Option<Record> {
    let (word, number) = words.split_once(' ').unwrap_or((words, ""));
    let location = number.parse::<u64>().unwrap_or(0);
    match word {
        "spawn" => Some(SPAWN),
        "sync" => Some(SYNC),
        "return" => Some(RETURN),
        "read" => Some(Record::Read(location)),
        "write" => Some(Record::Write(location)),
        _ => None,
    }
}

/// The records of a row with the places from 1 on.
fn placed(alloc: Global, column: &str) -> Result<Vec<(u64, Record)>, Fail> {
    let mut all = Vec::new(alloc);
    let mut place = 0u64;
    for words in column.split(", ") {
        place = place.saturating_add(1);
        all.push((place, record_of(words).ok_or("no record")?))?;
    }
    Ok(all)
}

/// Whether these are the reported races of the records, and the shard took all records.
fn are_races(alloc: Global, column: &str, wanted: &str) -> Result<bool, Fail> {
    let placed = placed(alloc, column)?;
    let (found, taken) = races(alloc, &placed)?;
    let text = format!(in alloc; "{found:?}")?;
    Ok(text.as_str() == wanted && taken == placed.len() as u64)
}

#[test]
fn rows(rt: HostRuntime) -> Result<(), Fail> {
    for row in ROWS.split('\n') {
        let (name, rest) = row.split_once(" | ").ok_or("no records")?;
        let (records, wanted) = rest.split_once(" | ").ok_or("no races")?;
        assert!(rt; are_races(rt.alloc(), records, wanted)?, "{name}");
    }
    Ok(())
}

// What shard 1 of 2 gets of row `write-write` with location 5, and what shard 0 gets.
#[test]
fn shares(rt: HostRuntime) -> Result<(), Fail> {
    let write = Record::Write(5);
    let whole = [(1, SPAWN), (2, write), (3, RETURN), (4, write), (5, RETURN)];
    let (found, taken) = races(rt.alloc(), &whole)?;
    assert!(rt; found.as_slice() == [(5, (Write, 2), (Write, 4))].as_slice());
    assert!(rt; taken == 5);
    let structure = [(1, SPAWN), (3, RETURN), (5, RETURN)];
    let (found, taken) = races(rt.alloc(), &structure)?;
    assert!(rt; found.is_empty());
    assert!(rt; taken == 3);
    Ok(())
}

#[test]
fn after_the_roots_return(rt: HostRuntime) -> Result<(), Fail> {
    let mut shard = Shard::new(rt.alloc(), 0, Hasher::default())?;
    assert!(rt; !shard.accepts(0));
    assert!(rt; shard.accepts(281_474_976_710_656));
    assert!(rt; !shard.accepts(281_474_976_710_657));
    assert!(rt; apply(&mut shard, 3, RETURN)?.is_none());
    assert!(rt; !shard.accepts(4));
    assert!(rt; shard.taken() == 1);
    Ok(())
}

/// Puts the records with the places from 1 on, and the mark.
fn fill<R: Abort>(rt: &R, mut sender: Sender<Placed>, records: &[Record])
    requires { IsUnmarked sender }
{
    for (index, what) in records.iter().enumerate() {
        let place = index as u64 + 1;
        let what = *what;
        assert!(rt; sender.put(Placed { place, what }).is_ok(), "{place}");
    }
    assert!(rt; sender.mark());
}

/// A gate that counts the passes, and adds up the shards' numbers and the places.
#[derive(Drop)]
struct Passes {
    count: AtomicU64,
    shards: AtomicU64,
    places: AtomicU64,
}

impl Gate for Passes {
    fn pass(&self, shard: u32, place: u64) {
        self.count.fetch_add(1, Ordering::SeqCst);
        self.shards.fetch_add(u64::from(shard), Ordering::SeqCst);
        self.places.fetch_add(place, Ordering::SeqCst);
    }
}

impl Passes {
    fn none() -> Passes {
        Passes {
            count: AtomicU64::new(0),
            shards: AtomicU64::new(0),
            places: AtomicU64::new(0),
        }
    }

    /// Shard 7 has passed at each place from 1 to `count`.
    fn are_by_seven(&self, count: u64) -> bool {
        let places = count.saturating_mul(count.saturating_add(1)) / 2;
        self.count.load(Ordering::SeqCst) == count
            && self.shards.load(Ordering::SeqCst) == count.saturating_mul(7)
            && self.places.load(Ordering::SeqCst) == places
    }
}

/// Takes all that waits, at most 16 items.
fn take_all(alloc: Global, taker: &mut Taker<Back>) -> Result<Vec<Item<Back>>, Fail>
    ensures { taker.new.lane ≡ taker.old.lane }
{
    let mut items = Vec::new(alloc);
    for _ in 0..16 {
        if let Some(item) = taker.take() {
            items.push(item)?;
        }
    }
    Ok(items)
}

/// The ends of a lane to a worker and of one back, for this number of items each.
fn lanes(
    alloc: Global,
    capacity: usize,
) -> Result<(Sender<Placed>, Taker<Placed>, Sender<Back>, Taker<Back>), NoMemory>
    requires { IsCapacity capacity }
    ensures to { IfOk result (λ r. r.0.lane ≡ r.1.lane) }
    ensures back { IfOk result (λ r. r.2.lane ≡ r.3.lane) }
    ensures none_put { IfOk result (λ r. (put_of r.0 ≡ []) × (put_of r.2 ≡ [])) }
    ensures none_taken { IfOk result (λ r. r.1.taken ≡ []) }
{
    let (sender, taker) = lane::<Placed>(alloc, capacity)?;
    let (back, back_taker) = lane::<Back>(alloc, capacity)?;
    Ok((sender, taker, back, back_taker))
}

/// What a worker of shard 7 puts on its lane back for these records, and its count. It passes the gate at each
/// record.
fn worked<R: Wait + Clock + Abort>(
    rt: &R,
    alloc: Global,
    records: &[Record],
) -> Result<(Vec<Item<Back>>, u64), Fail> {
    let shard = Shard::new(alloc, 7, Hasher::default())?;
    let (sender, taker, back, back_taker) = lanes(alloc, 16)?;
    fill(rt, sender, records);
    let gate = Passes::none();
    let worked = work(rt, shard, taker, back, &gate);
    assert!(rt; gate.are_by_seven(records.len() as u64));
    put_back(rt, alloc, worked, back_taker)
}

/// What a worker that has ended put on its lane back, and its count.
fn put_back<R: Abort>(
    rt: &R,
    alloc: Global,
    mut worked: Worked<Hasher>,
    mut back_taker: Taker<Back>,
) -> Result<(Vec<Item<Back>>, u64), Fail>
    requires { worked.back.lane ≡ back_taker.lane }
{
    assert!(rt; worked.taker.ended());
    let items = take_all(alloc, &mut back_taker)?;
    back_taker.settle(&mut worked.back);
    Ok((items, worked.shard.taken()))
}

#[test]
fn race_on_the_lane_back(rt: HostRuntime) -> Result<(), Fail> {
    let (mut sender, taker) = lane::<Placed>(rt.alloc(), 16)?;
    let (back, mut races) = lane::<Back>(rt.alloc(), 16)?;
    let (spawn, write) = (Record::Spawn, Record::Write(3));
    for (place, what) in [(1, spawn), (2, write), (3, Record::Return), (4, write)] {
        assert!(rt; sender.put(Placed { place, what }).is_ok());
    }
    assert!(rt; sender.mark());
    let shard = Shard::new(rt.alloc(), 0, BuildHasherDefault::<FoldHasher>::default())?;
    let done = work(&rt, shard, taker, back, &Open);
    assert!(rt; done.shard.taken() == 4 && matches!(races.take(), Some(Item::One(Back::Race(_)))));
    Ok(())
}

#[test]
fn work_in_one_thread(rt: HostRuntime) -> Result<(), Fail> {
    let (items, taken) = worked(&rt, rt.alloc(), &THREE_WRITES)?;
    assert!(rt; taken == 8);
    assert!(rt; items.len() == 2);
    match items[0] {
        Item::One(Back::Race(race)) => assert!(rt; reported(race) == (3, (Write, 2), (Write, 5))),
        _ => return Err("no race".into()),
    }
    assert!(rt; items[1] == Item::Finish);
    Ok(())
}

// What follows the root's return is taken, and nothing is reported of it.
#[test]
fn work_past_the_end(rt: HostRuntime) -> Result<(), Fail> {
    let records = [SPAWN, WRITE_3, RETURN, RETURN, WRITE_3];
    let (items, taken) = worked(&rt, rt.alloc(), &records)?;
    assert!(rt; items.as_slice() == [Item::Finish].as_slice());
    assert!(rt; taken == 5);
    Ok(())
}

/// What a worker does with the ends that are handed to its thread.
#[derive(Drop)]
struct WorkOf {
    taker: Snapshot<Taker<Placed>>,
    back: Snapshot<Sender<Back>>,
}

impl Promise<Worked<Hasher>> for WorkOf {
    ghost use Rattle.shard.specs.Worked.{DidWork};

    ghost kept_by = { λ p r. DidWork p.taker.value p.back.value r };
}

/// Puts the next record, or the mark after the last one, if the lane has room, and returns the number of the record
/// that is then the next.
fn put_next(sender: &mut Sender<Placed>, records: &[Record], next: usize) -> usize
    ensures { sender.new.lane ≡ sender.old.lane }
{
    if sender.marked() {
        return next;
    }
    if next >= records.len() {
        sender.mark();
        return next;
    }
    let place = next as u64 + 1;
    let what = records[next];
    match sender.put(Placed { place, what }) {
        Ok(()) => next + 1,
        Err(_) => next,
    }
}

/// Puts the records and the mark, while it takes what comes back up to the mark, and returns the number of races.
fn exchange<R: Wait + Clock>(
    rt: &R,
    sender: &mut Sender<Placed>,
    back: &mut Taker<Back>,
    records: &[Record],
) -> u64
    ensures put { sender.new.lane ≡ sender.old.lane }
    ensures taken { back.new.lane ≡ back.old.lane }
{
    let mut next = 0;
    let mut count = 0u64;
    for _ in rt.forever() {
        next = put_next(sender, records, next);
        match back.take() {
            Some(Item::One(_)) => count = count.saturating_add(1),
            Some(Item::Finish) => return count,
            None => thread::yield_now(),
        }
    }
    unreachable!()
}

// The lanes hold one item each, so that a race finds the lane back full.
#[test]
fn work_in_a_thread(rt: HostRuntime) -> Result<(), Fail> {
    let shard = Shard::new(rt.alloc(), 0, Hasher::default())?;
    let (mut sender, taker, back, mut back_taker) = lanes(rt.alloc(), 1)?;
    let promise = WorkOf {
        taker: Snapshot::of(&taker),
        back: Snapshot::of(&back),
    };
    let child = thread::spawn_with(&rt, promise, move || work(&rt, shard, taker, back, &Open))?;
    let count = exchange(&rt, &mut sender, &mut back_taker, &THREE_SHARDS);
    assert!(rt; count == 2);
    let taken = settle(child.join(&rt), sender, back_taker);
    assert!(rt; taken == 7);
    Ok(())
}

/// Whether a race comes while the lane to the shard has no mark.
fn race_comes(back: &mut Taker<Back>) -> bool
    ensures { back.new.lane ≡ back.old.lane }
{
    for _ in 0..1_000_000 {
        if let Some(Item::One(Back::Race(_))) = back.take() {
            return true;
        }
        thread::yield_now();
    }
    false
}

// The lanes hold 64 items each, of which up to 32 are shown together where nothing has them shown sooner.
#[test]
fn races_come_before_the_mark(rt: HostRuntime) -> Result<(), Fail> {
    let shard = Shard::new(rt.alloc(), 0, Hasher::default())?;
    let (mut sender, taker, back, mut back_taker) = lanes(rt.alloc(), 64)?;
    let promise = WorkOf {
        taker: Snapshot::of(&taker),
        back: Snapshot::of(&back),
    };
    let child = thread::spawn_with(&rt, promise, move || work(&rt, shard, taker, back, &Open))?;
    put_all(&mut sender, &THREE_SHARDS);
    assert!(rt; race_comes(&mut back_taker));
    let count = exchange(&rt, &mut sender, &mut back_taker, &[]);
    assert!(rt; count <= 1);
    settle(child.join(&rt), sender, back_taker);
    Ok(())
}

/// Puts the records on a lane that has room for them, and shows them.
fn put_all(sender: &mut Sender<Placed>, records: &[Record])
    ensures { sender.new.lane ≡ sender.old.lane }
{
    for next in 0..records.len() {
        put_next(sender, records, next);
    }
    sender.flush();
}

/// Settles both lanes of a worker that has ended, and returns its count.
fn settle(mut worked: Worked<Hasher>, sender: Sender<Placed>, mut back_taker: Taker<Back>) -> u64
    requires to { sender.lane ≡ worked.taker.lane }
    requires back { worked.back.lane ≡ back_taker.lane }
{
    worked.taker.settle(&mut sender.end());
    back_taker.settle(&mut worked.back);
    worked.shard.taken()
}
