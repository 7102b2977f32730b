//! The router: its state, and how it sends records and marks to the lanes.
ghost use Rattle.std.specs.Prelude.{◌≡◌, ◌≤◌, ◌↔◌, [], map, All, IfOk, IsErr, OnOk, is_some, vec_len, vec_capacity};
ghost use Rattle.dag.specs.declared.records.Placed.{Placed};
ghost use Rattle.dag.specs.Bounds.{most_shards};
ghost use Rattle.lane.specs.Lanes.{put_of};
ghost use Rattle.route.specs.Senders.{puts};
ghost use Rattle.route.specs.Routers.{IsRouter};
ghost use Rattle.route.specs.Progresses.{OnIdle, OnMoved, IfBlocked};

use crate::lanes_for::{first_lane, lane_after};
use crate::progress::{Full, Progress};
use dag::{NoMemory, Placed};
use lane::{End, Sender};
use std::alloc::Global;
use std::marker::Model;

/// Sends records to lanes, each record to the lanes whose share has it, in the order of the lanes.
///
/// ```rust
/// let (to_even, mut even) = lane::<Placed>(rt.alloc(), 4)?;
/// let (to_odd, mut odd) = lane::<Placed>(rt.alloc(), 4)?;
/// let senders = vec![in rt.alloc(); to_even, to_odd]?;
/// let mut router = Router::new(rt.alloc(), senders)?;
/// let (place, what) = (1, Record::Write(5));
/// assert!(rt; router.send(Placed { place, what }).is_ok());
/// router.flush();
/// assert_eq!(rt; even.take(), None);
/// assert_eq!(rt; odd.take(), Some(Item::One(Placed { place, what })));
/// ```
#[derive(Drop)]
pub struct Router {
    senders: Vec<Sender<Placed>>,
    // room for the receipts
    ends: Vec<End<Placed>>,
    pending: Option<Placed>,
    // the lane that the next put goes on
    next: usize,
    // how many lanes have their mark
    marked: usize,
    ghost kept: { IsRouter (puts senders.items) pending next marked },
    ghost within: { vec_len senders ≤ most_shards },
    ghost no_ends: { vec_len ends ≡ 0 },
    ghost room: { vec_len senders ≤ vec_capacity ends },
}

impl Model for Router {
    ghost use Rattle.route.specs.Senders.{lanes, capacities, puts, shown, rooms, refusals};
    ghost use Rattle.route.specs.Routers.{RouterState};

    ghost Value = { RouterState };

    ghost view = { λ r. record {
      lanes = lanes r.senders.items;
      capacities = capacities r.senders.items;
      puts = puts r.senders.items;
      shown = shown r.senders.items;
      rooms = rooms r.senders.items;
      refusals = refusals r.senders.items;
      pending = r.pending;
      next = r.next;
      marked = r.marked;
      kept = r.kept;
    } };
}

impl Router {
    ghost use Rattle.route.specs.Routers.{lane_count, IsOnLanes, IsUnchanged, HasBlocked, ShowsAll};
    ghost use Rattle.route.specs.Steps.{IsIdle, IsNewOver, HasOffered, HasGoneOn, HasPutNext};
    ghost use Rattle.route.specs.Steps.{HasSentRecord, HasStuck, HasMarkedOn, HasMarkedNext};

    /// A router over lanes without items. It allocates memory for the receipts now, and none later. A refusal drops the
    /// senders.
    pub fn new(alloc: Global, senders: Vec<Sender<Placed>>) -> Result<Router, NoMemory>
        requires some { 1 ≤ vec_len senders }
        requires within { vec_len senders ≤ most_shards }
        requires empty { All (λ s. put_of s ≡ []) senders.items }
        ensures { IfOk result (IsNewOver senders.items) }
    {
        let ends = Vec::with_capacity(alloc, senders.len())?;
        Ok(Router {
            senders,
            ends,
            pending: None,
            next: 0,
            marked: 0,
        })
    }

    /// Whether an offered record still lacks a put.
    pub fn pending(&self) -> bool
        ensures { result ≡ is_some self.now.pending }
    {
        self.pending.is_some()
    }

    /// Takes a record to send. The next steps put it.
    #[inline(always)]
    pub fn offer(&mut self, placed: Placed)
        requires { IsIdle self.old }
        ensures { HasOffered placed self.old self.new }
    {
        self.next = first_lane(placed.what, self.senders.len());
        self.pending = Some(placed);
    }

    /// Puts the pending record on its next lane. A spawn, a call, a return or a sync goes to all lanes in their
    /// order, an access of location l to lane l mod n.
    #[inline(always)]
    pub fn step(&mut self) -> Progress
        ensures goes_on { HasGoneOn self.old self.new }
        ensures idle { (result ≡ Progress.Idle) ↔ (self.old.pending ≡ None) }
        ensures idle_keeps { OnIdle result (IsUnchanged self.old self.new) }
        ensures put { OnMoved result ((p : Placed) → self.old.pending ≡ Some p → HasPutNext self.old self.new p) }
        ensures blocked { IfBlocked result (λ k. (k ≡ self.old.next) × HasBlocked self.old self.new k) }
    {
        let Some(placed) = self.pending else {
            return Progress::Idle;
        };
        if self.senders[self.next].put(placed).is_err() {
            return Progress::Blocked(self.next as u32);
        }
        match lane_after(placed.what, self.next, self.senders.len()) {
            Some(lane) => self.next = lane,
            None => self.pending = None,
        }
        Progress::Moved
    }

    /// Offers a record and takes its steps, until it is sent whole or a lane is full. Then it is pending.
    #[inline(always)]
    pub fn send(&mut self, placed: Placed) -> Result<(), Full>
        requires { IsIdle self.old }
        ensures on { IsOnLanes self.old self.new }
        ensures sent { OnOk result (HasSentRecord placed self.old self.new) }
        ensures stuck { IsErr result → HasStuck placed self.old self.new }
    {
        let count = self.senders.len();
        let mut lane = first_lane(placed.what, count);
        'lanes: loop {
            if self.senders[lane].put(placed).is_err() {
                self.pending = Some(placed);
                self.next = lane;
                return Err(Full);
            }
            match lane_after(placed.what, lane, count) {
                Some(next) => lane = next,
                None => return Ok(()),
            }
        }
    }

    /// Shows each taker all items put on its lane.
    pub fn flush(&mut self)
        ensures shown { ShowsAll self.new }
        ensures unchanged { IsUnchanged self.old self.new }
    {
        for lane in 0..self.senders.len() {
            self.senders[lane].flush();
        }
    }

    /// Puts the mark on the next lane without one.
    pub fn mark_all_step(&mut self) -> Progress
        requires { self.old.pending ≡ None }
        ensures goes_on { HasMarkedOn self.old self.new }
        ensures idle { (result ≡ Progress.Idle) ↔ (self.old.marked ≡ lane_count self.old) }
        ensures idle_keeps { OnIdle result (IsUnchanged self.old self.new) }
        ensures put { OnMoved result (HasMarkedNext self.old self.new) }
        ensures blocked { IfBlocked result (λ k. (k ≡ self.old.marked) × HasBlocked self.old self.new k) }
    {
        if self.marked == self.senders.len() {
            return Progress::Idle;
        }
        if !self.senders[self.marked].mark() {
            return Progress::Blocked(self.marked as u32);
        }
        self.marked += 1;
        Progress::Moved
    }

    /// The receipts of the senders, in their order.
    pub fn into_ends(self) -> Vec<End<Placed>>
        requires { self.marked ≡ lane_count self }
        ensures lanes { map (λ e. e.lane) result.items ≡ self.lanes }
        ensures puts { map put_of result.items ≡ self.puts }
        ensures count { vec_len result ≡ lane_count self }
    {
        let mut ends = self.ends;
        for sender in self.senders {
            ends.push_reserved(sender.end());
        }
        ends
    }
}
