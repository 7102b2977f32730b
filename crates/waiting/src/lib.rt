//! How a thread waits for another one, whether for items of a lane or for room.
#![tactic(auto)]

use std::hint::spin_loop;
use std::sync::Wait;
use std::thread;
use std::thread::Parker;
use std::time::{Clock, Duration, Instant};

/// How a thread waits for another one.
///
/// It lets other threads run and looks again, up to a number of times. Then it naps, a little longer each time. If
/// other programs use the processor, a thread that gives way gets it back only after a time slice; a thread that slept
/// gets it when it wakes. So after a thread got the processor back late, some waits are naps from the start: the more,
/// the more often that happens.
///
/// What it finds decides how the next wait goes. If a nap led to half of what may be there, it was too long, and more
/// looks would have been better; if it led to little, it was too short. Looks that find little are no reason for more.
///
/// Threads that wait side by side share the processors. So each of n looks n times less often, and naps n times as
/// long.
#[derive(Drop)]
pub struct Waiting {
    parker: Parker,
    // how many threads wait side by side
    threads: u64,
    // how much there is to find at most, and how far the thread had come at the last wait
    most: u64,
    come: u64,
    // how many looks of all these threads come before a nap, and how many came
    most_looks: u64,
    looks: u64,
    // how long the first nap of a wait takes, and how long the last one took, in microseconds; 0 before the first
    first_nap: u64,
    nap: u64,
    // how many of the next waits are naps, and how many will be when the processor comes back late again
    naps: u32,
    next_naps: u32,
}

// How often the processor pauses before other threads run and the next look comes.
const PAUSES: u32 = 16;

// Of all threads that wait side by side.
const FEWEST_LOOKS: u64 = 16;

const MOST_LOOKS: u64 = 256;

// In microseconds. The system adds some fifty.
const SHORTEST_NAP: u64 = 3;

const LONGEST_NAP: u64 = 800;

// A thread that gave way for so many microseconds has waited for another program: the threads of this one wait for each
// other sooner than that.
const LATE: u128 = 500;

const FEWEST_NAPS: u32 = 4;

const MOST_NAPS: u32 = 1024;

impl Waiting {
    /// A thread that hasn't waited yet.
    pub fn new() -> Waiting {
        Waiting::beside(1, 0)
    }

    /// A thread that hasn't waited yet, one of so many, where there is at most so much to find.
    pub fn beside(threads: u64, most: usize) -> Waiting {
        Waiting {
            parker: Parker::new(),
            threads,
            most: most as u64,
            come: 0,
            most_looks: MOST_LOOKS,
            looks: 0,
            first_nap: shortest_nap(threads),
            nap: 0,
            naps: 0,
            next_naps: FEWEST_NAPS,
        }
    }

    /// Waits a little, since what the thread waits for isn't there. It has come so far with that.
    pub fn wait<R: Wait + Clock>(&mut self, rt: &R, come: u64) {
        if self.come < come {
            self.learn(come.saturating_sub(self.come));
            self.come = come;
        }
        if self.naps == 0 && self.looks < self.most_looks {
            self.looks = self.looks.saturating_add(self.threads);
            self.give_way(rt);
        } else {
            self.naps = self.naps.saturating_sub(1);
            self.nap = self.next_nap();
            self.parker
                .park_timeout(rt, Duration::from_micros(self.nap));
        }
    }

    // Each nap is a little longer than the one before.
    fn next_nap(&self) -> u64 {
        if self.nap == 0 {
            return self.first_nap;
        }
        let longer = self.nap.saturating_add(self.nap / 16).saturating_add(1);
        longer.min(LONGEST_NAP)
    }

    // So much was found since the last wait.
    fn learn(&mut self, found: u64) {
        let is_little = found.saturating_mul(8) <= self.most;
        let is_much = found.saturating_mul(2) >= self.most;
        if self.nap == 0 {
            if found.saturating_mul(64) >= self.most {
                self.most_looks = self.most_looks.saturating_mul(2).min(MOST_LOOKS);
                self.looks = 0;
            }
        } else {
            if is_much {
                self.first_nap = (self.first_nap / 2).max(shortest_nap(self.threads));
                self.most_looks = self.most_looks.saturating_mul(4).min(MOST_LOOKS);
            } else if is_little {
                self.first_nap = self.first_nap.saturating_mul(2).min(LONGEST_NAP);
                self.most_looks = (self.most_looks / 2).max(FEWEST_LOOKS);
            }
            self.looks = 0;
        }
        self.nap = 0;
    }

    fn give_way<C: Clock>(&mut self, clock: &C) {
        pause();
        if gives_way_for_long(clock) {
            self.naps = self.next_naps;
            self.next_naps = self.next_naps.saturating_mul(4).min(MOST_NAPS);
        } else {
            self.next_naps = self.next_naps.saturating_sub(1).max(FEWEST_NAPS);
        }
    }
}

// Of one of so many threads.
fn shortest_nap(threads: u64) -> u64 {
    SHORTEST_NAP.saturating_mul(threads).min(LONGEST_NAP)
}

// Lets other threads run. Whether it took so long that another program must have had the processor; no if the clock
// can't be read.
fn gives_way_for_long<C: Clock>(clock: &C) -> bool {
    let begun = Instant::now(clock);
    thread::yield_now();
    match begun {
        Ok(begun) => match begun.elapsed(clock) {
            Ok(time) => time.as_micros() >= LATE,
            Err(_) => false,
        },
        Err(_) => false,
    }
}

fn pause() {
    for _ in 0..PAUSES {
        spin_loop();
    }
}
