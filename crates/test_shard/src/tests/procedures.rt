//! The bags after the records of worked rows, and how many numbers and probes they take.

use bags::Bags;
use std::alloc::{AllocError, Global};
use std::process::Abort;
use std::test::Fail;
use trace::NoMemory;

#[test]
fn one_child(rt: HostRuntime) -> Result<(), Fail> {
    let mut bags = Bags::new(rt.alloc())?;
    bags.spawn()?;
    assert_eq!(rt; (bags.current(), bags.active(), bags.count()), (1, 2, 2));
    bags.ret();
    assert!(rt; bags.in_p(1));
    bags.sync();
    assert!(rt; !bags.in_p(1));
    Ok(())
}

/// Rows, each with new bags. A line has records, which may come many times, and what stands after them: the executing
/// procedure, how many are active, how many there are, and how many numbers are held; how many are in a P-bag, the
/// first of these, and the step to each next one; and how many probes the longest look-up takes.
const ROWS: &str = "\
0 times sync => 0 1 1 3, 0 from 0 by 0, at most 1
spawn => 1 2 2 6, 0 from 0 by 0, at most 2
write => 1 2 2 6, 0 from 0 by 0, at most 2
return => 0 1 2 4, 1 from 1 by 0, at most 2
spawn => 2 2 3 7, 1 from 1 by 0, at most 2
sync => 2 2 3 7, 1 from 1 by 0, at most 2
write => 2 2 3 7, 1 from 1 by 0, at most 2
return => 0 1 3 4, 2 from 1 by 1, at most 2
sync => 0 1 3 3, 0 from 0 by 0, at most 1

2 times spawn read return => 0 1 3 4, 2 from 1 by 1, at most 2

100 times spawn return spawn => 200 101 201 403, 100 from 1 by 2, at most 8
100 times return => 0 1 201 4, 200 from 1 by 1, at most 2

1000 times spawn => 1000 1001 1001 3003, 0 from 0 by 0, at most 10
1000 times return => 0 1 1001 4, 1000 from 1 by 1, at most 2

call spawn return => 1 2 3 7, 1 from 2 by 0, at most 2
return => 0 1 3 3, 0 from 0 by 0, at most 1

spawn return call sync => 2 2 3 7, 1 from 1 by 0, at most 2
return => 0 1 3 5, 1 from 1 by 0, at most 2

spawn return call return => 0 1 3 5, 1 from 1 by 0, 2

500 times spawn return call return => 0 1 1001 1003, 500 from 1 by 2, 10
sync => 0 1 1001 3, 0 from 0 by 0, at most 1";

/// The call that a record makes.
fn call(bags: &mut Bags, word: &str) -> Result<(), NoMemory> {
    match word {
        "sync" => bags.sync(),
        "return" if bags.active() > 1 => bags.ret(),
        _ if bags.count() > 1000 => (),
        "spawn" => bags.spawn()?,
        "call" => bags.call()?,
        _ => (),
    }
    Ok(())
}

fn run(bags: &mut Bags, records: &str) -> Result<(), NoMemory> {
    for word in records.split(' ') {
        call(bags, word)?;
    }
    Ok(())
}

fn repeat(bags: &mut Bags, times: u32, records: &str) -> Result<(), NoMemory> {
    for _ in 0..times {
        run(bags, records)?;
    }
    Ok(())
}

/// The procedures in a P-bag: how many there are, the first one, and the step to each next one, which has another value
/// where the steps differ.
#[derive(Clone, Copy)]
struct Parallel {
    number: u64,
    first: u64,
    last: u64,
    step: u64,
}

impl Parallel {
    fn with(self, procedure: u64) -> Parallel {
        let step = procedure.saturating_sub(self.last);
        Parallel {
            number: self.number.saturating_add(1),
            first: if self.number == 0 {
                procedure
            } else {
                self.first
            },
            last: procedure,
            step: match self.number {
                0 => 0,
                1 => step,
                _ if step == self.step => step,
                _ => u64::MAX,
            },
        }
    }
}

/// The procedures in a P-bag, and the probes of the longest look-up.
fn look_up<R: Abort>(rt: &R, bags: &Bags) -> (Parallel, u32) {
    let (number, first, last, step) = (0, 0, 0, 0);
    let mut parallel = Parallel {
        number,
        first,
        last,
        step,
    };
    let mut most = 0;
    for procedure in 0..bags.count() {
        let (is_parallel, probes) = bags.in_p_counted(procedure);
        assert!(rt; bags.in_p(procedure) == is_parallel);
        most = most.max(probes);
        if is_parallel {
            parallel = parallel.with(procedure);
        }
    }
    (parallel, most)
}

fn state_of(alloc: Global, bags: &Bags, parallel: Parallel) -> Result<String, AllocError> {
    let (current, active) = (bags.current(), bags.active());
    let (count, held) = (bags.count(), bags.held());
    let Parallel {
        number,
        first,
        step,
        ..
    } = parallel;
    format!(in alloc; "{current} {active} {count} {held}, {number} from {first} by {step}")
}

fn are_probes(probes: u32, wanted: &str) -> bool {
    match wanted.split_once("at most ") {
        Some((_, most)) => most.parse::<u32>().is_ok_and(|most| probes <= most),
        None => wanted.parse::<u32>().is_ok_and(|exact| probes == exact),
    }
}

/// Asserts what stands after the records of a line.
fn check_line<R: Abort>(rt: &R, alloc: Global, bags: &mut Bags, line: &str) -> Result<(), Fail> {
    let (records, wanted) = line.split_once(" => ").unwrap_or((line, ""));
    let (state, probes) = wanted.rsplit_once(", ").unwrap_or((wanted, ""));
    let (times, records) = records.split_once(" times ").unwrap_or(("1", records));
    repeat(bags, times.parse::<u32>().unwrap_or(0), records)?;
    let (parallel, most) = look_up(rt, bags);
    let found = state_of(alloc, bags, parallel)?;
    let is_so = found.as_str() == state && are_probes(most, probes);
    assert!(rt; is_so, "{line}: {found}, {most}");
    Ok(())
}

fn check_row<R: Abort>(rt: &R, alloc: Global, row: &str) -> Result<(), Fail> {
    let mut bags = Bags::new(alloc)?;
    for line in row.split('\n') {
        check_line(rt, alloc, &mut bags, line)?;
    }
    Ok(())
}

// Of stretches that alternate no two neighbours give one answer, and nine comparisons distinguish 512 of them at most.
// So some look-up among 1,001 takes ten, and one that makes more than it counts shows.
#[test]
fn rows(rt: HostRuntime) -> Result<(), Fail> {
    for row in ROWS.split("\n\n") {
        check_row(&rt, rt.alloc(), row)?;
    }
    Ok(())
}
