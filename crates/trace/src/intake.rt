//! Records with their places, from a source of bytes: a buffer, a reader of lines and a nest, and how they have
//! ended.
ghost use Rattle.std.specs.Prelude.{◌≡◌, ◌≢◌, ℕ, ◌+◌, ◌≤◌, ◌<◌, List, [], ◌++◌, length, take, true, false};
ghost use Rattle.std.specs.Prelude.{Ok, Err, Some, None, OnErr, IfSome};
ghost use Rattle.trace.specs.Devices.{Device, ◌⇝◌, Counts, Gave, IsUsedUp};
ghost use Rattle.trace.specs.declared.faults.Fault.TheVariants as faults;
ghost use Rattle.dag.specs.Bounds.{longest_line};

use crate::cut::LONGEST;
use crate::devices::{Failed, Source};
use crate::faults::{Fault, TextFault};
use crate::nesting::Nest;
use crate::reading::Reader;
use dag::{Limits, Placed, Record};
use std::marker::Model;

/// How a feed has ended, if it has ended.
#[derive(Clone, Copy)]
pub enum Ending {
    Running,
    Good,
    Bad(Fault),
}

/// Reads placed records from a source that each call lends it, through a buffer. No answer depends on the buffer's
/// size.
#[derive(Drop)]
pub struct Intake {
    reader: Reader,
    nest: Nest,
    buffer: [u8; 65536],
    start: usize,
    end: usize,
    // Before this index of the buffer a record is read with no look at the rest: see `IsEasy`.
    easy_until: usize,
    ending: Ending,
}

impl Model for Intake {
    ghost use Rattle.std.specs.Prelude.{◌≤◌, ◌<◌, ◌+◌, ◌-◌, length, take, drop};
    ghost use Rattle.dag.specs.Bounds.{longest_line};
    ghost use Rattle.trace.specs.Feeding.{Feeding};
    ghost use Rattle.trace.specs.Easy.{IsEasy};

    ghost Value = { Feeding };

    ghost view = { λ s. record {
      reading = s.reader;
      nesting = s.nest;
      coming = take (s.end - s.start) (drop s.start s.buffer);
      ending = s.ending;
    } };

    ghost invariant = { λ s. (s.start ≤ s.end) × (s.end ≤ length s.buffer) × (s.nest.count ≤ s.reader.count)
        × (s.start < s.easy_until → IsEasy s.reader s.nest s.ending (s.easy_until - s.start))
        × (s.start < s.easy_until → s.easy_until + longest_line ≤ s.end) };
}

impl Intake {
    ghost use Rattle.trace.specs.Feeding.{before_all, IsNext};
    ghost use Rattle.trace.specs.UsedUp.{HasUsedAll};
    ghost use Rattle.trace.specs.declared.intake.Ending.TheVariants.{Running, Bad};

    /// An intake that has read nothing.
    pub fn new(limits: Limits) -> Self
        ensures { result ≡ before_all limits.records limits.depth }
    {
        Intake {
            reader: Reader::new(limits.records),
            nest: Nest::new(limits.depth),
            buffer: [0; 65536],
            start: 0,
            end: 0,
            easy_until: 0,
            ending: Ending::Running,
        }
    }

    /// The next placed record, or `None` at a good end of the input. The bytes before a failed read are judged before
    /// the failure. Nothing is tried again: after a fault every call returns that fault, and after `None` every call
    /// returns `None`.
    #[inline(always)]
    pub fn next_from<S: Source>(&mut self, source: &mut S) -> Result<Option<Placed>, Fault>
        ensures next { IsNext self.old self.new (S.state source.old ⇝ S.state source.new) result }
        ensures not_asked { self.old.ending ≢ Running → source.new ≡ source.old }
    {
        match self.next_known() {
            Some(placed) => Ok(Some(placed)),
            None => self.next_of_all(source),
        }
    }

    /// The next placed record, if the bytes that have come show it at once: then it is an answer of `next_from` whose
    /// source stays as it is, whatever that is. The answer `None` says nothing and changes nothing.
    #[inline(always)]
    pub fn next_known(&mut self) -> Option<Placed>
        ensures next { IfSome result (λ p. (d : Device) → IsNext self.old self.new (d ⇝ d) (Ok (Some p))) }
        ensures none { result ≡ None → self.new ≡ self.old }
    {
        if self.start >= self.easy_until {
            return None;
        }
        let bytes: &[u8] = &self.buffer;
        let front = self.reader.front(&bytes[self.start..self.end])?;
        let placed = self.nest.accept_inside(front.record)?;
        self.reader.count_one();
        self.start += front.used;
        Some(placed)
    }

    // The next placed record, whether its line is easy or not.
    #[inline(always)]
    fn next_of_all<S: Source>(&mut self, source: &mut S) -> Result<Option<Placed>, Fault>
        ensures next { IsNext self.old self.new (S.state source.old ⇝ S.state source.new) result }
        ensures not_asked { self.old.ending ≢ Running → source.new ≡ source.old }
    {
        match self.ending {
            Ending::Running => self.read_on(source),
            Ending::Good => Ok(None),
            Ending::Bad(fault) => Err(fault),
        }
    }

    // Reads on while it hasn't ended.
    #[inline(never)]
    fn read_on<S: Source>(&mut self, source: &mut S) -> Result<Option<Placed>, Fault>
        requires { self.old.ending ≡ Running }
        ensures { IsNext self.old self.new (S.state source.old ⇝ S.state source.new) result }
    {
        loop {
            match self.fill(source) {
                Err(Failed) => return Err(self.fail(Fault::Read)),
                Ok(false) => return self.finish(),
                Ok(true) => {}
            }
            if let Some(placed) = self.next_in_buffer()? {
                return Ok(Some(placed));
            }
        }
    }

    // Gets the next bytes of the source if all that have come were used. Whether there are any.
    fn fill<S: Source>(&mut self, source: &mut S) -> Result<bool, Failed>
        ensures came { (came : List ℕ) × Gave (S.state source.old ⇝ S.state source.new) came
            × (self.new ≡ record self.old { coming = self.old.coming ++ came }) }
        ensures some { result ≡ Ok true → 0 < length self.new.coming }
        ensures none { result ≡ Ok false → (self.new.coming ≡ []) × IsUsedUp (S.state source.new) }
        ensures failed { OnErr result (self.new.coming ≡ []) }
        ensures count { Counts result (S.state source.old ⇝ S.state source.new) }
    {
        if self.start < self.end {
            return Ok(true);
        }
        let count = source.get(&mut self.buffer)?;
        self.easy_until = 0;
        self.start = 0;
        self.end = count;
        Ok(count > 0)
    }

    // The next placed record in the bytes that have come, or their first fault. The answer `None` says that they were
    // all used.
    fn next_in_buffer(&mut self) -> Result<Option<Placed>, Fault>
        requires { self.old.ending ≡ Running }
        ensures next { result ≢ Ok None → (d : Device) → IsNext self.old self.new (d ⇝ d) result }
        ensures none { result ≡ Ok None → HasUsedAll self.old self.new }
    {
        self.easy_until = 0;
        let bytes: &[u8] = &self.buffer;
        let taken = match self.reader.step(&bytes[self.start..self.end]) {
            Ok(taken) => taken,
            Err(fault) => return Err(self.fail(Fault::Text(fault))),
        };
        self.start += taken.used;
        let Some(record) = taken.what else {
            return Ok(None);
        };
        match self.nest.accept(record) {
            Ok(placed) => {
                self.look_ahead();
                Ok(Some(placed))
            }
            Err(fault) => Err(self.fail(Fault::Nest(fault))),
        }
    }

    // Looks how far records are read with no look at the rest.
    fn look_ahead(&mut self)
        requires running { self.old.ending ≡ Running }
        ensures same { self.new ≡ self.old }
    {
        let bytes = (self.end - self.start).saturating_sub(LONGEST);
        let records = if self.nest.has_ended() {
            0
        } else {
            self.reader.room() as usize
        };
        self.easy_until = self.start + bytes.min(records);
    }

    // At the end of the input: the reader is asked first, then the nest.
    fn finish(&mut self) -> Result<Option<Placed>, Fault>
        requires nothing { self.old.coming ≡ [] }
        requires running { self.old.ending ≡ Running }
        ensures { (d : Device) → IsUsedUp d → IsNext self.old self.new (d ⇝ d) result }
    {
        if let Err(fault) = self.reader.end() {
            return Err(self.fail(Fault::Text(fault)));
        }
        if let Err(fault) = self.nest.end() {
            return Err(self.fail(Fault::Nest(fault)));
        }
        self.easy_until = 0;
        self.ending = Ending::Good;
        Ok(None)
    }

    fn fail(&mut self, fault: Fault) -> Fault
        ensures fault { result ≡ fault }
        ensures kept { self.new ≡ record self.old { ending = Bad fault } }
    {
        self.easy_until = 0;
        self.ending = Ending::Bad(fault);
        fault
    }
}

/// The placed records of a source that it owns.
#[derive(Drop)]
pub struct Feed<R> {
    /// What it has read, and what it still gives of that.
    pub intake: Intake,
    /// Where the further bytes come from.
    pub source: R,
}

impl<R: Source> Feed<R> {
    ghost use Rattle.trace.specs.Feeding.{before_all, IsNext};
    ghost use Rattle.trace.specs.declared.intake.Ending.TheVariants.{Running};

    /// A feed that has read nothing.
    pub fn new(limits: Limits, source: R) -> Self
        ensures intake { result.intake ≡ before_all limits.records limits.depth }
        ensures source { result.source ≡ source }
    {
        Feed {
            intake: Intake::new(limits),
            source,
        }
    }

    /// The same as `Intake::next_from`, from the feed's own source.
    ///
    /// ```rust
    /// let text: &[u8] = b"trace 1\nwrite 5\nreturn\n";
    /// let (records, depth) = (1 << 48, 9);
    /// let mut feed = Feed::new(Limits { records, depth }, Counted::new(text));
    /// let (place, what) = (1, Record::Write(5));
    /// assert_eq!(rt; feed.next()?, Some(Placed { place, what }));
    /// let (place, what) = (2, Record::Return);
    /// assert_eq!(rt; feed.next()?, Some(Placed { place, what }));
    /// assert_eq!(rt; feed.next()?, None);
    /// ```
    pub fn next(&mut self) -> Result<Option<Placed>, Fault>
        ensures next { IsNext self.old.intake self.new.intake
            (R.state self.old.source ⇝ R.state self.new.source) result }
        ensures not_asked { self.old.intake.ending ≢ Running → self.new ≡ self.old }
    {
        self.intake.next_from(&mut self.source)
    }
}
