//! The reader of a trace's text, which comes in pieces of any size. It keeps the bytes of a line that hasn't ended
//! yet.
ghost use Rattle.std.specs.Prelude.{◌≡◌, ◌≢◌, ◌≤◌, ◌+◌, ◌<◌, ◌++◌, ◌∷◌, [], ℕ, List, length, take};
ghost use Rattle.std.specs.Prelude.{IfOk, IfErr, IfSome, IfNone, OnOk, OnErr, Some, None, Ok, Err};
ghost use Rattle.std.specs.Option.{option_to_list};
ghost use Rattle.dag.specs.declared.records.Version.{Version};
ghost use Rattle.dag.specs.declared.records.Record.{Record};
ghost use Rattle.trace.specs.Text.{text, spell, Fits};
ghost use Rattle.trace.specs.Faults.{IsBadLine, IsTruncated, IsNoRecord};
ghost use Rattle.dag.specs.Bounds.{most_records, longest_line};

use crate::cut::{Cut, LONGEST, cut_of};
use crate::faults::{TextFault, TextKind};
use crate::front::{Front, front_of};
use crate::spelled::{record_of, version_of};
use dag::{Record, Version};
use std::marker::Model;

/// What a step of a reader took from the front of a piece, and the record that it gives.
#[derive(Clone, Copy, Debug, PartialEq, Eq)]
pub struct Taken {
    /// The bytes that the step took: at most those of the piece.
    pub used: usize,
    /// The record, if a line that spells one ended.
    pub what: Option<Record>,
}

// The bytes of an unfinished line.
#[derive(Drop)]
struct Held {
    bytes: [u8; LONGEST],
    len: usize,
}

impl Model for Held {
    ghost use Rattle.std.specs.Prelude.{◌≤◌, ℕ, List, take};
    ghost use Rattle.dag.specs.Bounds.{longest_line};

    ghost Value = { List ℕ };

    ghost view = { λ h. take h.len h.bytes };

    ghost invariant = { λ h. h.len ≤ longest_line };
}

impl Held {
    fn new() -> Self
        ensures { result ≡ [] }
    {
        Held {
            bytes: [0; LONGEST],
            len: 0,
        }
    }

    fn len(&self) -> usize
        ensures len { result ≡ length self.now }
        ensures short { length self.now ≤ longest_line }
    {
        self.len
    }

    fn as_slice(&self) -> &[u8]
        ensures { result.now ≡ self.now }
    {
        let bytes: &[u8] = &self.bytes;
        &bytes[..self.len]
    }

    fn push_all(&mut self, more: &[u8])
        requires { length self.old + length more.now ≤ longest_line }
        ensures { self.new ≡ self.old ++ more.now }
    {
        put_at(&mut self.bytes, self.len, more);
        self.len += more.len();
    }

    fn clear(&mut self)
        ensures { self.new ≡ [] }
    {
        self.len = 0;
    }
}

// Writes the bytes from an index on.
fn put_at(buffer: &mut [u8], start: usize, bytes: &[u8])
    requires { start + length bytes.now ≤ length buffer.old }
    ensures { take (start + length bytes.now) buffer.new ≡ take start buffer.old ++ bytes.now }
{
    let end = start + bytes.len();
    buffer[start..end].copy_from_slice(bytes);
}

// The record that the held bytes and the rest of their line spell together in a version; then nothing is held.
fn record_with(version: Version, held: &mut Held, rest: &[u8]) -> Option<Record>
    requires { length held.old + length rest.now ≤ longest_line }
    ensures found { IfSome result (λ r. held.old ++ rest.now ≡ spell r) }
    ensures fits { IfSome result (Fits version) }
    ensures none { IfNone result (IsNoRecord version (held.old ++ rest.now)) }
    ensures cleared { held.new ≡ [] }
{
    if held.len() == 0 {
        return record_of(version, rest);
    }
    held.push_all(rest);
    let record = record_of(version, held.as_slice());
    held.clear();
    record
}

/// Reads the text of a trace in pieces of any size, and gives its records. The header says the version of the text.
#[derive(Drop)]
pub struct Reader {
    limit: u64,
    // The version of the text, once its header has come.
    version: Option<Version>,
    count: u64,
    held: Held,
    fault: Option<TextFault>,
}

impl Model for Reader {
    ghost use Rattle.std.specs.Prelude.{◌≤◌, length};
    ghost use Rattle.dag.specs.Bounds.{most_records, longest_line};
    ghost use Rattle.trace.specs.Reading.{Reading};

    ghost Value = { Reading };

    ghost view = { λ r. record {
      limit = r.limit;
      version = r.version;
      count = r.count;
      rest = r.held;
      fault = r.fault;
    } };

    ghost invariant = { λ r. (r.limit ≤ most_records) × (r.count ≤ r.limit) × (length r.held ≤ longest_line) };
}

impl Reader {
    ghost use Rattle.trace.specs.Reading.{at_first_byte, HasRead, AreText, HasReadFront, HasReadPiece};
    ghost use Rattle.trace.specs.Easy.{HasRoomFor, IsBetweenLines};
    ghost use Rattle.trace.specs.Fronts.{without_record};

    /// A reader of a text of at most `max_records` records. It has read nothing.
    pub fn new(max_records: u64) -> Self
        requires { max_records ≤ most_records }
        ensures { result ≡ at_first_byte max_records }
    {
        Reader {
            limit: max_records,
            version: None,
            count: 0,
            held: Held::new(),
            fault: None,
        }
    }

    /// Reads from the front of the piece, up to the end of the next record's line. If that line doesn't end in the
    /// piece, it takes the whole piece and gives no record. After a fault every call returns that fault.
    pub fn step(&mut self, piece: &[u8]) -> Result<Taken, TextFault>
        ensures stepped { HasReadPiece self.old self.new piece.now result }
        ensures taken { (w : List Record) (bytes : List ℕ) → HasRead w bytes self.old →
            IfOk result (λ t. HasRead (w ++ option_to_list t.what) (bytes ++ take t.used piece.now) self.new) }
        // where a record is given, the bytes used end with its line
        ensures up_to_line_end { (w : List Record) (bytes : List ℕ) → HasRead w bytes self.old →
            IfOk result (λ t. IfSome t.what
            (λ r. AreText self.new.version (w ++ r ∷ []) (bytes ++ take t.used piece.now))) }
        ensures fault { (w : List Record) (bytes : List ℕ) → HasRead w bytes self.old →
            IfErr result (λ f. IsBadLine self.old.limit (bytes ++ piece.now) f) }
        ensures again { IfSome self.old.fault (λ f. (result ≡ Err f) × (self.new ≡ self.old)) }
    {
        if let Some(fault) = self.fault {
            return Err(fault);
        }
        if let Some(version) = self.version {
            return self.next(version, piece);
        }
        let used = self.open(piece)?;
        let Some(version) = self.version else {
            return Ok(Taken { used, what: None });
        };
        let taken = self.next(version, &piece[used..])?;
        Ok(Taken {
            used: used + taken.used,
            what: taken.what,
        })
    }

    /// How many more records `front` may give before the reader is asked again: 0 before the header has come, within
    /// a line, or after a fault.
    #[inline(always)]
    pub(crate) fn room(&self) -> u64
        ensures { HasRoomFor self.now result }
    {
        if self.version.is_some() && self.fault.is_none() && self.held.len() == 0 {
            self.limit - self.count
        } else {
            0
        }
    }

    /// The next record, if its line is of an easy form; the answer `None` says nothing. The caller takes it by a call
    /// of `count_one`, and by leaving out the bytes of its line.
    #[inline(always)]
    pub(crate) fn front(&self, piece: &[u8]) -> Option<Front>
        requires room { HasRoomFor self.now 1 }
        requires whole { longest_line < length piece.now }
        ensures used { IfSome result (λ f. f.used ≤ length piece.now) }
        ensures some_used { IfSome result (λ f. 0 < f.used) }
        ensures taken { (w : List Record) (bytes : List ℕ) → HasRead w bytes self.now →
            IfSome result (λ f. HasRead (w ++ f.record ∷ []) (bytes ++ take f.used piece.now)
            (record self.now { count = self.now.count + 1 })) }
    {
        front_of(self.version, piece)
    }

    /// Counts one more record.
    #[inline(always)]
    pub(crate) fn count_one(&mut self)
        requires { self.old.count < self.old.limit }
        ensures { self.new ≡ record self.old { count = self.old.count + 1 } }
    {
        self.count += 1;
    }

    // Reads on in line 1, up to its end if the end comes.
    fn open(&mut self, piece: &[u8]) -> Result<usize, TextFault>
        requires first { self.old.version ≡ None }
        requires no_fault { self.old.fault ≡ None }
        ensures front { HasReadFront self.old self.new piece.now (without_record result) }
        ensures whole { IfOk result (λ n. self.new.version ≡ None → n ≡ length piece.now) }
        ensures taken { (w : List Record) (bytes : List ℕ) → HasRead w bytes self.old →
            IfOk result (λ n. HasRead w (bytes ++ take n piece.now) self.new) }
        ensures fault { (w : List Record) (bytes : List ℕ) → HasRead w bytes self.old →
            IfErr result (λ f. IsBadLine self.old.limit (bytes ++ piece.now) f) }
        ensures no_fault { OnOk result (self.new.fault ≡ None) }
    {
        match cut_of(self.held.len(), piece) {
            Cut::LineEnd(end) => {
                self.held.push_all(&piece[..end]);
                self.version = version_of(self.held.as_slice());
                self.held.clear();
                match self.version {
                    Some(_) => Ok(end + 1),
                    None => Err(self.fail(1, TextKind::Header)),
                }
            }
            Cut::Long => Err(self.fail(1, TextKind::Header)),
            Cut::Open => {
                self.held.push_all(piece);
                Ok(piece.len())
            }
        }
    }

    // Reads on in a line after line 1, up to its end if the end comes.
    fn next(&mut self, version: Version, piece: &[u8]) -> Result<Taken, TextFault>
        requires begun { self.old.version ≡ Some version }
        requires no_fault { self.old.fault ≡ None }
        ensures stepped { HasReadPiece self.old self.new piece.now result }
        ensures taken { (w : List Record) (bytes : List ℕ) → HasRead w bytes self.old →
            IfOk result (λ t. HasRead (w ++ option_to_list t.what) (bytes ++ take t.used piece.now) self.new) }
        ensures at_line { IfOk result (λ t. IfSome t.what (λ _. IsBetweenLines self.new)) }
        ensures fault { (w : List Record) (bytes : List ℕ) → HasRead w bytes self.old →
            IfErr result (λ f. IsBadLine self.old.limit (bytes ++ piece.now) f) }
    {
        let line = self.count + 2;
        match cut_of(self.held.len(), piece) {
            Cut::LineEnd(end) => match record_with(version, &mut self.held, &piece[..end]) {
                None => Err(self.fail(line, TextKind::Line)),
                Some(record) => {
                    if self.count == self.limit {
                        return Err(self.fail(line, TextKind::TooMany));
                    }
                    self.count += 1;
                    Ok(Taken {
                        used: end + 1,
                        what: Some(record),
                    })
                }
            },
            Cut::Long => Err(self.fail(line, TextKind::Line)),
            Cut::Open => {
                self.held.push_all(piece);
                Ok(Taken {
                    used: piece.len(),
                    what: None,
                })
            }
        }
    }

    fn fail(&mut self, line: u64, kind: TextKind) -> TextFault
        ensures fault { result ≡ record { line = line; kind = kind } }
        ensures kept { self.new ≡ record self.old { fault = Some result } }
    {
        let fault = TextFault { line, kind };
        self.fault = Some(fault);
        fault
    }

    /// Whether the bytes so far are the whole text of a trace in a version. `Ok` changes nothing.
    pub fn end(&mut self) -> Result<(), TextFault>
        ensures ok { (w : List Record) (bytes : List ℕ) → HasRead w bytes self.old
            → OnOk result (AreText self.old.version w bytes) }
        ensures not_text { (w : List Record) (bytes : List ℕ) → HasRead w bytes self.old
            → OnErr result ((v : Version) → bytes ≢ text v w) }
        ensures truncated { (w : List Record) (bytes : List ℕ) → HasRead w bytes self.old →
            IfErr result (IsTruncated self.old.limit bytes) }
        ensures unchanged { OnOk result (self.new ≡ self.old) }
        ensures kept { IfErr result (λ f. self.new ≡ record self.old { fault = Some f }) }
        ensures again { IfSome self.old.fault (λ f. (result ≡ Err f) × (self.new ≡ self.old)) }
        ensures limit { self.new.limit ≡ self.old.limit }
    {
        if let Some(fault) = self.fault {
            return Err(fault);
        }
        if self.version.is_none() {
            return Err(self.fail(1, TextKind::Truncated));
        }
        if self.held.len() > 0 {
            let line = self.count + 2;
            return Err(self.fail(line, TextKind::Truncated));
        }
        Ok(())
    }
}
