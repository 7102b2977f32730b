//! What is true of every text, and of every well nested trace.

ghost use Rattle.std.specs.Prelude.{◌≡◌, ℕ, ◌++◌, List, Some, Err};
ghost use Rattle.dag.specs.declared.records.Version.{Version};
ghost use Rattle.dag.specs.declared.records.Record.{Record};
ghost use Rattle.trace.specs.declared.faults.Fault.{Fault};
ghost use Rattle.trace.specs.declared.faults.Fault.TheVariants.{Read};
ghost use Rattle.dag.specs.Traces.{IsWellNested};
ghost use Rattle.trace.specs.Text.{text, AllFit};
ghost use Rattle.trace.specs.Faults.{IsFirstFault, IsFaultOfAll};
ghost use Rattle.trace.specs.Devices.{Change};
ghost use Rattle.trace.specs.Feeding.{Feeding, IsFed};
ghost use Rattle.trace.specs.Reading.{Reading, HasRead};

pub use dag::laws::{meeting, parallel, shares};

/// A text is of one trace and one version. A reader gives the same records however the bytes were cut. Bytes have one
/// first fault, and it stays their first fault when more bytes come; once the bytes have ended, they have one fault.
/// The text of a well nested trace has no fault, and neither has a prefix of it. A feed over that text, from a source
/// that shows its bytes, fails only if the source fails.
pub fn texts()
    ensures one_trace { (v x : Version) (u w : List Record) → AllFit v u → AllFit x w → text v u ≡ text x w
        → (v ≡ x) × (u ≡ w) }
    ensures any_cutting { (u w : List Record) (bytes : List ℕ) (s t : Reading) → HasRead u bytes s
        → HasRead w bytes t → u ≡ w }
    ensures one_first_fault { (records depths : ℕ) (bytes : List ℕ) (f g : Fault)
        → IsFirstFault records depths bytes f → IsFirstFault records depths bytes g → f ≡ g }
    ensures first_stays { (records depths : ℕ) (bytes more : List ℕ) (f : Fault)
        → IsFirstFault records depths bytes f → IsFirstFault records depths (bytes ++ more) f }
    ensures one_fault { (records depths : ℕ) (bytes : List ℕ) (f g : Fault)
        → IsFaultOfAll records depths bytes f → IsFaultOfAll records depths bytes g → f ≡ g }
    ensures none { (records depths : ℕ) (v : Version) (w : List Record) (f : Fault) → AllFit v w
        → IsWellNested w records depths → IsFaultOfAll records depths (text v w) f → ⊥ }
    ensures none_in_front { (records depths : ℕ) (v : Version) (w : List Record) (bytes more : List ℕ) (f : Fault)
        → AllFit v w → IsWellNested w records depths → text v w ≡ bytes ++ more
        → IsFirstFault records depths bytes f → ⊥ }
    ensures only_read { (records depths : ℕ) (v : Version) (u w : List Record) (bytes left : List ℕ) (c : Change)
        (feed : Feeding) (f : Fault)
        → AllFit v u → IsWellNested u records depths → bytes ++ left ≡ text v u
        → c.new.bytes ≡ Some left → IsFed records depths w bytes c feed (Err f) → f ≡ Read }
{}
