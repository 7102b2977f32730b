//! The paths of a trace from a completed procedure.

ghost use Rattle.std.specs.Prelude.{ℕ, List};
ghost use Rattle.dag.specs.declared.records.Record.{Record};
ghost use Rattle.dag.specs.Traces.{IsWellNested};
ghost use Rattle.dag.specs.Dag.{OneWayOut};

/// One way out: for a place in the part of a completed procedure and a later place outside that part, a path leads
/// from the first to the second if and only if one leads from the procedure's return to the second.
pub fn out()
    ensures one_way { (w : List Record) (records depths : ℕ) → IsWellNested w records depths → OneWayOut w }
{}
