//! Each question about a trace has one answer.

ghost use Rattle.std.specs.Prelude.{◌≡◌, ℕ, List, Option};
ghost use Rattle.dag.specs.declared.records.Record.{Record};
ghost use Rattle.dag.specs.declared.records.Access.{Access};
ghost use Rattle.dag.specs.Accesses.{RaceAt};
ghost use Rattle.audit.specs.declared.answers.Measure.{Measure};
ghost use Rattle.audit.specs.declared.answers.Confirm.{Confirm};
ghost use Rattle.audit.specs.declared.answers.Explained.{Explained};
ghost use Rattle.audit.specs.Explanations.{Explains, IsSameAnswer};
ghost use Rattle.audit.specs.Measures.{IsMeasure};
ghost use Rattle.audit.specs.Pairs.{ArePairs};
ghost use Rattle.audit.specs.Confirms.{Confirms};

/// A trace has one measure. A location has one list of its races and one explanation. A report has one answer to
/// whether its entries are races.
pub fn one_answer()
    ensures measure { (w : List Record) (m n : Measure) → IsMeasure w m → IsMeasure w n → m ≡ n }
    ensures pairs { (w : List Record) (l : ℕ) (ps qs : List (Access × Access)) → ArePairs w l ps
        → ArePairs w l qs → ps ≡ qs }
    ensures explain { (w : List Record) (l : ℕ) (a b : Option Explained) → Explains w l a → Explains w l b
        → IsSameAnswer a b }
    ensures confirm { (w : List Record) (entries : List RaceAt) (a b : Confirm) → Confirms w entries a
        → Confirms w entries b → a ≡ b }
{}
