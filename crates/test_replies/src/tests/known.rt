//! A trace in memory, with a source that shows its bytes: the answer is about these very bytes.
ghost use Rattle.std.specs.Prelude.{◌≡◌, ◌<◌, ℕ, List};
ghost use Rattle.dag.specs.declared.records.Version.{Version};
ghost use Rattle.dag.specs.declared.records.Record.{Record};
ghost use Rattle.trace.specs.Text.{text, AllFit};
ghost use Rattle.trace.specs.Devices.{◌⇝◌};
ghost use Rattle.trace.specs.Writers.{IsUntouched, Took};
ghost use Rattle.replies.specs.Questions.{Answers};

use super::{Ran, assert_answer, words_of};
use replies::answer;
use std::alloc::Global;
use std::sync::Wait;
use std::test::Fail;
use std::thread::Threads;
use std::time::Clock;
use trace::{Counted, Sink};
use words::{Asked, Question, read_words};

// Answers what is asked of the trace whose text these bytes are. With status 0 or 1 what was written answers it, and
// nothing was written beside it.
fn answer_bytes<T: Threads + Wait + Clock + Sync, W: Sink, E: Sink>(
    rt: &T,
    alloc: Global,
    question: &Question,
    bytes: &[u8],
    out: &mut W,
    err: &mut E,
) -> u8
    ensures { (v : Version) (w : List Record) → bytes.now ≡ text v w → AllFit v w → result < 2 → (answer : List ℕ)
        × Answers question.now w answer result
        × Took answer (W.state out.old ⇝ W.state out.new)
        × IsUntouched (E.state err.old ⇝ E.state err.new) }
{
    let mut trace = Counted::new(bytes);
    answer(rt, alloc, question, &mut trace, out, err)
}

const TRACE: &[u8] = b"trace 1\nspawn\nwrite 3\nreturn\nspawn\nwrite 3\nreturn\nwrite 3\nreturn\n";

const ANSWERS: [(&str, &str, u8); 4] = [
    ("check -", "races 1\nrace 3 write 2 write 5\n", 1),
    (
        "pairs - 3",
        "pairs 3\npair write 2 write 5\npair write 2 write 7\npair write 5 write 7\n",
        1,
    ),
    ("pairs - 4", "pairs 0\n", 0),
    ("measure -", "work 8\nspan 5\nspawns 2\ndepth 1\n", 0),
];

// What a question leaves of the trace with these bytes.
fn ran_of<T: Threads + Wait + Clock + Sync>(
    rt: &T,
    alloc: Global,
    question: &Question,
    bytes: &[u8],
) -> Ran {
    let mut out = Vec::new(alloc);
    let mut err = Vec::new(alloc);
    let status = answer_bytes(
        rt,
        alloc,
        question,
        bytes,
        &mut Counted::new(&mut out),
        &mut Counted::new(&mut err),
    );
    Ran { status, out, err }
}

#[test]
fn answers_of_known_bytes(rt: HostRuntime) -> Result<(), Fail> {
    for (line, text, status) in ANSWERS {
        let words = words_of(rt.alloc(), line)?;
        let Ok(Asked::Question(question)) = read_words(rt.alloc(), words.as_slice()) else {
            return Err(Fail::from(line));
        };
        let ran = ran_of(&rt, rt.alloc(), &question, TRACE);
        assert_answer(&rt, &ran, status, text.as_bytes(), line);
    }
    Ok(())
}
