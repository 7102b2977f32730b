//! The files that the words name, as the system opens them.
use super::{Ran, assert_left, words_of};
use replies::answer_asked;
use std::alloc::{AllocError, Global};
use std::env::temp_dir;
use std::process::Abort;
use std::sync::Wait;
use std::test::Fail;
use std::thread::Threads;
use std::time::Clock;
use std::{fs, process};
use trace::Counted;
use words::{Asked, read_words};

// The files, by the words that stand for their names: two traces, the report of each and of its parts, reports that
// have a race of location 5 of their own, one with a faulty line, and one without a race.
const FILES: [(&str, &str); 11] = [
    (
        "TRACE",
        "trace 1\nspawn\nwrite 5\nreturn\nwrite 5\nreturn\n",
    ),
    (
        "MANY",
        "trace 1\nspawn\nwrite 8\nwrite 2\nwrite 3\nreturn\nread 8\nread 2\nread 3\nreturn\n",
    ),
    ("REPORT", REPORT),
    ("ALL", ALL),
    ("EVEN", EVEN),
    ("ODD", ODD),
    ("LATER", "races 1\nrace 5 write 2 write 6\n"),
    ("READ", READ),
    (
        "FAULTY",
        "races 2\nrace 5 write 2 write 4\nrace 5 write 2 write 4\n",
    ),
    ("CLEAN", CLEAN),
    ("EMPTY", ""),
];

const REPORT: &str = "races 1\nrace 5 write 2 write 4\n";

const READ: &str = "races 1\nrace 5 read 1 write 4\n";

const ALL: &str = "races 3\nrace 2 write 3 read 7\nrace 3 write 4 read 8\nrace 8 write 2 read 6\n";

const EVEN: &str = "races 2\nrace 2 write 3 read 7\nrace 8 write 2 read 6\n";

const ODD: &str = "races 1\nrace 3 write 4 read 8\n";

const CLEAN: &str = "races 0\n";

// What the words leave, where `NONE` stands for a file that isn't there.
const CASES: [(&str, u8, &str, &str); 33] = [
    ("check TRACE", 1, REPORT, ""),
    (
        "measure TRACE",
        0,
        "work 5\nspan 4\nspawns 1\ndepth 1\n",
        "",
    ),
    ("measure REPORT", 2, "", "spbags: line 1: header\n"),
    ("confirm TRACE REPORT", 0, "yes\n", ""),
    (
        "confirm REPORT TRACE",
        2,
        "",
        "spbags: report line 1: bad\n",
    ),
    ("check NONE", 2, "", "spbags: cannot read\n"),
    ("confirm NONE REPORT", 2, "", "spbags: cannot read\n"),
    ("confirm TRACE NONE", 2, "", "spbags: cannot read\n"),
    ("check MANY", 1, ALL, ""),
    ("check --part 0/1 MANY", 1, ALL, ""),
    ("check --part 0/2 MANY", 1, EVEN, ""),
    ("check --part 1/2 MANY", 1, ODD, ""),
    ("check --part 0/3 --shards 1 MANY", 1, ODD, ""),
    ("check --part 1/3 MANY", 0, CLEAN, ""),
    ("check --part 2/3 --shards 3 MANY", 1, EVEN, ""),
    ("check --part 3/65536 MANY", 1, ODD, ""),
    ("check --part 65535/65536 MANY", 0, CLEAN, ""),
    ("check --part 1/2 REPORT", 2, "", "spbags: line 1: header\n"),
    ("merge EVEN ODD", 1, ALL, ""),
    ("merge ODD CLEAN EVEN ODD", 1, ALL, ""),
    ("merge ALL", 1, ALL, ""),
    ("merge CLEAN", 0, CLEAN, ""),
    ("merge CLEAN CLEAN", 0, CLEAN, ""),
    ("merge LATER REPORT", 1, REPORT, ""),
    ("merge REPORT LATER", 1, REPORT, ""),
    ("merge REPORT READ", 1, REPORT, ""),
    ("merge READ REPORT", 1, READ, ""),
    (
        "merge REPORT FAULTY EMPTY",
        2,
        "",
        "spbags: report 2 line 3: bad\n",
    ),
    ("merge EMPTY", 2, "", "spbags: report 1 line 1: bad\n"),
    (
        "merge CLEAN REPORT MANY",
        2,
        "",
        "spbags: report 3 line 1: bad\n",
    ),
    ("merge REPORT NONE", 2, "", "spbags: cannot read\n"),
    ("merge NONE FAULTY", 2, "", "spbags: cannot read\n"),
    ("merge FAULTY NONE", 2, "", "spbags: report 1 line 3: bad\n"),
];

// Whether a word stands for a file.
fn is_name(word: &str, files: &[(&str, &str)]) -> bool {
    word == "NONE" || files.iter().any(|(name, _)| *name == word)
}

// The words of a line, where the names of files stand for what stands for them.
fn words_with_names(alloc: Global, front: &str, line: &str) -> Result<Vec<String>, AllocError> {
    let mut words = words_of(alloc, line)?;
    for word in words.iter_mut() {
        if is_name(word.as_str(), &FILES) {
            *word = format!(in alloc; "{front}.{word}")?;
        }
    }
    Ok(words)
}

// What the words leave of the files.
fn ran_of<T: Threads + Wait + Clock + Sync>(threads: &T, rt: &HostRuntime, asked: &Asked) -> Ran {
    let mut out = Vec::new(rt.alloc());
    let mut err = Vec::new(rt.alloc());
    let status = answer_asked(
        threads,
        rt,
        asked,
        &mut Counted::new(&mut out),
        &mut Counted::new(&mut err),
    );
    Ran { status, out, err }
}

// Asserts what each line leaves of the files whose names have this front.
fn read_files<T: Threads + Wait + Clock + Sync + Abort>(
    threads: &T,
    rt: &HostRuntime,
    front: &str,
    cases: &[(&str, u8, &str, &str)],
) -> Result<(), Fail> {
    for &(line, status, out, err) in cases {
        let words = words_with_names(rt.alloc(), front, line)?;
        let Ok(asked) = read_words(rt.alloc(), words.as_slice()) else {
            return Err(Fail::from(line));
        };
        let ran = ran_of(threads, rt, &asked);
        assert_left(threads, &ran, status, out.as_bytes(), err.as_bytes(), line);
    }
    Ok(())
}

// Writes the files whose names have this front.
fn write_files(rt: &HostRuntime, front: &str, files: &[(&str, &str)]) -> Result<(), Fail> {
    for &(name, text) in files {
        let file = format!(in rt.alloc(); "{front}.{name}")?;
        fs::write(rt, file.as_str(), text)?;
    }
    Ok(())
}

// Takes the files away whose names have this front.
fn remove_files(rt: &HostRuntime, front: &str, files: &[(&str, &str)]) -> Result<(), Fail> {
    for &(name, _) in files {
        let file = format!(in rt.alloc(); "{front}.{name}")?;
        fs::remove_file(rt, file.as_str())?;
    }
    Ok(())
}

#[test]
fn reads_the_files_that_are_named(rt: HostRuntime) -> Result<(), Fail> {
    let folder = temp_dir(&rt)?;
    let front = format!(in rt.alloc(); "{}/spbags-{}", folder.as_str(), process::id(rt.process()))?;
    write_files(&rt, front.as_str(), &FILES)?;
    read_files(&rt, &rt, front.as_str(), &CASES)?;
    remove_files(&rt, front.as_str(), &FILES)
}
