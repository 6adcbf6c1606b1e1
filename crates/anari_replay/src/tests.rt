//! What no clause says: that the images and the lines are the right ones, and that an answer other than
//! want of memory comes where there is memory.

ghost use Rattle.std.specs.Prelude.{◌<◌};

use crate::outcome::Outcome;
use crate::replay::run_plain;
use crate::rows::TRIANGLE;
use replay_io::{HostSource, MemorySink, MemorySource};
use std::alloc::{AllocError, Global};
use std::io::Read;
use std::test::Fail;
use trace_text::TraceFault;

fn words_of(alloc: Global, given: &[&str]) -> Result<Vec<String>, AllocError> {
    let mut words = Vec::new(alloc);
    for word in given {
        words.push(String::from_str(alloc, word)?)?;
    }
    Ok(words)
}

/// What these words come to on these bytes, and the sink.
fn run(alloc: Global, given: &[&str], bytes: &[u8]) -> Result<(Outcome, MemorySink), AllocError> {
    let words = words_of(alloc, given)?;
    let mut source = MemorySource::new(bytes.to_vec(alloc)?, Vec::new(alloc));
    let mut sink = MemorySink::new(alloc, Vec::new(alloc));
    let outcome = run_plain(alloc, words.as_slice(), &mut source, &mut sink);
    Ok((outcome, sink))
}

/// What `solo` comes to on these bytes, and the sink.
pub fn solo(alloc: Global, bytes: &[u8]) -> Result<(Outcome, MemorySink), AllocError> {
    run(alloc, &["solo"], bytes)
}

fn at(rule: u8, phase: u32, caller: u32, call: u32) -> TraceFault {
    TraceFault {
        rule,
        phase,
        caller,
        call,
    }
}

#[test]
fn what_is_no_trace_is_refused_by_its_first_rule(rt: HostRuntime) -> Result<(), Fail> {
    let cases: [(&str, TraceFault); 10] = [
        ("", at(2, 0, 0, 0)),
        ("{\"trace\":1,", at(2, 0, 0, 0)),
        ("[[[[", at(2, 0, 0, 0)),
        ("{}", at(3, 0, 0, 0)),
        ("{\"trace\":1,\"phases\":3}", at(3, 0, 0, 0)),
        (r#"{"trace":1,"phases":[{"callers":[]}]}"#, at(5, 0, 0, 0)),
        (
            r#"{"trace":1,"phases":[{"callers":[[{"op":"paint"}]]}]}"#,
            at(8, 0, 0, 0),
        ),
        (
            r#"{"trace":1,"phases":[{"callers":[[{"op":"commit"}]]}]}"#,
            at(9, 0, 0, 0),
        ),
        (
            r#"{"trace":1,"phases":[{"callers":[[],[{"op":"commit","object":"a","x":0}]]}]}"#,
            at(9, 0, 1, 0),
        ),
        (
            r#"{"trace":1,"phases":[{"callers":[[{"op":"new","label":"a","type":"world"},{"op":"new","label":"a","type":"world"}]]}]}"#,
            at(10, 0, 0, 1),
        ),
    ];
    for (text, fault) in cases {
        let (outcome, sink) = solo(rt.alloc(), text.as_bytes())?;
        assert_eq!(rt; outcome.status, 6, "{text}");
        assert_eq!(rt; outcome.fault, Some(fault), "{text}");
        assert!(rt; outcome.history.is_empty() && outcome.told.is_empty());
        assert!(rt; sink.written().is_empty());
    }
    Ok(())
}

#[test]
fn what_happened_and_was_told_is_counted(rt: HostRuntime) -> Result<(), Fail> {
    let (outcome, _) = solo(rt.alloc(), TRIANGLE.as_bytes())?;
    assert_eq!(rt; outcome.status, 0);
    assert_eq!(rt; outcome.history.len(), 33);
    assert_eq!(rt; outcome.told.len(), 2);
    assert_eq!(rt; outcome.builds, 1);
    assert_eq!(rt; outcome.fault, None);
    Ok(())
}

#[test]
fn other_words_are_refused_and_nothing_is_read(rt: HostRuntime) -> Result<(), Fail> {
    let cases: [&[&str]; 39] = [
        &[],
        &[""],
        &["paint"],
        &["Solo"],
        &["--help"],
        &["--print", "images"],
        &["solo", "solo"],
        &["solo", "--"],
        &["solo", "--help"],
        &["solo", "--print"],
        &["solo", "--print="],
        &["solo", "--print", ""],
        &["solo", "--print", "Images"],
        &["solo", "--print=images="],
        &["solo", "--print", "=images"],
        &["solo", "-print", "images"],
        &["solo", "--print", "images", "x"],
        &["solo", "--print", "images", "--print", "images"],
        &["solo", "--print=images", "--print=journal"],
        &["solo", "--workers", "4"],
        &["describe", "x"],
        &["describe", "--print=images"],
        &["-h"],
        &["--version"],
        &["make"],
        &["make", "--seed", "1"],
        &["make", "--seed", "1", "--callers", "0", "--frames", "1"],
        &["make", "--seed", "1", "--callers", "9", "--frames", "1"],
        &["make", "--seed", "1", "--callers", "1", "--frames", "65"],
        &["make", "--seed", "+7", "--callers", "1", "--frames", "1"],
        &["make", "--seed", "-1", "--callers", "1", "--frames", "1"],
        &[
            "make",
            "--seed",
            "4294967296",
            "--callers",
            "1",
            "--frames",
            "1",
        ],
        &[
            "make",
            "--seed",
            "00000000001",
            "--callers",
            "1",
            "--frames",
            "1",
        ],
        &[
            "make",
            "--seed=1",
            "--callers=1",
            "--frames=1",
            "--frames=1",
        ],
        // A command that only a run with threads does, and some that are not built.
        &["run"],
        &["run", "--workers", "17"],
        &["wire"],
        &["check"],
        &["ring", "--slots", "2", "--pictures", "2", "--readers", "1"],
    ];
    for given in cases {
        let words = words_of(rt.alloc(), given)?;
        let mut source = MemorySource::new(b"abc".to_vec(rt.alloc())?, Vec::new(rt.alloc()));
        let mut sink = MemorySink::new(rt.alloc(), Vec::new(rt.alloc()));
        let outcome = run_plain(rt.alloc(), words.as_slice(), &mut source, &mut sink);
        assert_eq!(rt; outcome.status, 2, "{given:?}");
        assert_eq!(rt; source.left(), b"abc".as_slice());
        assert!(rt; sink.written().is_empty());
    }
    Ok(())
}

/// What the summary of the triangle's replay is.
const SUMMARY: &str = "entries=33 images=1 deleted=2 builds=1\n";

#[test]
fn the_words_choose_what_is_printed(rt: HostRuntime) -> Result<(), Fail> {
    // Each list of words, how what is printed begins and how it ends.
    let journal =
        "1 0 new_array SCALAR_VEC3 3 12 captured 7 0000feff0000feff00000000000002000000feff000000000000feff0000020000000000 -> made 1\n2 0 new geometry triangle -> made 2\n3 0 set 2 vertex.position ARRAY1D 0100000000000000 -> done\n";
    let cases: [(&[&str], &str, &str); 7] = [
        (&["solo"], "P6\n4 4\n255\n", ""),
        (&["solo", "--print", "images"], "P6\n4 4\n255\n", ""),
        (&["solo", "--print=images"], "P6\n4 4\n255\n", ""),
        (
            &["solo", "--print", "journal"],
            journal,
            "\n33 - close -> noted\n",
        ),
        (
            &["solo", "--print=journal"],
            journal,
            "\n32 0 unmap_frame 9 31 -> done\n33 - close -> noted\n",
        ),
        (&["solo", "--print", "summary"], SUMMARY, SUMMARY),
        (&["solo", "--print=summary"], SUMMARY, SUMMARY),
    ];
    for (given, first, last) in cases {
        let (outcome, sink) = run(rt.alloc(), given, TRIANGLE.as_bytes())?;
        assert_eq!(rt; outcome.status, 0, "{given:?}");
        assert!(rt; sink.written().starts_with(first.as_bytes()), "{given:?}");
        assert!(rt; sink.written().ends_with(last.as_bytes()), "{given:?}");
    }
    Ok(())
}

#[test]
fn a_trace_without_phases_is_closed(rt: HostRuntime) -> Result<(), Fail> {
    let bytes = br#"{"trace":1,"phases":[]}"#;
    let cases: [(&[&str], &str); 3] = [
        (&["solo"], ""),
        (&["solo", "--print=journal"], "1 - close -> noted\n"),
        (
            &["solo", "--print=summary"],
            "entries=1 images=0 deleted=0 builds=0\n",
        ),
    ];
    for (given, text) in cases {
        let (outcome, sink) = run(rt.alloc(), given, bytes)?;
        assert_eq!(rt; outcome.status, 0, "{given:?}");
        assert_eq!(rt; outcome.history.len(), 1, "{given:?}");
        assert!(rt; sink.written() == text.as_bytes(), "{given:?}");
    }
    Ok(())
}

#[test]
fn the_tables_are_written_and_nothing_is_read(rt: HostRuntime) -> Result<(), Fail> {
    let words = words_of(rt.alloc(), &["describe"])?;
    let first =
        "camera orthographic\n  position SCALAR_VEC3 default 0 0 0\n  direction SCALAR_VEC3 default 0 0 -65536\n";
    // The calls of the sink that fail, and the status.
    let cases: [(&[u64], u8); 2] = [(&[], 0), (&[1], 5)];
    for (writes, status) in cases {
        let mut source = MemorySource::new(b"abc".to_vec(rt.alloc())?, [1].to_vec(rt.alloc())?);
        let mut sink = MemorySink::new(rt.alloc(), writes.to_vec(rt.alloc())?);
        let outcome = run_plain(rt.alloc(), words.as_slice(), &mut source, &mut sink);
        assert_eq!(rt; outcome.status, status);
        assert_eq!(rt; source.left(), b"abc".as_slice());
        assert!(rt; outcome.history.is_empty() && outcome.told.is_empty());
        assert_eq!(rt; sink.written().starts_with(first.as_bytes()), status == 0);
    }
    Ok(())
}

#[test]
fn a_trace_is_made_and_nothing_is_read(rt: HostRuntime) -> Result<(), Fail> {
    let cases: [&[&str]; 2] = [
        &["make", "--seed", "1", "--callers", "1", "--frames", "1"],
        &["make", "--frames=0000000001", "--seed=001", "--callers=1"],
    ];
    for given in cases {
        let words = words_of(rt.alloc(), given)?;
        let mut source = MemorySource::new(b"abc".to_vec(rt.alloc())?, [1].to_vec(rt.alloc())?);
        let mut sink = MemorySink::new(rt.alloc(), Vec::new(rt.alloc()));
        let outcome = run_plain(rt.alloc(), words.as_slice(), &mut source, &mut sink);
        assert_eq!(rt; outcome.status, 0, "{given:?}");
        assert_eq!(rt; source.left(), b"abc".as_slice());
        assert!(rt; outcome.history.is_empty() && outcome.told.is_empty());
        assert!(rt; sink.written().starts_with(br#"{"phases":[{"callers":[[{"#));
        assert!(rt; sink.written().ends_with(b"\n"));
    }
    Ok(())
}

#[test]
fn a_made_trace_is_replayed_and_summed_up(rt: HostRuntime) -> Result<(), Fail> {
    let summary = b"entries=94 images=1 deleted=5 builds=1\n";
    let numbers = ["--seed=7", "--callers=1", "--frames=1"];
    let (outcome, shown) = run(
        rt.alloc(),
        &["demo", numbers[0], numbers[1], numbers[2]],
        b"",
    )?;
    assert_eq!(rt; outcome.status, 0);
    assert!(rt; shown.written() == summary.as_slice());
    // It is what `solo` writes of the trace that `make` writes.
    let (_, made) = run(
        rt.alloc(),
        &["make", numbers[0], numbers[1], numbers[2]],
        b"",
    )?;
    let (_, replayed) = run(rt.alloc(), &["solo", "--print=summary"], made.written())?;
    assert!(rt; replayed.written() == summary.as_slice());
    Ok(())
}

#[test]
fn two_callers_keep_one_world(rt: HostRuntime) -> Result<(), Fail> {
    let summary = b"entries=141 images=6 deleted=5 builds=1\n";
    let given = ["demo", "--frames=3", "--seed=0", "--callers=2"];
    let (outcome, shown) = run(rt.alloc(), given.as_slice(), b"")?;
    assert_eq!(rt; outcome.status, 0);
    assert!(rt; shown.written() == summary.as_slice());
    Ok(())
}

#[test]
fn a_demo_reads_nothing_and_tells_of_a_failing_write(rt: HostRuntime) -> Result<(), Fail> {
    let given = ["demo", "--seed=7", "--callers=1", "--frames=1"];
    let words = words_of(rt.alloc(), given.as_slice())?;
    // Which call of the sink fails, the status, and how much was written.
    let cases: [(u64, u8, usize); 2] = [(1, 5, 0), (2, 0, 39)];
    for (failing, status, written) in cases {
        let mut source = MemorySource::new(b"abc".to_vec(rt.alloc())?, [1].to_vec(rt.alloc())?);
        let mut sink = MemorySink::new(rt.alloc(), [failing].to_vec(rt.alloc())?);
        let outcome = run_plain(rt.alloc(), words.as_slice(), &mut source, &mut sink);
        assert_eq!(rt; outcome.status, status);
        assert_eq!(rt; outcome.history.len(), 94);
        assert_eq!(rt; source.left(), b"abc".as_slice());
        assert_eq!(rt; sink.written().len(), written);
    }
    Ok(())
}

#[test]
fn failing_streams_give_their_status(rt: HostRuntime) -> Result<(), Fail> {
    let words = words_of(rt.alloc(), &["solo"])?;
    // The calls that fail of the source and of the sink, the status, and how much was written.
    let cases: [(&[u64], &[u64], u8, usize); 6] = [
        (&[1], &[], 4, 0),
        (&[2], &[], 4, 0),
        (&[2], &[1], 4, 0),
        (&[], &[1], 5, 0),
        (&[3], &[2], 0, 59),
        (&[], &[], 0, 59),
    ];
    for (reads, writes, status, written) in cases {
        let mut source = MemorySource::new(
            TRIANGLE.as_bytes().to_vec(rt.alloc())?,
            reads.to_vec(rt.alloc())?,
        );
        let mut sink = MemorySink::new(rt.alloc(), writes.to_vec(rt.alloc())?);
        let outcome = run_plain(rt.alloc(), words.as_slice(), &mut source, &mut sink);
        assert_eq!(rt; outcome.status, status, "reads {reads:?} writes {writes:?}");
        assert_eq!(rt;
            sink.written().len(),
            written,
            "reads {reads:?} writes {writes:?}"
        );
    }
    Ok(())
}

/// A trace of so many calls, each refused since nothing has bound its label.
fn refused_retains(alloc: Global, calls: u32) -> Result<String, AllocError>
    requires { 0 < calls }
{
    let mut text = String::from_str(alloc, r#"{"trace":1,"phases":[{"callers":[["#)?;
    for _ in 1..calls {
        text.push_str(r#"{"op":"retain","object":"x"},"#)?;
    }
    text.push_str(r#"{"op":"retain","object":"x"}]]}]}"#)?;
    Ok(text)
}

#[test]
fn a_trace_has_at_most_65536_calls(rt: HostRuntime) -> Result<(), Fail> {
    let longest = refused_retains(rt.alloc(), 65536)?;
    let (outcome, _) = solo(rt.alloc(), longest.as_bytes())?;
    assert_eq!(rt; outcome.status, 0);
    assert_eq!(rt; outcome.history.len(), 65537);
    assert_eq!(rt; outcome.told.len(), 65536);
    let longer = refused_retains(rt.alloc(), 65537)?;
    let (outcome, _) = solo(rt.alloc(), longer.as_bytes())?;
    assert_eq!(rt; outcome.fault, Some(at(6, 0, 0, 65536)));
    Ok(())
}

/// A reader that gives one byte at a time.
#[derive(Drop)]
struct OneByteReader<'a>(&'a [u8]);

impl Read for OneByteReader<'_> {
    fn read(&mut self, buf: &mut [u8]) -> std::io::Result<usize> {
        let room = buf.len().min(1);
        self.0.read(&mut buf[..room])
    }
}

#[test]
fn a_trace_may_come_a_byte_at_a_time(rt: HostRuntime) -> Result<(), Fail> {
    let words = words_of(rt.alloc(), &["solo"])?;
    let mut source = HostSource::new(OneByteReader(TRIANGLE.as_bytes()));
    let mut sink = MemorySink::new(rt.alloc(), Vec::new(rt.alloc()));
    let outcome = run_plain(rt.alloc(), words.as_slice(), &mut source, &mut sink);
    assert_eq!(rt; outcome.status, 0);
    assert_eq!(rt; sink.written().len(), 59);
    Ok(())
}
