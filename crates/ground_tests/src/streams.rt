//! What no clause says: that calls succeed with ample memory, and what comes of faults.
use replay_io::*;
use std::alloc::{AllocError, Global};
use std::io::{Read, Write};
use std::test::Fail;

/// A reader that gives one byte at a time, and tells nothing.
#[derive(Drop)]
struct OneByteReader<'a>(&'a [u8]);

impl Read for OneByteReader<'_> {
    fn read(&mut self, buf: &mut [u8]) -> std::io::Result<usize> {
        let room = buf.len().min(1);
        self.0.read(&mut buf[..room])
    }
}

/// A writer that takes one byte at a time until its room is used up, and then none.
#[derive(Drop)]
struct SmallWriter {
    written: Vec<u8>,
    room: usize,
}

impl Write for SmallWriter {
    fn write(&mut self, buf: &[u8]) -> std::io::Result<usize> {
        let count = self.room.min(buf.len()).min(1);
        self.room -= count;
        self.written.extend_from_slice(&buf[..count])?;
        Ok(count)
    }

    fn flush(&mut self) -> std::io::Result<()> {
        Ok(())
    }
}

#[test]
fn reads_of_a_memory_source_fail_where_they_are_told_to(rt: HostRuntime) -> Result<(), Fail> {
    let cases: [(&[u64], [Result<usize, Failed>; 4], u64); 4] = [
        (&[], [Ok(2), Ok(1), Ok(0), Ok(0)], 0),
        (&[1], [Err(Failed), Ok(2), Ok(1), Ok(0)], 1),
        (&[2, 4], [Ok(2), Err(Failed), Ok(1), Err(Failed)], 2),
        (&[5, 0], [Ok(2), Ok(1), Ok(0), Ok(0)], 0),
    ];
    for (failing, answers, faults) in cases {
        let mut source = MemorySource::new(b"abc".to_vec(rt.alloc())?, failing.to_vec(rt.alloc())?);
        let mut piece = [0u8; 2];
        for answer in answers {
            assert_eq!(rt; source.read(&mut piece), answer, "failing {failing:?}");
        }
        assert_eq!(rt; source.faults(), faults);
    }
    Ok(())
}

#[test]
fn writes_of_a_memory_sink_fail_where_they_are_told_to(rt: HostRuntime) -> Result<(), Fail> {
    let failed = Err(NotWritten::Failed);
    let cases: [(&[u64], [Result<usize, NotWritten>; 3], &[u8], u64); 4] = [
        (&[], [Ok(2), Ok(2), Ok(2)], b"ababab", 0),
        (&[1], [failed, Ok(2), Ok(2)], b"abab", 1),
        (&[3, 2], [Ok(2), failed, failed], b"ab", 2),
        (&[4], [Ok(2), Ok(2), Ok(2)], b"ababab", 0),
    ];
    for (failing, answers, written, faults) in cases {
        let mut sink = MemorySink::new(rt.alloc(), failing.to_vec(rt.alloc())?);
        for answer in answers {
            assert_eq!(rt; sink.write(b"ab"), answer, "failing {failing:?}");
        }
        assert_eq!(rt; sink.written(), written);
        assert_eq!(rt; sink.faults(), faults);
    }
    Ok(())
}

fn many_bytes(alloc: Global) -> Result<Vec<u8>, AllocError> {
    vec![in alloc; b'a'; 70000]
}

#[test]
fn a_source_is_read_to_its_end_or_up_to_a_number_of_bytes(rt: HostRuntime) -> Result<(), Fail> {
    let cases = [
        (0, 0, 70000),
        (1, 1, 69999),
        (65536, 65536, 4464),
        (69999, 69999, 1),
        (70000, 70000, 0),
        (70001, 70000, 0),
    ];
    for (most, taken, left) in cases {
        let mut source = MemorySource::new(many_bytes(rt.alloc())?, Vec::new(rt.alloc()));
        let bytes = read_up_to(rt.alloc(), &mut source, most)
            .ok()
            .ok_or("not read")?;
        assert_eq!(rt; bytes.len(), taken, "most {most}");
        assert_eq!(rt; source.left().len(), left, "most {most}");
    }
    let mut steady = SteadySource::new(b"ab".to_vec(rt.alloc())?);
    let bytes = read_up_to(rt.alloc(), &mut steady, 9)
        .ok()
        .ok_or("not read")?;
    assert_eq!(rt; bytes.as_slice(), b"ab".as_slice());
    Ok(())
}

#[test]
fn a_fault_in_the_midst_of_a_stream_ends_the_loop(rt: HostRuntime) -> Result<(), Fail> {
    let failing = [2].to_vec(rt.alloc())?;
    let mut source = MemorySource::new(b"abc".to_vec(rt.alloc())?, failing);
    let answer = read_up_to(rt.alloc(), &mut source, 9);
    assert!(rt; matches!(answer, Err(NotRead::Failed)));
    assert_eq!(rt; source.faults(), 1);

    let mut sink = MemorySink::new(rt.alloc(), [2].to_vec(rt.alloc())?);
    assert_eq!(rt; write_all(&mut sink, b"abc"), Ok(()));
    assert_eq!(rt; write_all(&mut sink, b"d"), Err(NotWritten::Failed));
    assert_eq!(rt; sink.written(), b"abc".as_slice());
    Ok(())
}

#[test]
fn readers_and_writers_of_std_may_give_and_take_a_byte_at_a_time(
    rt: HostRuntime,
) -> Result<(), Fail> {
    let mut source = HostSource::new(OneByteReader(b"abc"));
    let bytes = read_up_to(rt.alloc(), &mut source, 9)
        .ok()
        .ok_or("not read")?;
    assert_eq!(rt; bytes.as_slice(), b"abc".as_slice());

    let failed = Err(NotWritten::Failed);
    let cases: [(usize, Result<(), NotWritten>, &[u8]); 3] = [
        (3, Ok(()), b"abc"),
        (2, failed, b"ab"),
        (0, failed, b""),
    ];
    for (room, answer, written) in cases {
        let mut writer = SmallWriter {
            written: Vec::new(rt.alloc()),
            room,
        };
        assert_eq!(rt;
            write_all(&mut HostSink::new(&mut writer), b"abc"),
            answer,
            "room {room}"
        );
        assert_eq!(rt; writer.written.as_slice(), written, "room {room}");
    }
    Ok(())
}
