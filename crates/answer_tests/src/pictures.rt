//! Pictures, and what ends when, in short histories.
use crate::bench::{Bench, Listener, expect};
use dev_types::{Channel, Handle, Notice, Refused};
use plain_device::device::{Device, Ended};
use seq_model::{Call, Entry, Reply};
use std::alloc::{AllocError, Global};
use std::test::Fail;

impl Bench {
    /// Maps the frame's colours, which are those of the triangle.
    pub fn map_triangle(&mut self, alloc: Global) -> Result<(), Fail> {
        let channel = Channel::Color;
        let h = Handle(9);
        self.call(alloc, Call::MapFrame { h, channel })?;
        let wanted = triangle(alloc)?;
        match self.device.reply() {
            Some(
                Reply::Mapped {
                    width,
                    height,
                    rows,
                    ..
                },
            ) => expect(
                *width == 4 && *height == 4 && rows.as_slice() == wanted.as_slice(),
                "the triangle",
            ),
            _ => Err("a picture")?,
        }
    }

    /// So many arrays ended.
    fn expect_ends(&self, ends: usize) -> Result<(), Fail> {
        expect(ends_in(&self.device.client().heard) == ends, "so many ends")
    }

    /// The last two notices are the ends of both arrays, and no array ended before.
    fn expect_both_ended(&self) -> Result<(), Fail> {
        self.expect_ends(2)?;
        expect(end_with_both(&self.device.client().heard), "both ends")
    }

    /// Renders the triangle, and maps its picture.
    fn show(&mut self, alloc: Global) -> Result<(), Fail> {
        self.render(alloc)?;
        self.finish_flight()?;
        let h = Handle(9);
        self.call(alloc, Call::FrameReady { h, wait: true })?;
        expect(matches!(self.device.reply(), Some(Reply::Ready)), "ready")?;
        self.map_triangle(alloc)?;
        self.call(alloc, Call::UnmapFrame { h, number: 31 })?;
        self.expect_done()
    }

    /// Asks for the picture in flight, and stops it.
    fn stop(&mut self, alloc: Global) -> Result<(), Fail> {
        self.render(alloc)?;
        let h = Handle(9);
        let channel = Channel::Color;
        let flying = Refused::InFlight { given: 0, of: 1 };
        self.call(alloc, Call::FrameReady { h, wait: false })?;
        expect(
            matches!(
                self.device.reply(),
                Some(Reply::NotReady { given: 0, of: 1 })
            ),
            "not ready",
        )?;
        self.call(alloc, Call::MapFrame { h, channel })?;
        self.expect_refused(&flying)?;
        self.call(alloc, Call::RenderFrame { h })?;
        self.expect_refused(&flying)?;
        self.call(alloc, Call::DiscardFrame { h })?;
        self.expect_done()?;
        self.call(alloc, Call::MapFrame { h, channel })?;
        self.expect_refused(&Refused::NoPicture)?;
        self.let_leave()
    }

    /// Releases all, the world last.
    fn release_all(&mut self, alloc: Global) -> Result<(), Fail> {
        self.render(alloc)?;
        self.finish_flight()?;
        self.release(alloc, &[2, 1, 3, 4, 5, 8, 7, 9])?;
        self.call(alloc, Call::Release { h: Handle(1) })?;
        self.expect_refused(&Refused::NotHeld(Handle(1)))?;
        self.expect_ends(0)?;
        self.release(alloc, &[6])?;
        self.expect_both_ended()?;
        self.call(alloc, Call::Retain { h: Handle(6) })?;
        self.expect_refused(&Refused::BadHandle(Handle(6)))
    }

    /// Releases all but the frame in flight, which names nothing any more.
    fn release_in_flight(&mut self, alloc: Global) -> Result<(), Fail> {
        self.render(alloc)?;
        self.call(alloc, Call::UnsetAll { h: Handle(9) })?;
        self.commit(alloc, 9)?;
        self.release(alloc, &[1, 2, 3, 4, 5, 6, 7, 8])?;
        self.expect_ends(0)?;
        self.finish_flight()?;
        self.expect_both_ended()?;
        self.map_triangle(alloc)
    }
}

/// Whether this is the end of a captured array with so many bytes.
fn is_end(notice: &Notice, h: u64, word: u64, len: usize) -> bool {
    match notice {
        Notice::Deleted {
            source,
            user,
            bytes,
        } => source.0 == h && *user == word && bytes.as_slice().len() == len,
        _ => false,
    }
}

/// The colours of the triangle, the lowest row first: a pixel is hit up to the diagonal.
fn triangle(alloc: Global) -> Result<Vec<u8>, AllocError> {
    let mut rows = Vec::new(alloc);
    for letter in "RRRRRRRKRRKKRKKK".bytes() {
        let color = if letter == b'R' {
            [255, 0, 0, 255]
        } else {
            [0; 4]
        };
        rows.extend_from_slice(&color)?;
    }
    Ok(rows)
}

/// How many captured arrays ended.
fn ends_in(heard: &[Notice]) -> usize {
    heard
        .iter()
        .filter(|notice| matches!(notice, Notice::Deleted { .. }))
        .count()
}

/// Whether the last two notices are the ends of both arrays.
fn end_with_both(heard: &[Notice]) -> bool {
    match heard {
        [.., first, second] => is_end(first, 1, 7, 36) && is_end(second, 5, 8, 8),
        _ => false,
    }
}

#[test]
fn a_triangle_is_rendered_and_mapped(rt: HostRuntime) -> Result<(), Fail> {
    let mut bench = Bench::new(rt.alloc())?;
    let shown = bench.show(rt.alloc());
    let Bench { device } = bench;
    let Ended {
        history,
        client,
        builds,
    } = device.finish();
    shown?;
    assert_eq!(rt; history.len(), 33);
    assert_eq!(rt; client.heard.len(), 2);
    assert!(rt; end_with_both(&client.heard));
    assert_eq!(rt; builds, 1);
    Ok(())
}

#[test]
fn a_flight_may_be_asked_and_stopped(rt: HostRuntime) -> Result<(), Fail> {
    let mut bench = Bench::new(rt.alloc())?;
    let stopped = bench.stop(rt.alloc());
    let client = bench.finish();
    stopped?;
    assert_eq!(rt; ends_in(&client.heard), 2);
    Ok(())
}

#[test]
fn arrays_end_with_the_last_that_names_them(rt: HostRuntime) -> Result<(), Fail> {
    let mut bench = Bench::new(rt.alloc())?;
    let released = bench.release_all(rt.alloc());
    let client = bench.finish();
    released?;
    assert_eq!(rt; ends_in(&client.heard), 2);
    Ok(())
}

#[test]
fn a_flight_keeps_what_it_reached(rt: HostRuntime) -> Result<(), Fail> {
    let mut bench = Bench::new(rt.alloc())?;
    let released = bench.release_in_flight(rt.alloc());
    let client = bench.finish();
    released?;
    assert_eq!(rt; ends_in(&client.heard), 2);
    Ok(())
}

#[test]
fn a_device_to_which_nothing_happened_ends_with_its_close(rt: HostRuntime) -> Result<(), Fail> {
    let listener = Listener {
        heard: Vec::new(rt.alloc()),
    };
    let device = Device::new(rt.alloc(), listener).map_err(|_| "out of memory")?;
    let Ended {
        history,
        client,
        builds,
    } = device.finish();
    assert_eq!(rt; history.len(), 1);
    assert!(rt; matches!(history.get(0), Entry::Closed));
    assert_eq!(rt; builds, 0);
    assert!(rt; client.heard.is_empty());
    Ok(())
}
