//! Flights with what is kept of each: how they end, are stopped, and are mapped.

use crate::flights::{claims_of, give_one, half_red};
use dev_types::{Channel, Handle};
use flight_books::{Cargo, FlightBooks, fresh};
use frame_future::Phase;
use seq_model::Entry;
use std::test::Fail;

#[test]
fn a_rendered_flight_ends_and_is_noted(rt: HostRuntime) -> Result<(), Fail> {
    let alloc = rt.alloc();
    let frame = Handle(9);
    let scene = half_red(&rt, alloc, 16, 1)?;
    let (claims, mut seat) = claims_of(alloc, &scene).map_err(|_| "out of memory")?;
    assert_eq!(rt; fresh(&claims, &mut seat), 0);
    let mut books = FlightBooks::new(alloc);
    let mut notes = Vec::with_capacity(alloc, 1)?;
    let cargo = Cargo {
        ticket: 5,
        frame,
        kept: 3u64,
    };
    let begun = books.begin(alloc, cargo, claims, seat, [true, false, false, false]);
    assert!(rt; begun.is_ok());
    let (claims, mut seat) = books.lend(5);
    give_one(&claims, &mut seat, &scene);
    books.put_back(5, claims, seat);
    books.sweep(&mut notes);
    assert!(rt; matches!(notes.as_slice(), [Entry::Finished(5)]));
    assert_eq!(rt; books.flight_count(), 0);
    Ok(())
}

#[test]
fn a_stopped_flight_is_left(rt: HostRuntime) -> Result<(), Fail> {
    let alloc = rt.alloc();
    let frame = Handle(9);
    let scene = half_red(&rt, alloc, 17, 1)?;
    let (claims, seat) = claims_of(alloc, &scene).map_err(|_| "out of memory")?;
    let mut books = FlightBooks::new(alloc);
    let mut notes = Vec::with_capacity(alloc, 1)?;
    let cargo = Cargo {
        ticket: 5,
        frame,
        kept: 3u64,
    };
    let begun = books.begin(alloc, cargo, claims, seat, [true, false, false, false]);
    assert!(rt; begun.is_ok());
    assert_eq!(rt; books.load(5, 4), 3);
    assert_eq!(rt; books.cargo_at(5).map_or(0, |cargo| cargo.kept), 4);
    assert_eq!(rt; books.cargo_of(frame).map_or(0, |cargo| cargo.ticket), 5);
    assert_eq!(rt; books.first_ticket(), Some(5));
    let tickets = books.tickets(alloc).map_err(|_| "out of memory")?;
    assert!(rt; matches!(tickets.as_slice(), [5]));
    assert_eq!(rt; books.claimed(5), 0);
    books.stop_all();
    assert!(rt; books.cargo_of(frame).is_none());
    books.sweep(&mut notes);
    assert!(rt; matches!(notes.as_slice(), [Entry::Left(5)]));
    assert!(rt; books.first_ticket().is_none());
    Ok(())
}

#[test]
fn a_picture_is_mapped_unmapped_and_forgotten(rt: HostRuntime) -> Result<(), Fail> {
    let alloc = rt.alloc();
    let frame = Handle(9);
    let scene = half_red(&rt, alloc, 16, 1)?;
    let (claims, seat) = claims_of(alloc, &scene).map_err(|_| "out of memory")?;
    let mut books = FlightBooks::new(alloc);
    let mut notes = Vec::with_capacity(alloc, 1)?;
    let cargo = Cargo {
        ticket: 5,
        frame,
        kept: 3u64,
    };
    let begun = books.begin(alloc, cargo, claims, seat, [true, false, false, false]);
    assert!(rt; begun.is_ok());
    let (claims, mut seat) = books.lend(5);
    give_one(&claims, &mut seat, &scene);
    books.put_back(5, claims, seat);
    books.sweep(&mut notes);
    assert_eq!(rt; books.frames().phase_of(frame), Phase::Done(5));
    let mapped = books
        .map(alloc, frame, Channel::Color, 8)
        .map_err(|_| "not mapped")?;
    assert!(rt; mapped.width() == 16 && books.frames().mapped(frame));
    assert!(rt; books.unmap(mapped).is_ok());
    books.end_loan(frame, Channel::Color);
    assert!(rt; !books.frames().mapped(frame));
    books.forget(frame);
    assert_eq!(rt; books.frames().phase_of(frame), Phase::Empty);
    Ok(())
}
