// What the proofs cannot see: that memory is found where it is ample, and that a cascade of deaths runs
// to its end.
use dev_types::{Handle, NoMemory};
use ref_counts::*;
use std::alloc::Global;
use std::test::Fail;

#[derive(Clone, Copy, Debug)]
enum Change {
    Born,
    Retain,
    Release,
    Name,
    Unname,
}

/// Makes the change where its condition holds, and tells whether it did.
fn made(counts: &mut Counts, alloc: Global, change: Change, h: Handle) -> Result<bool, NoMemory> {
    if let Change::Born = change {
        if counts.was_born(h) {
            return Ok(false);
        }
        counts.born(alloc, h)?;
        return Ok(true);
    }
    let Some((public, named)) = counts.counts(h) else {
        return Ok(false);
    };
    match change {
        Change::Retain if 1 <= public && public < 1 << 63 => counts.retain(h),
        Change::Release if 1 <= public => counts.release(h),
        Change::Name if named < 1 << 63 => counts.name(h),
        Change::Unname if 1 <= named => counts.unname(h),
        _ => return Ok(false),
    }
    Ok(true)
}

#[test]
fn each_call_changes_one_count(rt: HostRuntime) -> Result<(), Fail> {
    let mut counts = Counts::new(rt.alloc());
    let rows = [
        (Change::Born, 7, Some((1, 0))),
        (Change::Born, 3, Some((1, 0))),
        (Change::Retain, 7, Some((2, 0))),
        (Change::Name, 7, Some((2, 1))),
        (Change::Release, 7, Some((1, 1))),
        (Change::Release, 7, Some((0, 1))),
        (Change::Name, 3, Some((1, 1))),
        (Change::Unname, 3, Some((1, 0))),
    ];
    for (change, h, after) in rows {
        let done = made(&mut counts, rt.alloc(), change, Handle(h)).map_err(|_| "out of memory")?;
        assert!(rt; done && counts.counts(Handle(h)) == after, "{change:?} {h}");
        assert!(rt; counts.die().is_none(), "{change:?} {h}");
    }
    assert!(rt; counts.counts(Handle(1)).is_none() && !counts.was_born(Handle(1)));
    Ok(())
}

/// Gives birth to each handle and lets its only reference go.
fn make_dead(counts: &mut Counts, alloc: Global, handles: &[u64]) -> Result<bool, NoMemory> {
    let mut all = true;
    for h in handles {
        let born = made(counts, alloc, Change::Born, Handle(*h))?;
        let released = made(counts, alloc, Change::Release, Handle(*h))?;
        all = all && born && released;
    }
    Ok(all)
}

#[test]
fn the_dead_are_given_once_and_the_least_first(rt: HostRuntime) -> Result<(), Fail> {
    let mut counts = Counts::new(rt.alloc());
    let handles = [9, 2, u64::MAX, 5, 0, 7];
    let all = make_dead(&mut counts, rt.alloc(), &handles).map_err(|_| "out of memory")?;
    assert!(rt; all);
    for h in [0, 2, 5, 7, 9, u64::MAX] {
        assert!(rt; counts.counts(Handle(h)) == Some((0, 0)), "{h}");
        assert!(rt; counts.die() == Some(Handle(h)), "{h}");
        assert!(rt;
            counts.counts(Handle(h)).is_none() && counts.was_born(Handle(h)),
            "{h}"
        );
    }
    assert!(rt; counts.die().is_none());
    Ok(())
}

#[test]
fn who_is_named_again_in_time_lives(rt: HostRuntime) -> Result<(), Fail> {
    let mut counts = Counts::new(rt.alloc());
    let all = make_dead(&mut counts, rt.alloc(), &[4, 6]).map_err(|_| "out of memory")?;
    let rows = [
        (Change::Name, 4, Some(6)),
        (Change::Name, 4, None),
        (Change::Unname, 4, None),
        (Change::Unname, 4, Some(4)),
    ];
    for (change, h, dead) in rows {
        let done = made(&mut counts, rt.alloc(), change, Handle(h)).map_err(|_| "out of memory")?;
        assert!(rt;
            all && done && counts.die() == dead.map(|h| Handle(h)),
            "{change:?} {h}"
        );
    }
    let named = made(&mut counts, rt.alloc(), Change::Name, Handle(4));
    assert!(rt; named == Ok(false) && counts.die().is_none());
    Ok(())
}

#[test]
fn a_cascade_gives_who_is_named_no_longer(rt: HostRuntime) -> Result<(), Fail> {
    let mut counts = Counts::new(rt.alloc());
    let named_by = [(2, 1), (2, 3), (3, 1)];
    for h in [1, 2, 3] {
        made(&mut counts, rt.alloc(), Change::Born, Handle(h)).map_err(|_| "out of memory")?;
    }
    for (_, named) in named_by {
        made(&mut counts, rt.alloc(), Change::Name, Handle(named)).map_err(|_| "out of memory")?;
    }
    for h in [1, 3] {
        made(&mut counts, rt.alloc(), Change::Release, Handle(h)).map_err(|_| "out of memory")?;
        assert!(rt; counts.die().is_none(), "{h}");
    }
    made(&mut counts, rt.alloc(), Change::Release, Handle(2)).map_err(|_| "out of memory")?;
    for dead in [2, 3, 1] {
        assert!(rt; counts.die() == Some(Handle(dead)), "{dead}");
        for (by, named) in named_by {
            if by == dead {
                made(&mut counts, rt.alloc(), Change::Unname, Handle(named)).map_err(
                    |_| "out of memory",
                )?;
            }
        }
    }
    assert!(rt; counts.die().is_none());
    Ok(())
}
