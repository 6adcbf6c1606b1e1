//! What the clauses leave open: that memory is found where it is ample, at a concrete type.
use dev_types::{Handle, NoMemory};
use kept_worlds::KeptWorlds;
use std::alloc::Global;
use std::test::Fail;

/// Keeps a number of a world that reached itself and an array.
fn keep(
    worlds: &mut KeptWorlds<u32>,
    alloc: Global,
    world: u64,
    array: u64,
    number: u32,
) -> Result<(), NoMemory> {
    let reach = Vec::from_slice(alloc, &[Handle(world), Handle(array)])?;
    worlds.keep(alloc, Handle(world), reach, number)
}

/// The number that is kept of a world.
fn number(worlds: &KeptWorlds<u32>, world: u64) -> Option<u32> {
    worlds.get(Handle(world)).copied()
}

#[test]
fn a_touch_drops_the_worlds_that_reached_the_object(rt: HostRuntime) -> Result<(), Fail> {
    let mut worlds = KeptWorlds::new(rt.alloc());
    keep(&mut worlds, rt.alloc(), 7, 3, 70).map_err(|_| "out of memory")?;
    keep(&mut worlds, rt.alloc(), 8, 3, 80).map_err(|_| "out of memory")?;
    keep(&mut worlds, rt.alloc(), 9, 4, 90).map_err(|_| "out of memory")?;
    worlds.touch(Handle(5));
    assert!(rt; number(&worlds, 7) == Some(70));
    worlds.touch(Handle(3));
    assert!(rt; number(&worlds, 7).is_none());
    assert!(rt; number(&worlds, 8).is_none());
    assert!(rt; number(&worlds, 9) == Some(90));
    keep(&mut worlds, rt.alloc(), 7, 3, 71).map_err(|_| "out of memory")?;
    assert!(rt; number(&worlds, 7) == Some(71));
    worlds.forget(Handle(9));
    assert!(rt; number(&worlds, 9).is_none());
    Ok(())
}
