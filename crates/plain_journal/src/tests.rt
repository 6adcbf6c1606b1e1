// What the clauses leave open: that memory is found where it is ample, and the count over a few renders.
use crate::worlds::Worlds;
use dev_types::{Handle, NoMemory};
use std::alloc::Global;
use std::test::Fail;

/// Makes room, and renders world 1, which reaches an array 2 as well.
fn render(worlds: &mut Worlds, alloc: Global) -> Result<(), NoMemory> {
    let reach = Vec::from_slice(alloc, &[Handle(1), Handle(2)])?;
    worlds.reserve(alloc)?;
    worlds.render(Handle(1), reach);
    Ok(())
}

#[test]
fn a_world_is_prepared_again_once_it_was_touched(rt: HostRuntime) -> Result<(), Fail> {
    let mut worlds = Worlds::new(rt.alloc());
    assert!(rt; worlds.builds() == 0);
    let rows = [
        ("first", 0, 1),
        ("again", 0, 1),
        ("after its array", 2, 2),
        ("again", 0, 2),
        ("after another", 3, 2),
        ("after itself", 1, 3),
    ];
    for (when, touched, builds) in rows {
        if touched != 0 {
            worlds.touch(Handle(touched));
        }
        render(&mut worlds, rt.alloc()).map_err(|_| "out of memory")?;
        assert!(rt; worlds.builds() == builds, "{when}");
    }
    Ok(())
}
