// What the proofs cannot see: that memory is found where it is ample, and that a caller of `get_mut`
// knows what the table is after its write.
ghost use Rattle.std.specs.Prelude.{◌≡◌, ◌≤◌, IsSome, OnOk};
ghost use Rattle.handle_table.specs.HandleMaps.{value_at, with_value};

use dev_types::{Handle, NoMemory};
use handle_table::*;
use std::alloc::Global;
use std::test::Fail;

/// Makes room and puts the value in.
fn put(table: &mut Table<u32>, alloc: Global, value: u32) -> Result<Handle, NoMemory> {
    table.reserve(alloc)?;
    Ok(table.insert(value))
}

/// Writes another value in the place of the one at the handle.
fn overwrite(table: &mut Table<u32>, h: Handle, value: u32)
    requires { IsSome (value_at table.old h) }
    ensures { table.new ≡ with_value table.old h value }
{
    if let Some(place) = table.get_mut(h) {
        *place = value;
    }
}

#[test]
fn room_that_was_reserved_takes_the_first_handle(rt: HostRuntime) -> Result<(), Fail> {
    let mut table: Table<u32> = Table::new(rt.alloc());
    assert!(rt; table.spare() == 0 && table.next() == Handle(1));
    table.reserve(rt.alloc()).map_err(|_| "out of memory")?;
    assert!(rt; table.spare() >= 1 && table.insert(7) == Handle(1));
    Ok(())
}

#[test]
fn a_handle_is_never_used_again(rt: HostRuntime) -> Result<(), Fail> {
    let mut table = Table::new(rt.alloc());
    for (value, handle) in [(10, 1), (20, 2), (30, 3)] {
        let given = put(&mut table, rt.alloc(), value).map_err(|_| "out of memory")?;
        assert!(rt; given == Handle(handle), "{value}");
    }
    assert!(rt; table.remove(Handle(3)) == Some(30));
    assert!(rt; table.remove(Handle(1)) == Some(10));
    let given = put(&mut table, rt.alloc(), 40).map_err(|_| "out of memory")?;
    assert!(rt; given == Handle(4) && table.next() == Handle(5));
    let rows = [
        (0, None),
        (1, None),
        (2, Some(20)),
        (3, None),
        (4, Some(40)),
        (5, None),
        (u64::MAX, None),
    ];
    for (handle, value) in rows {
        assert!(rt; table.get(Handle(handle)).copied() == value, "{handle}");
        assert!(rt;
            table.get_mut(Handle(handle)).is_some() == value.is_some(),
            "{handle}"
        );
        assert!(rt; table.remove(Handle(handle)) == value, "{handle}");
        assert!(rt; table.remove(Handle(handle)).is_none(), "{handle}");
    }
    Ok(())
}

#[test]
fn a_write_in_place_changes_one_value(rt: HostRuntime) -> Result<(), Fail> {
    let mut table = Table::new(rt.alloc());
    let first = put(&mut table, rt.alloc(), 10).map_err(|_| "out of memory")?;
    let second = put(&mut table, rt.alloc(), 20).map_err(|_| "out of memory")?;
    if table.get(second).is_some() {
        overwrite(&mut table, second, 21);
    }
    assert!(rt; table.get(first).copied() == Some(10));
    assert!(rt; table.get(second).copied() == Some(21));
    Ok(())
}
