//! Lines that stand in the text, with ample memory.
use std::str;
use std::test::Fail;
use table_text::describe;

#[test]
fn the_tables_are_written_kind_by_kind(rt: HostRuntime) -> Result<(), Fail> {
    let bytes = describe(rt.alloc()).map_err(|_| "out of memory")?;
    let text = str::from_utf8(&bytes).map_err(|_| "UTF-8")?;
    let first =
        "camera orthographic\n  position SCALAR_VEC3 default 0 0 0\n  direction SCALAR_VEC3 default 0 0 -65536\n";
    assert!(rt; text.starts_with(first));
    let parts = [
        "  height SCALAR default 65536\ncamera perspective\n",
        "frame default\n  world WORLD required\n",
        "  channel.color DATA_TYPE optional\n",
        "geometry sphere\n  vertex.position ARRAY1D(SCALAR_VEC3) required\n  vertex.radius ARRAY1D(SCALAR) optional\n",
        "instance transform\n  group GROUP required\n  transform SCALAR_MAT34 default 65536 0 0 0 65536 0 0 0 65536 0 0 0\n  id UINT32 optional\n",
        "material matte\n  color SCALAR_VEC3 default 52429 52429 52429\n  opacity SCALAR default 65536\n",
    ];
    for part in parts {
        assert!(rt; text.contains(part), "{part}");
    }
    assert!(rt; text.ends_with("  instance ARRAY1D(INSTANCE) optional\n"));
    Ok(())
}
