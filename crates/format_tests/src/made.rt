//! What no clause says: that the text of a seed is that of the examples.
use std::test::Fail;
use trace_make::*;

/// The hash FNV-1a of 64 bits.
fn hash_of(bytes: &[u8]) -> u64 {
    let mut hash: u64 = 14695981039346656037;
    for byte in bytes {
        hash = (hash ^ u64::from(*byte)).wrapping_mul(1099511628211);
    }
    hash
}

#[test]
fn first_vertex_of_seed_0(rt: HostRuntime) -> Result<(), Fail> {
    let text = make(rt.alloc(), 0, 2, 3).map_err(|_| "out of memory")?;
    let start = "{\"phases\":[{\"callers\":[[{\"count\":289,\"data\":[-131072,7615,-131072,";
    assert!(rt; text.as_str().starts_with(start));
    Ok(())
}

/// The text of seed 1 for four callers with two frames each is that of the examples, by its length and hash.
#[test]
fn four_callers_of_seed_1(rt: HostRuntime) -> Result<(), Fail> {
    let text = make(rt.alloc(), 1, 4, 2).map_err(|_| "out of memory")?;
    assert_eq!(rt; text.len(), 20466);
    assert_eq!(rt; hash_of(text.as_bytes()), 1152270399298261421);
    Ok(())
}
