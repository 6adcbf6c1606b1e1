ghost use Rattle.std.specs.Prelude.{◌≡◌, ◌+◌, ◌^◌, ◌<◌, ◌≤◌, pos, unsigned_abs, int_div};
ghost use Rattle.fx_math.specs.UnitVector.{halvings, long_length, unit};
ghost use Rattle.fx_math.specs.Vec3.{reach, truncated};

use crate::roots::isqrt;
use crate::vectors::{Vec3, dot, reach, times};

/// The vector of length 65536 along `v`, as near as whole numbers rounded toward zero come to it; the zero vector gives
/// itself. Components are within 2^62.
pub fn unit(v: Vec3) -> Vec3
    requires { reach v ≤ 2 ^ 62 }
    ensures value { result ≡ unit v }
    ensures size { reach result ≤ 65536 }
{
    let greatest = reach(v);
    if greatest == 0 {
        return v;
    }
    let short = halved(v, halvings(greatest));
    truncated(times(short, 1 << 32), long_length(short))
}

/// The least number of halvings that bring `m` below 2^30.
fn halvings(m: u64) -> u32
    ensures value { result ≡ halvings m }
    ensures enough { m < 2 ^ (30 + result) }
    ensures least { 0 < result → 2 ^ (29 + result) ≤ m }
    ensures size { result < 35 }
{
    if m < 1 << 30 { 0 } else { m.ilog2() - 29 }
}

/// Each component divided by `2^count` and rounded toward zero.
fn halved(v: Vec3, count: u32) -> Vec3
    requires count { count < 64 }
    requires room { reach v < 2 ^ 63 }
    ensures { result ≡ truncated v (2 ^ count) }
{
    Vec3 {
        x: halved_number(v.x, count),
        y: halved_number(v.y, count),
        z: halved_number(v.z, count),
    }
}

/// `n` divided by `2^count` and rounded toward zero, without a division.
fn halved_number(n: i64, count: u32) -> i64
    requires count { count < 64 }
    requires room { unsigned_abs n < 2 ^ 63 }
    ensures { result ≡ int_div n (pos (2 ^ count)) }
{
    let magnitude = (n.unsigned_abs() >> count) as i64;
    if n < 0 { -magnitude } else { magnitude }
}

/// 65536 times the length of `w`, rounded down.
fn long_length(w: Vec3) -> u64
    requires { reach w < 2 ^ 30 }
    ensures value { result ≡ long_length w }
    ensures size { result < 2 ^ 63 }
{
    isqrt(0x1_0000_0000 * dot(w, w) as u128) as u64
}

/// Each component divided by `divisor` and rounded toward zero.
fn truncated(v: Vec3, divisor: u64) -> Vec3
    requires positive { 0 < divisor }
    requires room { divisor < 2 ^ 63 }
    ensures { result ≡ truncated v divisor }
{
    let divisor = divisor as i64;
    Vec3 {
        x: v.x / divisor,
        y: v.y / divisor,
        z: v.z / divisor,
    }
}
