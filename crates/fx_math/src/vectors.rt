ghost use Rattle.std.specs.Prelude.{◌≡◌, ◌+◌, ◌*◌, ◌/◌, ◌^◌, ◌<◌, ◌≤◌, ◌-ℤ◌, ◌*ℤ◌, unsigned_abs};
ghost use Rattle.fx_math.specs.Vec3.{reach, add, sub, neg, times, scaled_down, dot, cross};

/// A point or a direction. Each component counts 1/65536 where no other unit is said.
#[derive(Clone, Copy, Debug, PartialEq, Eq)]
pub struct Vec3 {
    pub x: i64,
    pub y: i64,
    pub z: i64,
}

/// The points `o + t * d` for a fraction `t` that is not negative.
#[derive(Clone, Copy, Debug, PartialEq, Eq)]
pub struct Ray {
    pub o: Vec3,
    pub d: Vec3,
}

/// The greatest absolute value of a component.
pub fn reach(v: Vec3) -> u64
    ensures { result ≡ reach v }
{
    v.x.unsigned_abs()
        .max(v.y.unsigned_abs())
        .max(v.z.unsigned_abs())
}

/// The sum `a + b`.
pub fn add(a: Vec3, b: Vec3) -> Vec3
    requires { reach a + reach b < 2 ^ 63 }
    ensures value { result ≡ add a b }
    ensures size { reach result ≤ reach a + reach b }
{
    Vec3 {
        x: a.x + b.x,
        y: a.y + b.y,
        z: a.z + b.z,
    }
}

/// The difference `a - b`.
pub fn sub(a: Vec3, b: Vec3) -> Vec3
    requires { reach a + reach b < 2 ^ 63 }
    ensures value { result ≡ sub a b }
    ensures size { reach result ≤ reach a + reach b }
{
    Vec3 {
        x: a.x - b.x,
        y: a.y - b.y,
        z: a.z - b.z,
    }
}

/// The opposite `-v`.
pub fn neg(v: Vec3) -> Vec3
    requires { reach v < 2 ^ 63 }
    ensures value { result ≡ neg v }
    ensures size { reach result ≡ reach v }
{
    Vec3 {
        x: -v.x,
        y: -v.y,
        z: -v.z,
    }
}

/// The product of two numbers, where it has room in their own width.
fn product(a: i64, b: i64) -> i64
    requires { unsigned_abs a * unsigned_abs b < 2 ^ 63 }
    ensures { result ≡ a *ℤ b }
{
    a * b
}

/// The multiple `factor * v`.
pub fn times(v: Vec3, factor: i64) -> Vec3
    requires { reach v * unsigned_abs factor < 2 ^ 63 }
    ensures value { result ≡ times v factor }
    ensures size { reach result ≡ reach v * unsigned_abs factor }
{
    Vec3 {
        x: product(v.x, factor),
        y: product(v.y, factor),
        z: product(v.z, factor),
    }
}

/// Each component divided by 65536 and rounded down: what a product of numbers in 1/65536 counts in 1/65536.
pub fn scaled_down(v: Vec3) -> Vec3
    ensures value { result ≡ scaled_down v }
    ensures size { reach result ≤ (reach v + 65535) / 65536 }
{
    Vec3 {
        x: v.x >> 16,
        y: v.y >> 16,
        z: v.z >> 16,
    }
}

/// The product of two numbers, which has room in twice their width.
pub(crate) fn wide_product(a: i64, b: i64) -> i128
    ensures { result ≡ a *ℤ b }
{
    a as i128 * b as i128
}

/// The scalar product of `a` and `b`, whose components are within 2^62.
pub fn dot(a: Vec3, b: Vec3) -> i128
    requires first { reach a ≤ 2 ^ 62 }
    requires second { reach b ≤ 2 ^ 62 }
    ensures value { result ≡ dot a b }
    ensures size { unsigned_abs result ≤ 3 * (reach a * reach b) }
{
    wide_product(a.x, b.x) + wide_product(a.y, b.y) + wide_product(a.z, b.z)
}

/// The vector product of `a` and `b`, at right angles to both.
pub fn cross(a: Vec3, b: Vec3) -> Vec3
    requires { reach a * reach b ≤ 2 ^ 61 }
    ensures value { result ≡ cross a b }
    ensures size { reach result ≤ 2 * (reach a * reach b) }
{
    Vec3 {
        x: product(a.y, b.z) - product(a.z, b.y),
        y: product(a.z, b.x) - product(a.x, b.z),
        z: product(a.x, b.y) - product(a.y, b.x),
    }
}
