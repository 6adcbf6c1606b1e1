ghost use Rattle.std.specs.Prelude.{◌≡◌, ◌+◌, ◌*◌, ◌^◌, ◌<◌, ◌≤◌};
ghost use Rattle.fx_math.specs.Root.{IsRoot, isqrt};

/// The greatest whole number whose square is at most `n`.
pub fn isqrt(n: u128) -> u128
    ensures greatest { IsRoot n result }
    ensures value { result ≡ isqrt n }
    ensures size { result < 2 ^ 64 }
{
    match u64::try_from(n) {
        Ok(small) => small_root(small) as u128,
        Err(_) => large_root(n),
    }
}

/// The root of a number that has no room in 64 bits: the root of its upper digits, one more digit by division, and a
/// correction of that digit.
fn large_root(n: u128) -> u128
    requires { 2 ^ 64 ≤ n }
    ensures root { IsRoot n result }
    ensures size { result < 2 ^ 64 }
{
    let bits = (n.ilog2() - 62) / 2;
    let upper = small_root((n >> (2 * bits)) as u64) as u128;
    let rest = (n >> bits) - raised(upper * upper, bits);
    let digit = (rest / (2 * upper)).min(raised(1, bits) - 1);
    down_to_root(n, raised(upper, bits) + digit)
}

/// `x * 2^bits`, where it has room.
fn raised(x: u128, bits: u32) -> u128
    requires bits { bits < 128 }
    requires room { x * 2 ^ bits < 2 ^ 128 }
    ensures { result ≡ x * 2 ^ bits }
{
    x << bits
}

/// The root of `n`, from the root or a number just above it.
fn down_to_root(n: u128, mut root: u128) -> u128
    requires above { n < (root + 1) * (root + 1) }
    requires size { root < 2 ^ 64 }
    ensures root { IsRoot n result }
    ensures size { result < 2 ^ 64 }
{
    while n < root * root {
        root -= 1;
    }
    root
}

/// The root of a number that has room in 64 bits.
fn small_root(n: u64) -> u64
    ensures root { IsRoot n result }
    ensures size { result < 2 ^ 32 }
{
    if n == 0 {
        return 0;
    }
    let half = (n.ilog2() + 1) / 2;
    let guess = ((1 << half) + (n >> half)) / 2;
    newton_root(n, guess)
}

/// The root of `n` by Newton's steps, from the root or a number above it.
fn newton_root(n: u64, mut root: u64) -> u64
    requires above { n < (root + 1) * (root + 1) }
    requires size { root < 2 ^ 32 }
    ensures root { IsRoot n result }
    ensures size { result < 2 ^ 32 }
{
    while n < root * root {
        root = (root + n / root) / 2;
    }
    root
}
