ghost use Rattle.std.specs.Prelude.{◌≡◌, ◌/◌, ◌<◌};

/// `n / d`, rounded down. A division of 64 bits by the upper bits of both gives the quotient or a little less, mostly at most one
/// less; what is then left tells the rest.
pub(crate) fn quotient(n: u128, d: u128) -> u128
    requires { 0 < d }
    ensures { result ≡ n / d }
{
    if n < d {
        return 0;
    }
    let shift = n.ilog2().saturating_sub(62);
    let guess = ((n >> shift) as u64 / ((d >> shift) as u64 + 1)) as u128;
    let rest = n - guess * d;
    if rest < d {
        return guess;
    }
    if rest - d < d {
        return guess + 1;
    }
    guess + rest / d
}
