ghost use Rattle.std.specs.Prelude.{◌≡◌, ◌<◌, ◌≤◌, ◌+◌, ◌-◌, ◌*◌, ◌/◌, ◌%◌, ◌^◌, ℤ, ℕ, pos, ◌≤ℤ◌};
ghost use Rattle.std.specs.Int.RustNames.{unsigned_abs};
ghost use Rattle.dch_types.specs.Limits.{IsFrames};
ghost use Rattle.dch_frame.specs.Shifts.{average_distance, extra, q_multiple, column_shift, gcd, FallsOn};

/// The greatest common divisor of `a` and the frames of a TTI.
fn common_divisor(a: u64, frames: u64) -> u64
    requires { IsFrames frames }
    ensures { result ≡ gcd a frames }
{
    let mut divisor = frames;
    while divisor > 1 {
        if frames % divisor == 0 && a % divisor == 0 {
            return divisor;
        }
        divisor -= 1;
    }
    1
}

/// What q' has above q, in parts of a TTI of so many frames, where q has this size.
fn extra(size: u64, frames: u64) -> u64
    requires { IsFrames frames }
    ensures value { result ≡ extra size frames }
    ensures small { result ≤ frames }
{
    if size % 2 == 0 {
        common_divisor(size, frames)
    } else {
        0
    }
}

/// The mean distance q of the bits that are removed or repeated, of `n` bits with `r` the remainder of dN modulo `n`.
pub fn average_distance(n: u64, r: u64) -> i64
    requires short { n ≤ 131072 }
    requires remainder { r < n }
    ensures value { result ≡ average_distance n r }
    ensures size { unsigned_abs result ≤ 131072 }
{
    if 0 < r && 2 * r <= n {
        n.div_ceil(r) as i64
    } else {
        -((n / (n - r)) as i64)
    }
}

/// |floor(x*q')|.
fn q_multiple(q: i64, frames: u64, x: u64) -> u64
    requires frames { IsFrames frames }
    requires size { unsigned_abs q ≤ 131072 }
    requires inside { x < frames }
    ensures value { result ≡ q_multiple q frames x }
    ensures size { result < 2 ^ 21 }
{
    let size = q.unsigned_abs();
    let extra = extra(size, frames);
    if q < 0 {
        (x * (frames * size - extra)).div_ceil(frames)
    } else {
        x * (frames * size + extra) / frames
    }
}

/// The shift S of a column of the first interleaver. Of the turns of a TTI exactly one falls on each column, and each
/// gives its column the shift t div F.
pub fn column_shift(q: i64, frames: u64, column: u64) -> u64
    requires frames { IsFrames frames }
    requires size { unsigned_abs q ≤ 131072 }
    requires column { column < frames }
    ensures value { result ≡ column_shift q frames column }
    ensures some { (x : ℕ) × FallsOn q frames column x }
    ensures alone { (x y : ℕ) → FallsOn q frames column x → FallsOn q frames column y → x ≡ y }
    ensures turned { (x : ℕ) → FallsOn q frames column x → result ≡ q_multiple q frames x / frames }
    ensures size { result < 2 ^ 21 }
{
    for x in 0..frames {
        let q_multiple = q_multiple(q, frames, x);
        if q_multiple % frames == column {
            return q_multiple / frames;
        }
    }
    unreachable!()
}
