//! The two interleavers as places (TS 25.212 4.2.5 and 4.2.11): which place of the input an output place shows, and
//! back.
#![tactic(auto)]

ghost use Rattle.std.specs.Prelude.{◌≡◌, ◌+◌, ◌*◌, ◌/◌, ◌%◌, ◌^◌, ◌<◌, ◌≤◌, ℕ, slice_index, sum_by, take};
ghost use Rattle.dch_types.specs.Lengths.{padded};
ghost use Rattle.dch_types.specs.Limits.{IsFrames};
ghost use Rattle.dch_inter.specs.Places.{first_column, first_of, first_back_of, frame_of, place_of, second_columns, height_of, second_of, second_back_of};

/// The least multiple of `f` radio frames that is at least `len`: the bits of a TTI after padding (TS 25.212 4.2.4).
pub fn equalise(len: usize, f: usize) -> usize
    requires frames { IsFrames f }
    requires small { len ≤ 2 ^ 31 }
    ensures value { result ≡ padded len f }
    ensures multiple { result % f ≡ 0 }
    ensures enough { len ≤ result }
    ensures least { result < len + f }
{
    len.div_ceil(f) * f
}

/// The column of the first interleaver that is read as the `n`-th, and that radio frame `n` of a TTI carries.
pub fn column(f: usize, n: usize) -> usize
    requires frames { IsFrames f }
    requires inside { n < f }
    ensures value { result ≡ first_column f n }
    ensures inside { result < f }
{
    match f {
        8 => [0, 4, 2, 6, 1, 5, 3, 7][n],
        4 => [0, 2, 1, 3][n],
        _ => n,
    }
}

/// The input place that the first interleaver shows at output place `k`, in a TTI of `f` frames and `len` bits.
pub fn first(f: usize, len: usize, k: usize) -> usize
    requires frames { IsFrames f }
    requires divides { len % f ≡ 0 }
    requires small { len ≤ 2 ^ 31 }
    requires inside { k < len }
    ensures value { result ≡ first_of f len k }
    ensures inside { result < len }
    ensures undone { first_back_of f len result ≡ k }
    ensures by_columns { (n j : ℕ) → j < len / f → k ≡ n * (len / f) + j → result ≡ j * f + first_column f n }
{
    let rows = len / f;
    k % rows * f + column(f, k / rows)
}

/// The output place of the first interleaver that shows input place `i`.
pub fn first_back(f: usize, len: usize, i: usize) -> usize
    requires frames { IsFrames f }
    requires divides { len % f ≡ 0 }
    requires small { len ≤ 2 ^ 31 }
    requires inside { i < len }
    ensures value { result ≡ first_back_of f len i }
    ensures inside { result < len }
    ensures undone { first_of f len result ≡ i }
{
    column(f, i % f) * (len / f) + i / f
}

/// The radio frame, from 0, that shows place `i` of the TTI after the first interleaver.
pub fn frame(f: usize, len: usize, i: usize) -> usize
    requires frames { IsFrames f }
    requires divides { len % f ≡ 0 }
    requires small { len ≤ 2 ^ 31 }
    requires inside { i < len }
    ensures value { result ≡ frame_of f len i }
    ensures inside { result < f }
{
    column(f, i % f)
}

/// The place in that radio frame, which has `len / f` places.
pub fn place(f: usize, len: usize, i: usize) -> usize
    requires frames { IsFrames f }
    requires divides { len % f ≡ 0 }
    requires small { len ≤ 2 ^ 31 }
    requires inside { i < len }
    ensures value { result ≡ place_of f len i }
    ensures inside { result < len / f }
{
    i / f
}

/// The columns of the second interleaver, in the order in which they are read.
#[tactic(auto, unfolding(crate::specs::Places::second_columns))]
fn columns() -> &'static [usize]
    ensures { result.now ≡ second_columns }
{
    &[
        0, 20, 10, 5, 15, 25, 3, 13, 23, 8, 18, 28, 1, 11, 21, 6, 16, 26, 4, 14, 24, 19, 9, 29, 12,
        2, 7, 22, 27, 17,
    ]
}

/// The places of a column of the second interleaver.
fn height(len: usize, column: usize) -> usize
    requires small { len ≤ 2 ^ 31 }
    requires inside { column < 30 }
    ensures { result ≡ height_of len column }
{
    (len + 29 - column) / 30
}

/// The input place that the second interleaver shows at output place `k`.
#[tactic(auto, using(crate::proofs::Rows::reading), unfolding(crate::specs::Places::second_of))]
pub fn second(len: usize, k: usize) -> usize
    requires small { len ≤ 2 ^ 31 }
    requires inside { k < len }
    ensures value { result ≡ second_of len k }
    ensures inside { result < len }
    ensures undone { second_back_of len result ≡ k }
    ensures by_columns { (n r : ℕ) → n < 30 → r < height_of len (slice_index second_columns n) →
        k ≡ sum_by (height_of len) (take n second_columns) + r → result ≡ 30 * r + slice_index second_columns n }
{
    let mut row = k;
    for column in columns() {
        let height = height(len, *column);
        if row < height {
            return 30 * row + *column;
        }
        row -= height;
    }
    unreachable!()
}

/// The output place of the second interleaver that shows input place `i`.
#[tactic(auto, using(crate::proofs::Rows::finding), unfolding(crate::specs::Places::second_back_of))]
pub fn second_back(len: usize, i: usize) -> usize
    requires small { len ≤ 2 ^ 31 }
    requires inside { i < len }
    ensures value { result ≡ second_back_of len i }
    ensures inside { result < len }
    ensures undone { second_of len result ≡ i }
{
    let mut before = 0;
    for column in columns() {
        if i % 30 == *column {
            return before + i / 30;
        }
        before += height(len, *column);
    }
    unreachable!()
}
