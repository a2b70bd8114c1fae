ghost use Rattle.std.specs.Prelude.{◌≡◌, ◌≢◌, ◌⊎◌, ◌<◌, ◌^◌, ℕ, [], length, slice_index_or};

/// The places in a radio frame of each format of each channel, up to the most formats and channels that there may be.
#[derive(Drop)]
pub struct Places {
    rows: [[u32; 32]; 8],
    ghost channels: { length rows ≡ 8 },
    ghost formats: { (i : ℕ) → i < 8 → length (slice_index_or rows i []) ≡ 32 },
}

impl Places {
    ghost use Rattle.dch_frame.specs.Places.{place_at};

    /// No place for any format.
    pub fn none() -> Self
        ensures { (i f : ℕ) → place_at result i f ≡ 0 }
    {
        Places { rows: [[0; 32]; 8] }
    }

    /// The places of format `f` of channel `i`.
    pub fn at(&self, i: usize, f: usize) -> u64
        requires channel { i < 8 }
        requires format { f < 32 }
        ensures value { result ≡ place_at self.now i f }
        ensures small { result < 2 ^ 32 }
    {
        self.rows[i][f] as u64
    }

    /// Writes the places of format `f` of channel `i`.
    pub fn put(&mut self, i: usize, f: usize, places: u64)
        requires channel { i < 8 }
        requires format { f < 32 }
        requires small { places < 2 ^ 32 }
        ensures here { place_at self.new i f ≡ places }
        ensures same { (j g : ℕ) → (j ≢ i) ⊎ (g ≢ f) → place_at self.new j g ≡ place_at self.old j g }
    {
        self.rows[i][f] = places as u32;
    }
}
