ghost use Rattle.std.specs.Prelude.{◌≡◌, ◌++◌, [], ℕ, List, Bool, not};

/// Where the text of a command goes. A write that fails isn't told at once: the page is silent from then on, and
/// `is_open` tells of it.
pub trait Page {
    /// What a text makes of a page: how it stands before and after.
    ghost writes: { Self → List ℕ → Self → Type 0 };

    /// Whether a write has failed.
    ghost broken: { Self → Bool };

    /// Writes a text, now or later.
    fn put_text(&mut self, text: &[u8])
        ensures { writes self.old text.now self.new };

    /// Whether no write has failed.
    fn is_open(&self) -> bool
        ensures { result ≡ not (broken self.now) };

    /// No text leaves a page as it is.
    ghost nothing: { (page : Self) → writes page [] page };

    /// A text and then more is the text of both.
    ghost joined: { (first mid last : Self) (text more : List ℕ) → writes first text mid → writes mid more last → writes first (text ++ more) last };
}
