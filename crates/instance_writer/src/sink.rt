//! What takes a text, piece by piece.
ghost use Rattle.std.specs.Prelude.{ℕ, List, [], ◌++◌};

/// Takes a text piece by piece: contracts see what it took between two moments.
pub trait Sink {
    /// It can take more.
    ghost IsReady: { Self → Type 0 };

    /// It took this text.
    ghost Takes: { List ℕ → Self → Self → Type 0 };

    fn put(&mut self, piece: &[u8])
        requires ready { IsReady self.old }
        ensures ready { IsReady self.new }
        ensures text { Takes piece.now self.old self.new };

    /// Texts that are taken one after another are taken as one.
    ghost takes_none: { (s : Self) → Takes [] s s };

    ghost takes_more: { (a b : List ℕ) (s t u : Self) → Takes a s t → Takes b t u → Takes (a ++ b) s u };
}
