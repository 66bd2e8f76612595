ghost use Rattle.std.specs.Prelude.{◌≡◌, ℕ, ◌^◌, ◌≤◌, ℤ, pos, ◌+ℤ◌, ◌<ℤ◌};
ghost use Rattle.sharing.specs.Shares.{limit};

/// A line that takes a share of a sum by its weight.
pub trait Line {
    ghost weight: { Self → ℕ };

    /// what the line has had, in cents
    ghost had: { Self → ℤ };

    /// the line with a share added to what it has had, and all else as it was
    ghost given: { Self → ℕ → Self };

    fn weighs(&self) -> u64
        ensures { result ≡ weight self.now };

    fn add(&mut self, share: u64)
        requires small { share ≤ limit }
        requires room { (had self.old +ℤ pos share) <ℤ pos (2 ^ 63) }
        ensures { self.new ≡ given self.old share };

    ghost adds: { (x : Self) (s : ℕ) → had (given x s) ≡ had x +ℤ pos s };

    ghost keeps: { (x : Self) (s : ℕ) → weight (given x s) ≡ weight x };
}
