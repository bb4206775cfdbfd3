// The numbers of refusals.
ghost use Rattle.std.specs.Prelude.{◌≡◌, ℕ};

/// A refusal, which has its number in the paper.
pub trait Numbered {
    ghost number_of: { Self → ℕ };

    /// The paper's number.
    fn number(self) -> u32
        ensures { result ≡ number_of self };
}
