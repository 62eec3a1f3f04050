//! How refusals and faults are told.
ghost use Rattle.std.specs.Prelude.{◌≡◌, ℕ};

/// A refusal or a fault, by its number, which a console shows, and its place.
pub trait Numbered {
    ghost number_of: { Self → ℕ };

    ghost place_of: { Self → ℕ };

    /// Its number.
    fn number(&self) -> u16
        ensures { result ≡ number_of self.now };

    /// Where it lies, or 0 where it has no place, as a console shows it.
    fn place(&self) -> usize
        ensures { result ≡ place_of self.now };
}
