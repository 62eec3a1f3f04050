//! The interface of a process.
ghost use Rattle.std.specs.Prelude.{◌≡◌, ℕ};
ghost use Rattle.process.specs.Meaning.{Meaning, Lawful};
ghost use Rattle.process.specs.Bounds.{Within};
ghost use Rattle.process.specs.Outcomes.{told, start_outcome, admitted, next_outcome};

use crate::limits::Limits;
use crate::refusal::Refusal;

/// A process, by its meaning: every answer below is the meaning's.
pub trait Process {
    ghost WIDEST: { ℕ };

    /// The widest row of any process of this kind, at most 512.
    const WIDEST: usize;

    ghost MOST_CHOICES: { ℕ };

    /// The most choices of any process of this kind, at most 4,096.
    const MOST_CHOICES: usize;

    ghost meaning: { Self → Meaning };

    /// The two constants.
    fn limits() -> Limits
        ensures { result ≡ record { widest = WIDEST; most_choices = MOST_CHOICES } }
    {
        Limits {
            widest: Self::WIDEST,
            most_choices: Self::MOST_CHOICES,
        }
    }

    /// How many cells a row has.
    fn width(&self) -> usize
        ensures { result ≡ (meaning self.now).width };

    /// How many choices there are, allowed or not.
    fn choices(&self) -> usize
        ensures { result ≡ (meaning self.now).choices };

    /// Writes the start row. Refuses by 20.
    fn start(&self, out: &mut [u16]) -> Result<(), Refusal>
        ensures answer { told result ≡ (start_outcome (meaning self.now) out.old).answer }
        ensures left { out.new ≡ (start_outcome (meaning self.now) out.old).left };

    /// Whether the row is safe. One of another length is not.
    fn is_safe(&self, row: &[u16]) -> bool
        ensures { result ≡ (meaning self.now).safe row.now };

    /// Whether a row, a choice and a buffer are of this process at all. Refuses by 20 and 21, in this order.
    fn admit(&self, row: &[u16], choice: usize, out: &[u16]) -> Result<(), Refusal>
        ensures { told result ≡ admitted (meaning self.now) row.now choice out.now }
    {
        let width = self.width();
        if row.len() != width || out.len() != width {
            return Err(Refusal::WrongLength);
        }
        if choice >= self.choices() {
            return Err(Refusal::NoSuchChoice);
        }
        Ok(())
    }

    /// Writes the row that the choice leads to. Refuses by 20, 21 and 22, in this order.
    fn next(&self, row: &[u16], choice: usize, out: &mut [u16]) -> Result<(), Refusal>
        ensures answer { told result ≡ (next_outcome (meaning self.now) row.now choice out.old).answer }
        ensures left { out.new ≡ (next_outcome (meaning self.now) row.now choice out.old).left };

    ghost lawful: { (p : Self) → Lawful (meaning p) };

    ghost within: { (p : Self) → Within (record { widest = WIDEST; most_choices = MOST_CHOICES }) (meaning p) };
}
