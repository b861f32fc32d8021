//! Tariffs: what the steps of a run cost, and how costs are joined.
#![tactic(auto)]

ghost use Rattle.std.specs.Prelude.{◌≡◌};
ghost use Rattle.tariffs.specs.Tariff.{Prices, Fair};

use terms::StepKind;

pub mod cents;
pub mod grade;
pub mod money;
pub mod noise;
pub mod prices;

/// A tariff, by its prices. They are of the value, so that they can have been read while the program runs.
pub trait Tariff {
    /// What is charged.
    type Charge: Copy;

    /// The zero, the joining of two charges, and the charge for each kind of step.
    ghost prices: { Self → Prices Self.Charge };

    /// The charge for nothing.
    fn zero(&self) -> Self::Charge
        ensures { result ≡ (prices self.now).zero };

    /// Two charges in one.
    fn join(&self, a: Self::Charge, b: Self::Charge) -> Self::Charge
        ensures { result ≡ (prices self.now).join a b };

    /// The charge for a step of a kind.
    fn charge(&self, kind: StepKind) -> Self::Charge
        ensures { result ≡ (prices self.now).charge kind };

    /// Charges can be joined in any order.
    ghost fair: { (t : Self) → Fair (prices t) };
}
