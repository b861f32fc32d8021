//! A tariff whose prices are data, as if they had been read while the program runs.
ghost use Rattle.std.specs.Prelude.{◌≡◌};
ghost use Rattle.generic_use.specs.Rates.{rates, rate_of};
ghost use Rattle.tariffs.specs.Money.{amount};
ghost use Rattle.tariffs.specs.Charges.{sum_fair};

use tariffs::Tariff;
use tariffs::cents::Cents;
use tariffs::money::Money;
use tariffs::prices::PriceList;
use terms::StepKind;

/// Prices in cents: of a grant, and of gates by their width. Classical steps are free.
#[derive(Clone, Copy)]
pub struct Rates {
    pub grant: u32,
    pub gates: [u32; 3],
}

impl Rates {
    /// The price of a step of a kind, in cents.
    pub fn rate(&self, kind: StepKind) -> u32
        ensures { result ≡ rate_of self.now kind }
    {
        PriceList {
            classical: 0,
            grant: self.grant,
            gates: self.gates,
        }
        .of(kind)
    }
}

impl Tariff for Rates {
    type Charge = Cents;

    ghost prices = { rates };

    ghost fair = { λ t. sum_fair (λ k. amount (rate_of t k)) };

    fn zero(&self) -> Cents {
        Money.zero()
    }

    fn join(&self, a: Cents, b: Cents) -> Cents {
        Money.join(a, b)
    }

    fn charge(&self, kind: StepKind) -> Cents {
        Cents {
            value: self.rate(kind) as u64,
        }
    }
}
