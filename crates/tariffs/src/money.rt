//! The money tariff.
ghost use Rattle.tariffs.specs.Money.{money, cents_of, amount};
ghost use Rattle.tariffs.specs.Charges.{sum_fair};

use crate::Tariff;
use crate::cents::Cents;
use crate::prices::PriceList;
use terms::StepKind;

/// Charges in cents, which are added up and stay at 2^63 - 1 once they would pass it.
#[derive(Clone, Copy)]
pub struct Money;

// What the steps cost, in cents.
const PRICES: PriceList<u64> = PriceList {
    classical: 0,
    grant: 300,
    gates: [10, 40, 150],
};

impl Tariff for Money {
    type Charge = Cents;

    ghost prices = { λ _. money };

    ghost fair = { λ t. sum_fair (λ k. amount (cents_of k)) };

    fn zero(&self) -> Cents {
        Cents { value: 0 }
    }

    fn join(&self, a: Cents, b: Cents) -> Cents {
        Cents {
            value: a.value.saturating_add(b.value).min(Cents::MOST),
        }
    }

    fn charge(&self, kind: StepKind) -> Cents {
        Cents {
            value: PRICES.of(kind),
        }
    }
}
