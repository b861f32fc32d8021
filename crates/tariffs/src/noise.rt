//! The tariff of noise grades.
ghost use Rattle.tariffs.specs.Noise.{noise, grade_of, graded};
ghost use Rattle.tariffs.specs.Charges.{greater_fair};

use crate::Tariff;
use crate::grade::Grade;
use crate::prices::PriceList;
use terms::StepKind;

/// Grades, of which the greater counts.
#[derive(Clone, Copy)]
pub struct Noise;

// The grades of the steps.
const GRADES: PriceList<u8> = PriceList {
    classical: 0,
    grant: 0,
    gates: [1, 4, 9],
};

impl Tariff for Noise {
    type Charge = Grade;

    ghost prices = { λ _. noise };

    ghost fair = { λ t. greater_fair (λ k. graded (grade_of k)) };

    fn zero(&self) -> Grade {
        Grade { value: 0 }
    }

    fn join(&self, a: Grade, b: Grade) -> Grade {
        a.max(b)
    }

    fn charge(&self, kind: StepKind) -> Grade {
        Grade {
            value: GRADES.of(kind),
        }
    }
}
