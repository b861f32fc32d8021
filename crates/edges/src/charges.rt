//! The tariffs at their limits.
use tariffs::Tariff;
use tariffs::cents::Cents;
use tariffs::grade::Grade;
use tariffs::money::Money;
use tariffs::noise::Noise;
use terms::{Gate, StepKind};

/// Two amounts and their sum, which stays at 2^63 - 1.
const SUMS: [(u64, u64, u64); 7] = [
    (0, 0, 0),
    (300, 40, 340),
    (Cents::MOST - 1, 0, Cents::MOST - 1),
    (Cents::MOST - 1, 1, Cents::MOST),
    (Cents::MOST - 1, 2, Cents::MOST),
    (Cents::MOST, 0, Cents::MOST),
    (Cents::MOST, Cents::MOST, Cents::MOST),
];

#[test]
fn sums_of_money(rt: HostRuntime) {
    for (a, b, sum) in SUMS {
        if a <= Cents::MOST && b <= Cents::MOST {
            let joined = Money.join(Cents { value: a }, Cents { value: b });
            assert_eq!(rt; joined.value, sum);
        }
    }
}

/// A kind of step, its cents and its grade.
const PRICES: [(StepKind, u64, u8); 16] = [
    (StepKind::Single, 0, 0),
    (StepKind::Tuple, 0, 0),
    (StepKind::Bang, 0, 0),
    (StepKind::Grant(false), 300, 0),
    (StepKind::Grant(true), 300, 0),
    (StepKind::Gate(Gate::H), 10, 1),
    (StepKind::Gate(Gate::X), 10, 1),
    (StepKind::Gate(Gate::Z), 10, 1),
    (StepKind::Gate(Gate::S), 10, 1),
    (StepKind::Gate(Gate::Sdg), 10, 1),
    (StepKind::Gate(Gate::T), 10, 1),
    (StepKind::Gate(Gate::Tdg), 10, 1),
    (StepKind::Gate(Gate::Cx), 40, 4),
    (StepKind::Gate(Gate::Cz), 40, 4),
    (StepKind::Gate(Gate::Swap), 40, 4),
    (StepKind::Gate(Gate::Ccx), 150, 9),
];

#[test]
fn prices(rt: HostRuntime) {
    for (kind, cents, grade) in PRICES {
        assert_eq!(rt; Money.charge(kind).value, cents);
        assert_eq!(rt; Noise.charge(kind).value, grade);
    }
    assert_eq!(rt; Money.zero().value, 0);
    assert_eq!(rt; Noise.zero().value, 0);
}

#[test]
fn the_greater_grade_counts(rt: HostRuntime) {
    for a in 0..10 {
        for b in 0..10 {
            let joined = Noise.join(Grade { value: a }, Grade { value: b });
            assert_eq!(rt; joined.value, a.max(b));
        }
    }
}
