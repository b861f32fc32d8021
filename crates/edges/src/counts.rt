//! The counting machine at its limits.
use crate::{granted, wire};
use machines::machine::GateMachine;
use machines::operation::{Action, Full, GateRefusal, Operands, Operation};
use machines::wires::Wires;
use numbered::counting::counting_machine;
use numbered::numbering::Numbering;
use std::test::Fail;
use terms::Gate;

/// Start, most wires and most operations, and the first wire granted.
const FIRST: [(u32, u32, u32, Option<u16>); 10] = [
    (0, 0, 9, None),
    (0, 9, 0, None),
    (0, 1, 1, Some(0)),
    (2, 3, 9, Some(2)),
    (3, 3, 9, None),
    (5, 3, 9, None),
    (4095, 4096, 9, Some(4095)),
    (4095, 5000, 9, Some(4095)),
    (4096, 5000, 9, None),
    (u32::MAX, u32::MAX, u32::MAX, None),
];

#[test]
fn first_grants(rt: HostRuntime) {
    for (start, most_wires, most_operations, first) in FIRST {
        let mut machine = counting_machine(start, most_wires, most_operations);
        assert_eq!(rt; granted(&mut machine, true), first);
    }
}

/// Start, most wires, and the number from which on no wire is held.
const HELD: [(u32, u32, u16); 5] = [
    (0, 9, 0),
    (7, 9, 7),
    (7, 5, 5),
    (5000, 5000, 4096),
    (5000, 0, 0),
];

#[test]
fn wires_held_at_first(rt: HostRuntime) -> Result<(), Fail> {
    for (start, most_wires, end) in HELD {
        let machine = counting_machine(start, most_wires, 0);
        for number in 0..4096 {
            assert_eq!(rt; machine.holds(wire(number)?), number < end);
        }
    }
    Ok(())
}

/// Start and most wires, and the wires taken one after another.
const TAKEN: [(u32, u32, &[u16]); 4] = [
    (0, 0, &[]),
    (5, 3, &[]),
    (1, 3, &[1, 2]),
    (4094, 5000, &[4094, 4095]),
];

#[test]
fn wires_are_taken_up_to_the_most(rt: HostRuntime) -> Result<(), Fail> {
    for (start, most, taken) in TAKEN {
        let mut numbering = Numbering::new(start, most);
        for number in taken {
            assert_eq!(rt; numbering.take(), Ok(wire(*number)?));
        }
        assert_eq!(rt; numbering.take(), Err(Full));
        assert_eq!(rt; numbering.take(), Err(Full));
    }
    Ok(())
}

#[test]
fn refusals_in_order(rt: HostRuntime) -> Result<(), Fail> {
    let zero = wire(0)?;
    let one = wire(1)?;
    let nine = wire(9)?;
    let mut full = counting_machine(2, 2, 0);
    assert_eq!(rt; full.apply(Gate::Cx, &[zero, zero]), Err(GateRefusal::Full));
    let mut machine = counting_machine(2, 2, 1);
    assert_eq!(rt;
        machine.apply(Gate::Cx, &[zero, zero]),
        Err(GateRefusal::Misnamed)
    );
    assert_eq!(rt;
        machine.apply(Gate::Cx, &[zero, nine]),
        Err(GateRefusal::Misnamed)
    );
    assert_eq!(rt;
        machine.apply(Gate::Cx, &[zero]),
        Err(GateRefusal::Misnamed)
    );
    assert_eq!(rt; machine.apply(Gate::H, &[]), Err(GateRefusal::Misnamed));
    assert!(rt; machine.last().is_none());
    assert_eq!(rt; machine.apply(Gate::Cx, &[one, zero]), Ok(()));
    let made = Operation {
        action: Action::Gate(Gate::Cx),
        operands: Operands::Two(one, zero),
    };
    assert_eq!(rt; machine.last(), Some(&made));
    assert_eq!(rt;
        machine.apply(Gate::Cx, &[one, zero]),
        Err(GateRefusal::Full)
    );
    Ok(())
}
