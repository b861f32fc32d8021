//! The list machine at its limits.
use crate::wire;
use machines::composed::Machine;
use machines::machine::GateMachine;
use machines::operation::{Action, Full, GateRefusal, Operands, Operation};
use numbered::list::list_machine;
use numbered::numbering::Numbering;
use std::test::Fail;
use terms::{Gate, Wire};

#[test]
fn an_empty_list_is_full(rt: HostRuntime) {
    let mut list: [Operation; 0] = [];
    let mut machine = list_machine(1, 9, &mut list);
    assert_eq!(rt; machine.grant(false), Err(Full));
    assert_eq!(rt; machine.apply(Gate::H, &[]), Err(GateRefusal::Full));
    assert!(rt; machine.records().is_empty());
}

#[test]
fn records_fill_the_front(rt: HostRuntime) -> Result<(), Fail> {
    let zero = wire(0)?;
    let one = wire(1)?;
    let nine = wire(9)?;
    let blank = Operation {
        action: Action::Gate(Gate::Z),
        operands: Operands::One(nine),
    };
    let grant = Operation {
        action: Action::Grant(true),
        operands: Operands::One(one),
    };
    let gate = Operation {
        action: Action::Gate(Gate::Cx),
        operands: Operands::Two(one, zero),
    };
    let mut list = [blank; 4];
    let mut machine = list_machine(1, 2, &mut list);
    assert_eq!(rt; machine.grant(true), Ok(one));
    assert_eq!(rt; machine.grant(true), Err(Full));
    assert_eq!(rt;
        machine.apply(Gate::Cx, &[zero, nine]),
        Err(GateRefusal::Misnamed)
    );
    assert_eq!(rt; machine.apply(Gate::Cx, &[one, zero]), Ok(()));
    assert_eq!(rt; machine.records(), [grant, gate].as_slice());
    assert_eq!(rt; list, [grant, gate, blank, blank]);
    Ok(())
}

// A machine that is composed with a lent list as its journal hands out its records as a list machine does.
#[test]
fn a_machine_with_a_list_as_its_journal_hands_out_its_records(rt: HostRuntime) -> Result<(), Fail> {
    let zero = wire(0)?;
    let one = wire(1)?;
    let grant = Operation {
        action: Action::Grant(false),
        operands: Operands::One(one),
    };
    let gate = Operation {
        action: Action::Gate(Gate::Swap),
        operands: Operands::Two(zero, one),
    };
    let mut list = [gate, grant, grant];
    let mut machine = Machine::new(Numbering::new(1, 2), list.as_mut_slice());
    assert!(rt; machine.records().is_empty());
    assert_eq!(rt; machine.grant(false), Ok(one));
    assert_eq!(rt; machine.apply(Gate::Swap, &[zero, one]), Ok(()));
    assert_eq!(rt; machine.records(), [grant, gate].as_slice());
    assert_eq!(rt; list, [grant, gate, grant]);
    Ok(())
}

/// Any machine, and whether it granted a wire when it was taken over.
#[derive(Drop)]
struct TakenOver<M> {
    machine: M,
    granted: bool,
}

fn take_over<M: GateMachine>(mut machine: M) -> TakenOver<M> {
    let granted = machine.grant(false).is_ok();
    TakenOver { machine, granted }
}

fn is_gate_taken(machine: &mut dyn GateMachine, wire: Wire) -> bool {
    machine.apply(Gate::H, &[wire]).is_ok()
}

// That this is proved is the point: a machine with a ghost field beside its lent list could not be taken by value, nor one
// with the list as a type argument be a trait object.
#[test]
fn a_list_machine_is_taken_by_value_and_as_any_machine(rt: HostRuntime) -> Result<(), Fail> {
    let zero = wire(0)?;
    let blank = Operation {
        action: Action::Gate(Gate::Z),
        operands: Operands::One(zero),
    };
    let mut list = [blank; 2];
    let taken = take_over(list_machine(0, 4, &mut list));
    assert!(rt; taken.granted);
    let mut held = Some(taken.machine);
    if let Some(machine) = &mut held {
        assert!(rt; is_gate_taken(machine, zero));
        assert_eq!(rt; machine.grant(true), Err(Full));
    }
    Ok(())
}
