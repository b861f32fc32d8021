//! The chip machine at its limits.
use crate::{granted, wire};
use chip::chip_machine;
use machines::machine::GateMachine;
use machines::operation::GateRefusal;
use std::test::Fail;
use terms::{Gate, Wire};

/// The mask of the wires held, the most operations, and the wire granted.
const FIRST: [(u64, u32, Option<u16>); 8] = [
    (0, 9, Some(63)),
    (0, 0, None),
    (1 << 63, 9, Some(62)),
    (0xffff_ffff_0000_0000, 9, Some(31)),
    (0xffff_ffff_ffff_fffe, 9, Some(0)),
    (0xffff_ffff_ffff_fffb, 9, Some(2)),
    (u64::MAX, 9, None),
    (u64::MAX - 1, u32::MAX, Some(0)),
];

#[test]
fn first_grants(rt: HostRuntime) {
    for (held, most_operations, first) in FIRST {
        let mut machine = chip_machine(held, most_operations, [0; 64]);
        assert_eq!(rt; granted(&mut machine, false), first);
    }
}

#[test]
fn a_chip_fills_from_above(rt: HostRuntime) {
    let mut machine = chip_machine(0, 100, [0; 64]);
    for left in (0..64).rev() {
        assert_eq!(rt; granted(&mut machine, false), Some(left));
    }
    assert_eq!(rt; granted(&mut machine, false), None);
}

/// Gates, their wires, and what a chip answers that couples 3 to 5, in this direction only, and holds wires 0 to 7.
const COUPLED: [(Gate, &[u16], Result<(), GateRefusal>); 12] = [
    (Gate::Cx, &[3, 5], Ok(())),
    (Gate::Cx, &[5, 3], Ok(())),
    (Gate::Swap, &[5, 3], Ok(())),
    (Gate::Cz, &[3, 4], Err(GateRefusal::Forbidden)),
    (Gate::Cz, &[0, 1], Err(GateRefusal::Forbidden)),
    (Gate::T, &[7], Ok(())),
    (Gate::T, &[8], Err(GateRefusal::Misnamed)),
    (Gate::T, &[64], Err(GateRefusal::Misnamed)),
    (Gate::Cx, &[3, 3], Err(GateRefusal::Misnamed)),
    (Gate::Cx, &[3], Err(GateRefusal::Misnamed)),
    (Gate::Ccx, &[3, 5, 6], Err(GateRefusal::Forbidden)),
    (Gate::Ccx, &[3, 5, 3], Err(GateRefusal::Misnamed)),
];

#[test]
fn couplings(rt: HostRuntime) -> Result<(), Fail> {
    let mut table = [0; 64];
    table[3] = 1 << 5;
    for (gate, numbers, answer) in COUPLED {
        let wires: Vec<Wire> = numbers
            .iter()
            .map(|number| wire(*number))
            .try_collect(rt.alloc())?;
        let mut machine = chip_machine(0xff, 1, table);
        assert_eq!(rt; machine.apply(gate, wires.as_slice()), answer);
        let once_more = answer.and(Err(GateRefusal::Full));
        assert_eq!(rt; machine.apply(gate, wires.as_slice()), once_more);
    }
    Ok(())
}
