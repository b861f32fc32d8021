//! Code over any machine and any tariff: what it can promise from the interfaces alone.
#![tactic(auto)]

ghost use Rattle.std.specs.Prelude.{◌≡◌, List, map, length, take, drop};
ghost use Rattle.std.specs.List.{range_with_len};
ghost use Rattle.machines.specs.Listing.{Writes};
ghost use Rattle.machines.specs.Machine.{Meaning};
ghost use Rattle.machines.specs.Operation.{Operation as Made, told, granted_wires};
ghost use Rattle.machines.specs.declared.listed.Listed.{Listed};
ghost use Rattle.numbered.specs.declared.numbering.Numbering.{Numbering};
ghost use Rattle.numbered.specs.Numbered.{fresh_numbered, Numbers};
ghost use Rattle.generic_use.specs.Lists.{Told};
ghost use Rattle.generic_use.specs.Preparing.{Prepares, prepared};

use machines::machine::GateMachine;
use machines::operation::{Full, GateRefusal, Operation};
use numbered::list::{ListMachine, list_machine};
use tariffs::Tariff;
use terms::{Gate, StepKind, Wire};

pub mod rates;

/// A wire that was granted, and the machine's answer to the gate on it.
#[derive(Clone, Copy)]
pub struct Prepared {
    pub wire: Wire,
    pub gate: Result<(), GateRefusal>,
}

/// Has any machine grant a wire for 0 and apply H to it. The machine never finds the wire misnamed.
pub fn prepare<M: GateMachine>(machine: &mut M) -> Result<Prepared, Full>
    ensures prepares { Prepares result (M.GateMachine.meaning machine.old) (M.GateMachine.meaning machine.new) }
    ensures makes { M.GateMachine.makes machine.old (prepared result) machine.new }
{
    let wire = machine.grant(false)?;
    let gate = machine.apply(Gate::H, &[wire]);
    Ok(Prepared { wire, gate })
}

/// The same on a list machine of at most four wires. The list then tells just the operations that were made, on wires from 0
/// on, though the machine was driven by code that knows nothing of lists.
pub fn prepare_listed(list: &mut [Operation]) -> Result<Prepared, Full>
    ensures prepares { (n : Meaning) × Prepares result (fresh_numbered 0 4 (length list.old)) n }
    ensures numbers { granted_wires (prepared result) ≡ range_with_len 0 (length (granted_wires (prepared result))) }
    ensures front { map told (take (length (prepared result)) list.new) ≡ prepared result }
    ensures rest { drop (length (prepared result)) list.new ≡ drop (length (prepared result)) list.old }
{
    let mut machine = list_machine(0, 4, list);
    prepare(&mut machine)
}

/// What a lent list holds once a list machine that had made no operation has made some, by whatever code it was driven: just
/// these operations, on wires from its next one on, and behind them what it held before. For that it is enough that the wires
/// granted are the next numbers, and that the operations were written.
pub fn lent_list_is_told<'a>()
    ensures made_is_told { (x y : Listed Numbering) (os : List Made) → x.made ≡ 0 → ⟦<ListMachine<'a> as GateMachine>⟧.makes x os y → Told x os y }
    ensures written_is_told { (x y : Listed Numbering) (os : List Made) → x.made ≡ 0 → Numbers x.wires (granted_wires os) y.wires → Writes x.list x.made os y.list → Told x os y }
{}

/// The charge for two steps, which is the same in the other order.
pub fn charge_both<T: Tariff>(tariff: &T, first: StepKind, second: StepKind) -> T::Charge
    ensures { result ≡ (T.Tariff.prices tariff.now).join ((T.Tariff.prices tariff.now).charge second) ((T.Tariff.prices tariff.now).charge first) }
{
    let one = tariff.join(tariff.zero(), tariff.charge(first));
    tariff.join(one, tariff.charge(second))
}
