//! What a machine does when it is called, by its wires, by how many operations it has made, and by its journal.
ghost use Rattle.std.specs.Prelude.{◌≡◌, ℕ, ◌+◌, ◌<◌, ◌≤◌, ◌↔◌, List, length, IsOk, OnOk};
ghost use Rattle.machines.specs.Composed.{composed};
ghost use Rattle.machines.specs.Machine.{Grants, Applies, Names, grant_made, gate_made};
ghost use Rattle.machines.specs.Operation.{granted_wires};

use crate::journal::Journal;
use crate::operation::{Action, Full, GateRefusal, Operands, Operation};
use crate::wires::Wires;
use terms::{Gate, Wire};

// Whether there is room for one more operation.
fn room<J: Journal>(made: usize, journal: &J) -> Result<(), Full>
    ensures room { IsOk result ↔ made < J.most journal.now }
    ensures fits { OnOk result (made < usize.MAX) }
{
    if made < journal.most() {
        Ok(())
    } else {
        Err(Full)
    }
}

/// Takes a wire, and writes down that it was granted for the constant.
pub(crate) fn grant<W: Wires, J: Journal>(
    wires: &mut W,
    made: &mut usize,
    journal: &mut J,
    constant: bool,
) -> Result<Wire, Full>
    ensures grants { let before = composed (W.supply wires.old) made.old (J.last journal.old made.old) (J.most journal.old) in let after = composed (W.supply wires.new) made.new (J.last journal.new made.new) (J.most journal.new) in Grants constant result before after }
    ensures takes { W.takes wires.old (granted_wires (grant_made constant result)) wires.new }
    ensures counts { made.new ≡ made.old + length (grant_made constant result) }
    ensures writes { J.writes journal.old made.old (grant_made constant result) journal.new }
    ensures within { made.old ≤ J.most journal.old → made.new ≤ J.most journal.new }
{
    room(*made, journal)?;
    let wire = wires.take()?;
    let operation = Operation {
        action: Action::Grant(constant),
        operands: Operands::One(wire),
    };
    journal.write(*made, operation)?;
    *made += 1;
    Ok(wire)
}

/// Writes down that the gate was applied to the operands, if its wires were well named and it is allowed on them.
pub(crate) fn apply<W: Wires, J: Journal>(
    wires: &W,
    made: &mut usize,
    journal: &mut J,
    gate: Gate,
    named: Option<Operands>,
) -> Result<(), GateRefusal>
    ensures applies { let before = composed (W.supply wires.now) made.old (J.last journal.old made.old) (J.most journal.old) in let after = composed (W.supply wires.now) made.new (J.last journal.new made.new) (J.most journal.new) in (ws : List ℕ) → Names before gate ws named → Applies gate ws result before after }
    ensures takes { (ws : List ℕ) → W.takes wires.now (granted_wires (gate_made gate ws result)) wires.now }
    ensures counts { (ws : List ℕ) → made.new ≡ made.old + length (gate_made gate ws result) }
    ensures writes { let before = composed (W.supply wires.now) made.old (J.last journal.old made.old) (J.most journal.old) in (ws : List ℕ) → Names before gate ws named → J.writes journal.old made.old (gate_made gate ws result) journal.new }
    ensures within { made.old ≤ J.most journal.old → made.new ≤ J.most journal.new }
{
    room(*made, journal)?;
    let operands = named.ok_or(GateRefusal::Misnamed)?;
    if !wires.allows(gate, operands) {
        return Err(GateRefusal::Forbidden);
    }
    let operation = Operation {
        action: Action::Gate(gate),
        operands,
    };
    journal.write(*made, operation)?;
    *made += 1;
    Ok(())
}
