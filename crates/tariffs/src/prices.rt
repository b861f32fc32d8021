//! Lists of prices.
ghost use Rattle.std.specs.Prelude.{◌≡◌};
ghost use Rattle.tariffs.specs.Prices.{listed};

use terms::StepKind;

/// The prices of the classical steps, of a grant, and of gates by their width.
#[derive(Clone, Copy)]
pub struct PriceList<T> {
    pub classical: T,
    pub grant: T,
    pub gates: [T; 3],
}

impl<T: Copy> PriceList<T> {
    /// The price of a step of a kind.
    pub fn of(&self, kind: StepKind) -> T
        ensures { result ≡ listed self.now kind }
    {
        match kind {
            StepKind::Single | StepKind::Tuple | StepKind::Bang => self.classical,
            StepKind::Grant(_) => self.grant,
            StepKind::Gate(gate) => match gate.width() {
                1 => self.gates[0],
                2 => self.gates[1],
                _ => self.gates[2],
            },
        }
    }
}
