//! Masks of 64 wires.
ghost use Rattle.std.specs.Prelude.{◌≡◌, ◌<◌};
ghost use Rattle.chip.specs.Chip.{in_mask, HighestFree};
ghost use Rattle.machines.specs.Machine.{counted, wire_count, with_wire};
ghost use Rattle.machines.specs.Operation.{number};

use terms::Wire;

/// A mask of wires: bit n, worth 2^n, is wire n.
#[derive(Clone, Copy)]
pub(crate) struct Mask(pub(crate) u64);

impl Mask {
    /// Whether the mask has the wire.
    pub(crate) fn has(self, wire: Wire) -> bool
        ensures { result ≡ in_mask self.0 (number wire) }
    {
        let at = wire.number();
        at < 64 && (self.0 >> at) & 1 == 1
    }

    /// How many wires the mask has.
    pub(crate) fn count(self) -> usize
        ensures { result ≡ counted (in_mask self.0) wire_count }
    {
        self.0.count_ones() as usize
    }

    /// The wire with the largest number that is not in the mask.
    pub(crate) fn highest_free(self) -> Wire
        requires { counted (in_mask self.0) wire_count < 64 }
        ensures { HighestFree (in_mask self.0) (number result) }
    {
        let zeros = (!self.0).leading_zeros();
        Wire::new((63 - zeros) as u16).unwrap()
    }

    /// The mask with the wire besides.
    pub(crate) fn with(self, wire: Wire) -> Mask
        requires { number wire < 64 }
        ensures { in_mask result.0 ≡ with_wire (number wire) (in_mask self.0) }
    {
        Mask(self.0 | 1 << wire.number())
    }
}
