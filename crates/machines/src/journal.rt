//! What a machine keeps of its operations.
ghost use Rattle.std.specs.Prelude.{◌≡◌, ℕ, ◌+◌, ◌<◌, ◌↔◌, min, length, Some, None, Option, List, [], ◌∷◌, ◌++◌, IsOk, OnOk, OnErr};
ghost use Rattle.std.specs.Option.{option_map};
ghost use Rattle.machines.specs.Machine.{operation_limit};
ghost use Rattle.machines.specs.Operation.{Operation as Made, told};

use crate::machine::MOST_OPERATIONS;
use crate::operation::{Full, Operation};

/// What is kept of the operations that a machine makes.
pub trait Journal {
    /// The most operations.
    ghost most: { Self → ℕ };

    /// The last of so many operations.
    ghost last: { Self → ℕ → Option Made };

    /// What is known besides of operations that are written: `writes x n os y` tells of x after n operations, of the
    /// operations os that are then written, and of y, which it then is.
    ghost writes: { Self → ℕ → List Made → Self → Type 0 };

    /// The most operations that it takes.
    fn most(&self) -> usize
        ensures { result ≡ most self.now };

    /// Writes an operation after `made` others.
    fn write(&mut self, made: usize, operation: Operation) -> Result<(), Full>
        ensures room { IsOk result ↔ made < most self.old }
        ensures most { most self.new ≡ most self.old }
        ensures last { OnOk result (last self.new (made + 1) ≡ Some (told operation)) }
        ensures writes { OnOk result (writes self.old made (told operation ∷ []) self.new) }
        ensures full { OnErr result (self.new ≡ self.old) };

    /// Before the first operation there is no last one.
    ghost fresh: { (x : Self) → last x 0 ≡ None };

    /// No operation can be written.
    ghost stays: { (x : Self) (n : ℕ) → writes x n [] x };

    /// Operations can be written after others.
    ghost goes: { (x y z : Self) (n m : ℕ) (os ps : List Made) → m ≡ n + length os → writes x n os y → writes y m ps z → writes x n (os ++ ps) z };
}

/// Of the operations only the last one is kept.
#[derive(Drop)]
pub struct Last {
    most: usize,
    operation: Option<Operation>,
}

impl Last {
    /// There was no operation. There can be `most`, of which more than 2,000,000 count as 2,000,000.
    pub fn new(most: u32) -> Last
        ensures { result ≡ record { most = min most operation_limit; operation = None } }
    {
        Last {
            most: most.min(MOST_OPERATIONS) as usize,
            operation: None,
        }
    }

    /// The last operation, if there was one.
    pub fn operation(&self) -> Option<&Operation>
        ensures { option_map (λ x. x.now) result ≡ self.now.operation }
    {
        self.operation.as_ref()
    }
}

impl Journal for Last {
    ghost use Rattle.machines.specs.Kept.{kept};

    ghost most = { λ x. x.most };

    ghost last = { λ x n. option_map told (kept n x.operation) };

    ghost writes = { λ x _ _ y. y.most ≡ x.most };

    ghost use Rattle.machines.specs.Laws.{last_fresh, last_stays, last_goes};

    ghost fresh = { last_fresh };

    ghost stays = { last_stays };

    ghost goes = { last_goes };

    fn most(&self) -> usize {
        self.most
    }

    fn write(&mut self, made: usize, operation: Operation) -> Result<(), Full> {
        if made >= self.most {
            return Err(Full);
        }
        self.operation = Some(operation);
        Ok(())
    }
}

/// A list that was lent: each operation is written into it, from its front on. There can be as many operations as it has
/// records, of which more than 2,000,000 count as 2,000,000.
// No struct of the list and its count: tried, and the proof did not close, since the end of a loan is tied to a `&mut` that is
// a field of the machine itself, not of a struct in it.
impl<'a> Journal for &'a mut [Operation] {
    ghost use Rattle.machines.specs.Listing.{list_most, list_last, Writes};
    ghost use Rattle.machines.specs.Laws.{writes_fresh, writes_stay, writes_go};

    ghost most = { list_most };

    ghost last = { list_last };

    ghost writes = { Writes };

    ghost fresh = { writes_fresh };

    ghost stays = { writes_stay };

    ghost goes = { writes_go };

    fn most(&self) -> usize {
        self.len().min(MOST_OPERATIONS as usize)
    }

    #[tactic(auto, using(crate::proofs::Writing::adds, crate::proofs::Writing::leaves, crate::proofs::Writing::last))]
    fn write(&mut self, made: usize, operation: Operation) -> Result<(), Full> {
        if made >= self.most() {
            return Err(Full);
        }
        self[made] = operation;
        Ok(())
    }
}
