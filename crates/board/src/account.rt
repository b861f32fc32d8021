//! What a sheet has in it.
ghost use Rattle.std.specs.Prelude.{◌≡◌, ◌<◌, length};
ghost use Rattle.board.specs.Account.{letters, place_of, counted};

use sheet::located::LocatedNode;
use terms::Kind;

/// The place of a kind's letter among the letters `v`, `w`, `c`, `g`, `n`, `b`, `a`, `t`, `l`.
fn place(kind: Kind) -> usize
    ensures in_range { result < length letters }
    ensures value { result ≡ place_of kind }
{
    match kind {
        Kind::Variable { .. } => 0,
        Kind::Wire(_) => 1,
        Kind::Constant(_) => 2,
        Kind::Gate(_) => 3,
        Kind::New => 4,
        Kind::Bang => 5,
        Kind::Application => 6,
        Kind::Tuple(_) => 7,
        Kind::Binder(_) => 8,
    }
}

/// Each kind's letter, with how many nodes of that kind there are.
// One walk counts all kinds: a walk for each letter takes nearly six times as long on 4,096 nodes.
pub fn count_kinds(table: &[LocatedNode]) -> [(char, usize); 9]
    ensures { result ≡ counted table.now }
{
    let mut counts = [
        ('v', 0),
        ('w', 0),
        ('c', 0),
        ('g', 0),
        ('n', 0),
        ('b', 0),
        ('a', 0),
        ('t', 0),
        ('l', 0),
    ];
    for located in table {
        counts[place(located.node.kind)].1 += 1;
    }
    counts
}
