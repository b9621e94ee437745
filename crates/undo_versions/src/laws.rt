//! The walk and the chain of versions.
ghost use Rattle.undo_versions.specs.Chains.{GivesVersions, GivesChain, EndsWithChain, OneChain};

/// The laws of the walk, with `at_version`, `passed` and `given` that its calls are: it comes to the
/// versions of its item, each the one that its older pointer leads to; where the chain of these ends,
/// it comes to all of them and then to its end; and an item has one chain alone. It does nothing when
/// it is run.
#[tactic(auto, using(crate::proofs::ChainLaws::gives_versions, crate::proofs::ChainLaws::gives_chain, crate::proofs::ChainLaws::ends_with_chain, crate::proofs::ChainLaws::one_chain))]
pub fn chain_laws()
    ensures versions { GivesVersions }
    ensures chain { GivesChain }
    ensures ends { EndsWithChain }
    ensures one { OneChain }
{}
