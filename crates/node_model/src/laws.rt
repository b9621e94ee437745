ghost use Rattle.std.specs.Prelude.{◌≡◌, ◌≢◌, ◌<◌, ℕ, Bool, true, false, Option, Some, None};
ghost use Rattle.page_image.specs.Image.{Image};
ghost use Rattle.node_model.specs.Slots.{Slots, address_number, written, died};
ghost use Rattle.node_model.specs.Step.{Step, Step.GivenUp, Step.ReleaseEnd, Step.PlanWrite, Step.Held, is_changed, may_give_up};
ghost use Rattle.node_model.specs.Call.{Call, Call.Quiet, is_told};
ghost use Rattle.node_model.specs.Node.{Node, blank, counts_fresh};
ghost use Rattle.node_model.specs.Learning.{
  begun,
  parted,
  gives_up,
  installs,
  after_s,
  after_look,
  after_read,
  after_release,
  writes,
  cleans,
  answered,
  made_stale,
};

/// The laws of the slots' memory. It does nothing when it is run.
#[tactic(auto, using(crate::proofs::Answers::one_address))]
pub fn slot_laws()
    // Two addresses of one number are one address.
    ensures apart { (a b i j s t : ℕ) → a < 32 → b < 32 → s < 65536 → t < 65536
        → address_number a i s ≡ address_number b j t → (a ≡ b) × (i ≡ j) × (s ≡ t) }

    // A read gives what was last written at this address, and a write changes no other address.
    ensures last { (S : Slots) (a : ℕ) (image : Image) → (written S a image).holds a ≡ image }
    ensures beside { (S : Slots) (a b : ℕ) (image : Image) → b ≢ a
        → (written S a image).holds b ≡ S.holds b }

    // An address that is lost stays lost.
    ensures lost { (S : Slots) (ds : ℕ → Bool) (a : ℕ) → S.dead a ≡ true
        → (died S ds).dead a ≡ true }
{}

/// The laws of a node's view of a page. It does nothing when it is run.
#[tactic(auto, using(crate::proofs::Answers::goes_on, crate::proofs::Answers::changed_stays))]
pub fn node_laws()
    // An answer that was accepted leaves no call; what was given up goes on with its releases.
    ensures quiet { (r n : ℕ) (N : Node) → (answered r n N).call ≡ Quiet }
    ensures given_up { (r n : ℕ) (N : Node) → N.step ≡ GivenUp
        → (answered r n N).step ≡ ReleaseEnd }

    // A page that was parted with leaves nothing; a page whose fetch begins is not leaving.
    ensures parted { (N : Node) → ((parted N).kept ≡ false) × ((parted N).address ≡ None)
        × ((parted N).stale ≡ true) }
    ensures wanted { (r n : ℕ) (N : Node) → (begun r n N).leaving ≡ false }
    ensures again { (r n : ℕ) (N : Node) → N.leaving ≡ true → (begun r n N).stale ≡ true }

    // Only a plan that installed nothing is given up.
    ensures installed { (step : Step) → is_changed step ≡ true → may_give_up step ≡ false }

    // What was read is the copy, and a node that is down counts as one with a fresh copy.
    ensures read { (N : Node) (image : Image) → ((after_read N image).copy ≡ Some image)
        × ((after_read N image).step ≡ Held) }
    ensures down { (call : Call) → counts_fresh (blank false call) ≡ true }
    ensures stale { (N : Node) → N.up ≡ true → counts_fresh (made_stale N) ≡ false }
{}
