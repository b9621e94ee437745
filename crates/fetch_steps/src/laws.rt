ghost use Rattle.std.specs.Prelude.{◌≡◌, ◌↔◌, ◌≤◌, ℕ, true, false, Option, Some, None, Ok, Err, List, ◌∷◌, length};
ghost use Rattle.rm_base.specs.declared.places.Addr.{Addr};
ghost use Rattle.page_image.specs.Image.{Image};
ghost use Rattle.slab_node.specs.declared.slab.SlabNo.{SlabNo};
ghost use Rattle.page_latches.specs.declared.latch.Latch.TheVariants.{Granted};
ghost use Rattle.page_latches.specs.declared.latch.Mode.TheVariants.{S, X};
ghost use Rattle.node_model.specs.Step.{
  Step,
  Step.Register,
  Step.LatchS,
  Step.Look,
  Step.Read,
  Step.LookAgain,
  Step.Write,
  Step.Clean,
  Step.Held,
  Step.ReleaseDown,
  Step.RwLook,
  Step.RwRead,
  wants_s,
  wants_x,
  wants_release,
  wants_register,
};
ghost use Rattle.node_model.specs.Call.{Call, Call.ToldRegistered};
ghost use Rattle.node_model.specs.Node.{Node};
ghost use Rattle.node_model.specs.Learning.{
  have,
  after_s,
  after_x,
  after_release,
  after_look,
  after_rw_look,
  after_look_again,
  after_read,
  after_rw_read,
  after_write,
  after_clean,
  after_down,
  after_rw_down,
  answer_step,
};
ghost use Rattle.fetch_steps.specs.declared.acts.Action.{Action};
ghost use Rattle.fetch_steps.specs.declared.acts.Action.TheVariants.{
  Register as AskRegister,
  Latch as Try,
  Release,
};
ghost use Rattle.message_network.specs.declared.looks.Seen.{Seen};
ghost use Rattle.fetch_steps.specs.declared.acts.Told.{Told};
ghost use Rattle.fetch_steps.specs.declared.acts.Told.TheVariants.{
  Latch as Tried,
  Seen as Looked,
  Slab,
  Cleaned,
};
ghost use Rattle.fetch_steps.specs.Fetch.{Fetch, IsPlaced};
ghost use Rattle.fetch_steps.specs.Acts.{act_of};
ghost use Rattle.fetch_steps.specs.Telling.{learned, learned_address, with_copy};
ghost use Rattle.fetch_steps.specs.Work.{acts_left};
ghost use Rattle.fetch_steps.specs.Ways.{IsWay, reading_way, loading_way, rw_loading_way};
ghost use Rattle.fetch_steps.specs.Places.{begun};

/// The act of a step says what the law's step wants, both ways. It does nothing when it is run.
#[tactic(auto, using(crate::proofs::Moves::shares, crate::proofs::Moves::excludes, crate::proofs::Moves::releases, crate::proofs::Moves::registers))]
pub fn act_laws()
    ensures shares { (p : ℕ) (a : Option Addr) (step : Step)
        → (act_of p a step ≡ Try p S) ↔ (wants_s step ≡ true) }
    ensures excludes { (p : ℕ) (a : Option Addr) (step : Step)
        → (act_of p a step ≡ Try p X) ↔ (wants_x step ≡ true) }
    ensures releases { (p : ℕ) (a : Option Addr) (step : Step)
        → (act_of p a step ≡ Release p) ↔ (wants_release step ≡ true) }
    ensures registers { (p : ℕ) (a : Option Addr) (step : Step)
        → (act_of p a step ≡ AskRegister p) ↔ (wants_register step ≡ true) }
{}

/// What a fetch learns of an access is what the law's node learns. It does nothing when it is run.
#[tactic(auto, using(crate::proofs::Moves::see_s, crate::proofs::Moves::see_copy, crate::proofs::Moves::see_x, crate::proofs::Moves::see_release, crate::proofs::Moves::see_look, crate::proofs::Moves::see_rw_look, crate::proofs::Moves::see_look_again, crate::proofs::Moves::see_no_address, crate::proofs::Moves::see_read, crate::proofs::Moves::see_rw_read, crate::proofs::Moves::see_write, crate::proofs::Moves::see_clean, crate::proofs::Moves::read_down, crate::proofs::Moves::rw_read_down, crate::proofs::Moves::write_down, crate::proofs::Moves::clean_down, crate::proofs::Moves::clean_gone, crate::proofs::Moves::registered_copy))]
pub fn access_laws()
    // S was granted, to a node without a copy that it may use, or with one.
    ensures share { (r n : ℕ) (N : Node) → wants_s N.step ≡ true → have N.copy N.stale ≡ Look
        → (after_s N).step ≡ learned r n (Tried Granted) N.step }
    ensures copy { (r n : ℕ) (N : Node) → N.step ≡ LatchS → have N.copy N.stale ≡ Held
        → (after_s N).step ≡ with_copy (learned r n (Tried Granted) N.step) }

    // X was granted, or a latch released.
    ensures exclude { (r n : ℕ) (N : Node) → wants_x N.step ≡ true
        → after_x N.step ≡ learned r n (Tried Granted) N.step }
    ensures release { (r n : ℕ) (N : Node) → wants_release N.step ≡ true
        → ((after_release N).step ≡ learned r n (Tried Granted) N.step)
        × ((after_release N).address ≡ learned_address (Tried Granted) N.step N.address) }

    // The entry was seen.
    ensures look { (r n : ℕ) (N : Node) (seen : Seen) → N.step ≡ Look
        → (after_look seen.bit N).step ≡ learned r n (Looked (Some seen)) N.step }
    ensures rw_look { (r n : ℕ) (N : Node) (seen : Seen) → N.step ≡ RwLook
        → after_rw_look seen.bit ≡ learned r n (Looked (Some seen)) N.step }
    ensures look_again { (r n : ℕ) (N : Node) (seen : Seen) (a : Addr) → N.step ≡ LookAgain
        → seen.addr ≡ Some a
        → after_look_again r n seen.bit seen.floor ≡ learned r n (Looked (Some seen)) N.step }
    ensures no_address { (r n : ℕ) (N : Node) (seen : Seen) → N.step ≡ LookAgain → seen.addr ≡ None
        → ReleaseDown ≡ learned r n (Looked (Some seen)) N.step }

    // The slot was read or written, and is clean.
    ensures read { (r n : ℕ) (N : Node) (image : Image) → N.step ≡ Read
        → (after_read N image).step ≡ learned r n (Slab (Ok tt)) N.step }
    ensures rw_read { (r n : ℕ) (N : Node) (image : Image) → N.step ≡ RwRead
        → (after_rw_read N image).step ≡ learned r n (Slab (Ok tt)) N.step }
    ensures write { (r n : ℕ) (N : Node) (image : Image) → N.step ≡ Write image
        → after_write N.step ≡ learned r n (Slab (Ok tt)) N.step }
    ensures clean { (r n : ℕ) (N : Node) (image : Image) → N.step ≡ Clean image
        → after_clean r n N.step ≡ learned r n (Cleaned true) N.step }

    // The slab is down, or has another incarnation.
    ensures read_down { (r n : ℕ) (N : Node) (why : SlabNo) → N.step ≡ Read
        → (after_down N).step ≡ learned r n (Slab (Err why)) N.step }
    ensures rw_read_down { (r n : ℕ) (N : Node) (why : SlabNo) → N.step ≡ RwRead
        → ((after_rw_down N).step ≡ learned r n (Slab (Err why)) N.step)
        × ((after_rw_down N).address ≡ learned_address (Slab (Err why)) N.step N.address) }
    ensures write_down { (r n : ℕ) (N : Node) (image : Image) (why : SlabNo) → N.step ≡ Write image
        → (after_down N).step ≡ learned r n (Slab (Err why)) N.step }
    ensures clean_down { (r n : ℕ) (N : Node) (image : Image) (why : SlabNo) → N.step ≡ Clean image
        → (after_down N).step ≡ learned r n (Slab (Err why)) N.step }
    ensures clean_gone { (r n : ℕ) (N : Node) (image : Image) → N.step ≡ Clean image
        → (after_down N).step ≡ learned r n (Cleaned false) N.step }

    // The RW has a copy of a page that is registered now.
    ensures registered { (r n a : ℕ) (image : Image)
        → answer_step r n (Some image) (ToldRegistered a) Register
        ≡ with_copy (answer_step r n None (ToldRegistered a) Register) }
{}

/// The acts that are left of a fetch are those of its longest way to the end on which nothing gets in
/// the way. It does nothing when it is run.
#[tactic(auto, using(crate::proofs::Longest::shorter, crate::proofs::Longest::has_longest, crate::proofs::Ways::reads, crate::proofs::Ways::loads, crate::proofs::Ways::rw_loads))]
pub fn work_laws()
    ensures bound { (way : List Told) (f : Fetch) (v : Image) → IsWay way f v
        → length way ≤ acts_left f }
    ensures reached { (f : Fetch) (v : Image) → IsPlaced f.place f.address
        → (way : List Told) × IsWay way f v × (length way ≡ acts_left f) }

    // Three ways, each act by computation: a page is read from the pool, it is loaded from storage, and
    // the RW loads it. Here v is the image that storage gives.
    ensures reads { (p : ℕ) (a : Addr) (v : Image) → IsWay (reading_way a) (begun p false None) v }
    ensures loads { (p : ℕ) (a : Addr) (v : Image)
        → IsWay (Tried Granted ∷ loading_way a v) (begun p false (Some a)) v }
    ensures rw_loads { (p : ℕ) (a : Addr) (v : Image)
        → IsWay (rw_loading_way a v) (begun p true (Some a)) v }
{}
