//! What each worker keeps.
ghost use Rattle.std.specs.Prelude.{◌≡◌, ◌⊎◌, ℕ, Bool, List, IfOk, OnOk, OnErr};
ghost use Rattle.question_tree.specs.Questions.{stops, Gives};
ghost use Rattle.statement_work.specs.declared.acts.Job.{Job};
ghost use Rattle.statement_work.specs.Terms.{Terms};
ghost use Rattle.statement_work.specs.Works.{Found, Input, Work, Fits};
ghost use Rattle.statement_work.specs.Acting.{Does, Goes, Suits, told};
ghost use Rattle.statement_work.specs.Latches.{KeepsLatches};
ghost use Rattle.statement_work.specs.Replies.{EndsInReply};

use crate::acts::{Act, Given};
use rm_base::WantOfMemory;
use std::alloc::Global;

/// Serves statements, and undoes what ended transactions changed, one at a time.
pub trait Worker {
    /// What its plans are for, and what it finds.
    ghost terms: { Terms };

    /// What is left of the present statement or undoing.
    ghost work: { Self → Work terms };

    /// What a statement asks for from its start.
    ghost serves: { Job → Work terms };

    /// What the undoing of a session's ended transaction asks for from its start.
    ghost undoes: { ℕ → Work terms };

    /// What a statement finds over what was given for it.
    ghost finds: { Job → List Input → terms.Finding → Type 0 };

    /// Whether it holds a latch on each page that it fetches.
    ghost latches: { Bool };

    /// Takes what is given, and says what is done next. Nothing is said of the work after a reply or a rest.
    fn next(&mut self, alloc: Global, given: Given<'_>) -> Result<Act, WantOfMemory>
        requires suits { Suits (work self.old) given }
        ensures act { IfOk result (Does terms (told terms serves undoes (work self.old) given.entry)) }
        ensures works { OnOk result (Goes (told terms serves undoes (work self.old) given.entry) (work self.new)) }
        ensures given_up { OnErr result ((work self.new ≡ work self.old) ⊎ (work self.new ≡ stops)) };

    // What a statement tells is found over what was given for it, in its order.
    ghost right: { (job : Job) (xs : List Input) (a : terms.Finding)
        → Gives Fits (serves job) xs (Found a) → finds job xs a };

    // It ends in a reply.
    ghost ends: { (job : Job) → EndsInReply (serves job) };

    // Its latches are taken and released by the protocol.
    ghost polite: { (job : Job) → KeepsLatches latches (serves job) };

    ghost polite_undoing: { (session : ℕ) → KeepsLatches latches (undoes session) };
}
