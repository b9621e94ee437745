//! A SELECT that is being read.
ghost use Rattle.statement_reader.specs.Kept.{asking_of};
ghost use Rattle.ro_worker.specs.Selects.{TellsSelects};

use crate::latching::{ReaderWish, free_after, wish_for};
use page_image::Page;
use rm_base::{PageId, WantOfMemory};
use statement_reader::{AskingReader, Read};
use std::alloc::Global;

/// What it reads, the page that is held, and one that is to be released first.
#[derive(Drop)]
pub(crate) struct Serving {
    asking: AskingReader,
    held: Option<PageId>,
    free: Option<PageId>,
    ghost selects: { TellsSelects (asking_of asking) },
}

impl Serving {
    ghost use Rattle.std.specs.Prelude.{◌≡◌, None, Some, true, IfOk, IfSome, option_map};
    ghost use Rattle.sql_database.specs.Statements.{is_select};
    ghost use Rattle.question_tree.specs.Questions.{after, wanted};
    ghost use Rattle.statement_work.specs.Works.{AskedFor, Handed, Made};
    ghost use Rattle.ro_worker.specs.Serving.{latched};
    ghost use Rattle.ro_worker.specs.Wishes.{wish_of};
    ghost use Rattle.ro_worker.specs.States.{TellsRead, serving_of};

    #[tactic(auto, using(crate::proofs::ServingLaws::begins))]
    pub(crate) fn new(asking: AskingReader) -> Serving
        requires { TellsSelects (asking_of asking) }
        ensures { serving_of result ≡ latched None (asking_of asking) }
    {
        Serving {
            asking,
            held: None,
            free: None,
        }
    }

    #[tactic(auto, using(crate::proofs::ServingLaws::wants))]
    pub(crate) fn wish(&self) -> Option<ReaderWish>
        ensures { option_map wish_of result ≡ wanted (serving_of self.now) }
    {
        wish_for(self.free, self.held, self.asking.next())
    }

    #[tactic(auto, using(crate::proofs::ServingLaws::asked, crate::proofs::ServingLaws::takes, crate::proofs::ServingLaws::not_none, crate::proofs::SelectLaws::still_selects))]
    pub(crate) fn page(self, alloc: Global, page: &Page) -> Result<Serving, WantOfMemory>
        requires { AskedFor (serving_of self) (Handed page.now) }
        ensures { IfOk result (λ s. serving_of s ≡ after (serving_of self) (Handed page.now)) }
    {
        let Serving { asking, held, .. } = self;
        let mut asking = asking;
        match asking.next() {
            None => unreachable!(),
            Some(fetch) => {
                asking.give(alloc, page)?;
                Ok(Serving {
                    asking,
                    held: Some(fetch.page()),
                    free: free_after(&fetch, held),
                })
            }
        }
    }

    #[tactic(auto, using(crate::proofs::ServingLaws::frees_first, crate::proofs::ServingLaws::frees_held))]
    pub(crate) fn ran(self) -> Serving
        requires { AskedFor (serving_of self) Made }
        ensures { serving_of result ≡ after (serving_of self) Made }
    {
        let Serving { asking, held, free } = self;
        match free {
            Some(_) => Serving {
                asking,
                held,
                free: None,
            },
            None => Serving {
                asking,
                held: None,
                free: None,
            },
        }
    }

    /// What was read, where nothing is wanted any more. None where no more can be known.
    #[tactic(auto, using(crate::proofs::ServingLaws::tells_read, crate::proofs::SelectLaws::told_selects))]
    pub(crate) fn into_read(self) -> Option<Read>
        requires { wanted (serving_of self) ≡ None }
        ensures read { IfSome result (TellsRead (serving_of self)) }
        ensures select { IfSome result (λ read. is_select read.statement ≡ true) }
    {
        let Serving { asking, .. } = self;
        asking.into_read()
    }
}
