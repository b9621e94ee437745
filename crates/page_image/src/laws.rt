ghost use Rattle.page_image.specs.Laws.{IsDetermined, IsSpelled, IsExact};

/// The laws of pages: a page is determined by what its bytes show, its header and its items or its
/// body; each header and list of items or body that keeps the rules is shown by a page; and the bytes
/// without a fault are the pages. It does nothing when it is run.
#[tactic(auto, using(crate::proofs::TheLaws::determined, crate::proofs::TheLaws::spelled, crate::proofs::TheLaws::exact))]
pub fn page_laws()
    ensures determined { IsDetermined }
    ensures spelled { IsSpelled }
    ensures exact { IsExact }
{}
