ghost use Rattle.sql_database.specs.Laws.{AppliedRespects, CatalogSaysSchemas, SameContentIsSame};

/// The row that a CREATE writes into the catalog says the schema; databases with the same content are alike
/// as equals are, and changes make the same content of both. It does nothing when it is run.
#[tactic(auto, using(crate::proofs::CatalogLaws::says, crate::proofs::ContentLaws::alike, crate::proofs::ContentLaws::respects))]
pub fn database_laws()
    ensures catalog { CatalogSaysSchemas }
    ensures alike { SameContentIsSame }
    ensures applied { AppliedRespects }
{}
