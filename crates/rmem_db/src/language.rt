ghost use Rattle.rmem_db.specs.Session.{MakesProperTables};

use sql_front::created_tables;
use table_machine::Language;

/// SQL: a text is read as the statement that the grammar says, or is first wrong at an offset, and a statement
/// is answered over whole tables.
pub(crate) struct Sql;

impl Language for Sql {
    ghost use Rattle.sql_exec.proofs.AnswerLaws.{rules};
    ghost use Rattle.rmem_db.specs.Readings.{one_reading};
    ghost use Rattle.rmem_db.specs.Session.{sql};

    ghost language = { sql };

    ghost answer_rules = { rules };

    ghost one_reading = { one_reading };
}

/// No text makes a table under the word that stands for the catalog. It does nothing when it is run.
pub fn sql_laws()
    ensures { MakesProperTables }
{
    created_tables();
}
