//! Replies.
ghost use Rattle.std.specs.Prelude.{◌≡◌, IfOk};
ghost use Rattle.sql_database.specs.Statements.{IsEvaluated};
ghost use Rattle.ro_worker.specs.Reads as spec;
ghost use Rattle.ro_worker.specs.Reads.{IsReplyTo};
ghost use Rattle.ro_worker.specs.Serving as serving;

use rm_base::WantOfMemory;
use sql_database::SqlReply;
use sql_exec::Outcome;
use statement_reader::Read;
use std::alloc::Global;

fn reply_for(outcome: Outcome) -> SqlReply
    ensures { result ≡ spec.reply_for outcome }
{
    match outcome {
        Outcome::Rows(rows) => SqlReply::Rows(rows),
        Outcome::Changes(_changes) => SqlReply::ReadOnly,
        Outcome::Duplicate(_repeated) => SqlReply::ReadOnly,
        Outcome::Refused(reply) => reply,
    }
}

/// What is replied to what a statement read.
#[tactic(auto, using(crate::proofs::ReplyLaws::replies))]
pub(crate) fn reply_to(alloc: Global, read: &Read) -> Result<SqlReply, WantOfMemory>
    requires { IsEvaluated read.now.statement }
    ensures { IfOk result (IsReplyTo read.now) }
{
    Ok(reply_for(read.outcome(alloc)?))
}

/// What is replied to COMMIT and ROLLBACK: no transaction of a reader has changed anything.
pub(crate) fn ended(lasting: bool) -> SqlReply
    ensures { result ≡ serving.ended lasting }
{
    if lasting {
        SqlReply::Ok(0)
    } else {
        SqlReply::NoTransaction
    }
}
