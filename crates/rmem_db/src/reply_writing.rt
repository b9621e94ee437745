ghost use Rattle.std.specs.Prelude.{◌≤◌, OnOk, OnErr, IsErrOf, [], flat_map};
ghost use Rattle.std.specs.Io.KnownBytes.{Appends};
ghost use Rattle.rm_env.specs.Faults.{Rose};
ghost use Rattle.reply_text.specs.Texts as texts;
ghost use Rattle.rmem_db.specs.Writing.{AppendsFront};

use crate::writing::write_piece;
use reply_text::{last_line, row_line, rows_of};
use rm_env::{Sink, SinkNo};
use sql_database::SqlReply;
use sql_values::Row;
use std::alloc::Global;

/// Writes each row's line.
fn write_rows<K: Sink>(alloc: Global, rows: &[Row], sink: &mut K) -> Result<(), SinkNo>
    ensures ok { OnOk result (Appends (K.taken sink.old) (K.taken sink.new) (flat_map (texts.row_line []) rows.now)) }
    ensures err { OnErr result (AppendsFront (K.taken sink.old) (K.taken sink.new) (flat_map (texts.row_line []) rows.now)) }
    ensures count { K.faults sink.old ≤ K.faults sink.new }
    ensures failed { IsErrOf result SinkNo.Failed → Rose (K.faults sink.old) (K.faults sink.new) }
{
    for row in rows {
        let text = row_line(alloc, b"", row)?;
        write_piece(sink, text.as_slice())?;
    }
    Ok(())
}

/// Writes the reply, each line of it as one piece. `Failed` says that the sink met a fault.
pub(crate) fn write_reply<K: Sink>(
    alloc: Global,
    reply: &SqlReply,
    sink: &mut K,
) -> Result<(), SinkNo>
    ensures ok { OnOk result (Appends (K.taken sink.old) (K.taken sink.new) (texts.reply_text [] reply.now)) }
    ensures err { OnErr result (AppendsFront (K.taken sink.old) (K.taken sink.new) (texts.reply_text [] reply.now)) }
    ensures count { K.faults sink.old ≤ K.faults sink.new }
    ensures failed { IsErrOf result SinkNo.Failed → Rose (K.faults sink.old) (K.faults sink.new) }
{
    write_rows(alloc, rows_of(reply), sink)?;
    let text = last_line(alloc, b"", reply)?;
    write_piece(sink, text.as_slice())
}
