ghost use Rattle.std.specs.Prelude.{◌≡◌, ◌≤◌, OnOk, OnErr, IsErrOf};
ghost use Rattle.std.specs.Io.KnownBytes.{Appends};
ghost use Rattle.rm_env.specs.Faults.{Rose};
ghost use Rattle.rmem_db.specs.Writing.{AppendsFront};

use rm_env::{Sink, SinkNo};

/// Writes the piece until it is taken whole. `Failed` says that the sink met a fault.
pub(crate) fn write_piece<K: Sink>(sink: &mut K, piece: &[u8]) -> Result<(), SinkNo>
    ensures ok { OnOk result (Appends (K.taken sink.old) (K.taken sink.new) piece.now) }
    ensures err { OnErr result (AppendsFront (K.taken sink.old) (K.taken sink.new) piece.now) }
    ensures count { K.faults sink.old ≤ K.faults sink.new }
    ensures failed { IsErrOf result SinkNo.Failed → Rose (K.faults sink.old) (K.faults sink.new) }
{
    let mut at = 0;
    while at < piece.len() {
        match sink.write(&piece[at..]) {
            Ok(0) => return Err(SinkNo::Failed),
            Ok(n) => at += n,
            Err(no) => return Err(no),
        }
    }
    Ok(())
}
