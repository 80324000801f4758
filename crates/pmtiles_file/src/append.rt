ghost use Rattle.pmtiles_file.specs.Finished.{PutAnswers};

use crate::finish_err::FinishErr;
use tb_outside::Sink;

/// Appends a piece to a sink.
pub fn append<K: Sink>(sink: &mut K, piece: &[u8]) -> Result<(), FinishErr>
    ensures { PutAnswers (K.seen sink.old) (K.seen sink.new) piece.now result }
{
    match sink.append(piece) {
        Ok(()) => Ok(()),
        Err(_) => Err(FinishErr::Sink),
    }
}
