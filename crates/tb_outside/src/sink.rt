ghost use Rattle.tb_outside.specs.Sink.{SinkSeen, SinkAnswers};

use crate::failed::Failed;

/// Where bytes are appended.
pub trait Sink {
    // The bytes so far, where the sink tells them, and the count of faults.
    ghost seen: { Self → SinkSeen };

    /// Appends the whole piece, or a prefix of it where it fails.
    fn append(&mut self, piece: &[u8]) -> Result<(), Failed>
        ensures { SinkAnswers (seen self.old) (seen self.new) piece.now result };
}
