ghost use Rattle.std.specs.Prelude.{◌≡◌, map};
ghost use Rattle.std.specs.List.{concat};
ghost use Rattle.tb_outside.specs.Sink.{SinkAnswers};

use tb_outside::{Failed, Sink};

/// Appends pieces one behind another, as if they were one piece. It takes no memory.
pub fn append_all<K: Sink>(sink: &mut K, pieces: &[&[u8]]) -> Result<(), Failed>
    ensures { SinkAnswers (K.seen sink.old) (K.seen sink.new) (concat (map (λ p. p.now) pieces.now)) result }
{
    for piece in pieces {
        match sink.append(*piece) {
            Ok(()) => {}
            Err(e) => return Err(e),
        }
    }
    Ok(())
}
