ghost use Rattle.pbf_blobs.specs.Worked.{Worked, FramesAreLimited};

/// The worked cases that the definitions were checked on: runs of frames with their blocks or their first fault, and bodies
/// with their raw block or the first reason.
pub fn worked_cases()
    ensures { Worked }
{}

/// The limits that are too large for a worked case: more than 2^40 bytes are `FileLong` at block 0, and so is a byte where
/// frame 2^24 would begin, at that number; a raw block of 32 MiB is `Over32M`; and where no fault is named, the blocks follow
/// on each other from the first byte to the last.
pub fn frames_are_limited()
    ensures { FramesAreLimited }
{}
