ghost use Rattle.pmtiles_dirs.specs.Again.{ArchivesAreReadBack, DirectoriesAreReadAgain, HeadersAreReadAgain};

/// A directory that is written is read again as the same entries.
pub fn directories_are_read_again()
    ensures { DirectoriesAreReadAgain }
{}

/// A header that is written is read again as the same numbers.
pub fn headers_are_read_again()
    ensures { HeadersAreReadAgain }
{}

/// Tiles by ascending ids, of 1 to 2^32 - 1 bytes each, are read back from their archive, where it has fewer than 2^35
/// entries and 2^64 bytes.
pub fn archives_are_read_back()
    ensures { ArchivesAreReadBack }
{}
