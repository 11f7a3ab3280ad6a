// What a cache that was read from words of ones says.
ghost use Rattle.hint_cache.specs.Words.{OnesNameNoFile};

/// A cache that is read from 241 words of ones lists no page of a file that can live: it answers as a cache without entries.
pub fn ones_name_no_file()
    ensures { OnesNameNoFile }
{}
