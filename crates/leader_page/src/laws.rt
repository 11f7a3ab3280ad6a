// What holds of leader pages: each law is what a function of its name ensures. The functions do nothing.
ghost use Rattle.leader_page.specs.Laws.{ReadsBack, WritesBack, LengthValue, ValueSaysItsLeader, TitleChangesTheName, StampChangesTheWrittenDate};

/// What `encode` gives of a leader, `decode` answers as that leader.
pub fn reads_back()
    ensures { ReadsBack }
{}

/// What `decode` answers of a value, `encode` gives as that value, where the bytes after the name are 0.
pub fn writes_back()
    ensures { WritesBack }
{}

/// The value of a leader has 256 words.
pub fn length_value()
    ensures { LengthValue }
{}

/// The value of a leader says this leader, for every full name, and these hints.
pub fn value_says_its_leader()
    ensures { ValueSaysItsLeader }
{}

/// Where words 6 to 25 of a value are those of another name, the name is that one, also where none could be read before, and all
/// else stays.
pub fn title_changes_the_name()
    ensures { TitleChangesTheName }
{}

/// Where words 2 and 3 are those of another moment, and 253 to 255 those of another last page, the written date is that moment,
/// the hints at the last page are those, and all else stays.
pub fn stamp_changes_the_written_date()
    ensures { StampChangesTheWrittenDate }
{}
