// What holds of lines and their texts: each law is what a function of its name ensures. The functions do nothing.
ghost use Rattle.exec_words.specs.Laws.{TypedReadsBack, ReadIsTyped};

/// Each line that can be typed is what its text is read as: no row of the grammar hides another.
pub fn typed_reads_back()
    ensures { TypedReadsBack }
{}

/// What a text is read as is a bad line, or a line that can be typed.
pub fn read_is_typed()
    ensures { ReadIsTyped }
{}
