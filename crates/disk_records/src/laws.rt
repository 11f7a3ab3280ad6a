// What holds of labels: the law is what the function of its name ensures. The function does nothing.
ghost use Rattle.disk_records.specs.Laws.{LabelReadsBack};

/// The label of a page names that page, where the label is in range: at most 512 bytes, and a full name that a file can have.
pub fn label_reads_back()
    ensures { LabelReadsBack }
{}
