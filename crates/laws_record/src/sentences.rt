//! The sentences of whole packs, and where each file lies.

ghost use Rattle.laws_record.specs.WholeLaws.{BySentences, SentencesHold};

/// A pack that is whole by the sentences is whole.
pub fn by_sentences()
    ensures { BySentences }
{}

/// A whole pack is whole by the sentences.
pub fn sentences_hold()
    ensures { SentencesHold }
{}
