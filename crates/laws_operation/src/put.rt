//! Putting bytes in the place of others, within one page.

ghost use Rattle.laws_operation.specs.ByteLaws.{PutCarriesOut};
ghost use Rattle.laws_operation.specs.FileWords.{PutPastWordsFit, PutWordsFit};
ghost use Rattle.laws_operation.specs.LinkLaws.{PutKeepsLinks};
ghost use Rattle.laws_operation.specs.WordLaws.{BytesInAValue};

/// On a whole pack, if the caller knows `CanPut`, the value of a put is as `MayPut` asks, which `put_carries_out` needs.
pub fn put_words_fit()
    ensures { PutWordsFit }
{}

/// On a whole pack, if the caller knows `CanPut` and that words past the file's end are there (`ArePastTheEnd`), the value of a put with
/// which the file ends is as `MayPut` asks, also with these words.
pub fn put_past_words_fit()
    ensures { PutPastWordsFit }
{}

/// On a whole and tidy pack, if `MayPut` holds, the value of a page with bytes in the place of others carries out the put of these bytes.
pub fn put_carries_out()
    ensures { PutCarriesOut }
{}

/// Bytes in the place of others in a value are so among the bytes that its label counts.
pub fn bytes_in_a_value()
    ensures { BytesInAValue }
{}

/// A put on a whole and tidy pack leaves all links true if they were true.
pub fn put_keeps_links()
    ensures { PutKeepsLinks }
{}
