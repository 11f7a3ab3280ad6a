//! The links of a line as a whole, and of a line and the closing after it.

ghost use Rattle.laws_hint.specs.LineLinks.{LineClosesWithTrueHints, LineKeepsLinks, LinksJoin, OpenedLineKeepsLinks};

/// From a whole and tidy pack, a line leaves true links true where each of its operations does.
pub fn line_keeps_links()
    ensures { LineKeepsLinks }
{}

/// Two lists of record writes, the second on the pack that the first leaves, leave true links true together where each does.
pub fn links_join()
    ensures { LinksJoin }
{}

/// From a whole and tidy pack, the opening of the mark and then a line whose operations each leave true links true do so together.
pub fn opened_line_keeps_links()
    ensures { OpenedLineKeepsLinks }
{}

/// Closing with the true map, after the opening of the mark and a line whose operations each leave true links true, leaves all hints
/// true where the links were at the start.
pub fn line_closes_with_true_hints()
    ensures { LineClosesWithTrueHints }
{}
