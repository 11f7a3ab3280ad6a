//! The links of pages by the places of their file's pages.

ghost use Rattle.laws_operation.specs.PageLinkLaws.{NextLinkNamesThePageAfter};

/// On a whole pack with true links the next link of a page names the place of the page after it, or is no link where that has none.
pub fn next_link_names_the_page_after()
    ensures { NextLinkNamesThePageAfter }
{}
