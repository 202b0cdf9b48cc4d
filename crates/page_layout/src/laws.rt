//! Laws over the definitions. Each is the contract of a function that does nothing.
ghost use Rattle.page_layout.specs.Laws.{HeadsHaveOneSpelling, RowsHaveOneSpelling};
ghost use Rattle.page_layout.specs.Laws.{BodiesHaveOneSpelling, WrittenArePages};
ghost use Rattle.page_layout.specs.Laws.{LeavesHaveOneSpelling, LeavesArePages};
ghost use Rattle.page_layout.specs.Laws.{InnerHaveOneSpelling, InnerArePages};

/// A page is read as what a head page says exactly where it is the written form of that.
pub fn heads_have_one_spelling()
    ensures { HeadsHaveOneSpelling }
{}

/// A page is read as the slots of records exactly where it is the written form of those.
pub fn rows_have_one_spelling()
    ensures { RowsHaveOneSpelling }
{}

/// A page is read as a body exactly where it is the written form of that.
pub fn bodies_have_one_spelling()
    ensures { BodiesHaveOneSpelling }
{}

/// What is written is a page: 16,384 bytes.
pub fn written_are_pages()
    ensures { WrittenArePages }
{}

/// A page is read as leaves exactly where it is the written form of those.
pub fn leaves_have_one_spelling()
    ensures { LeavesHaveOneSpelling }
{}

/// The written form of leaves is a page.
pub fn leaves_are_pages()
    ensures { LeavesArePages }
{}

/// A page is read as the entries of an inner node exactly where it is the written form of those.
pub fn inner_have_one_spelling()
    ensures { InnerHaveOneSpelling }
{}

/// The written form of an inner node is a page.
pub fn inner_are_pages()
    ensures { InnerArePages }
{}
