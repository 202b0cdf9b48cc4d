//! Laws over the definitions. Each is the contract of a function that does nothing.

ghost use Rattle.stored_lines.specs.Laws.{BooksHaveForm, BooksComeBack, LinesAreLawful};

/// The books of lawful lines, none of them loose, have the form of books, over the numbers of the
/// lines.
pub fn books_have_form()
    ensures { BooksHaveForm }
{}

/// The lines of books of that form are lawful, whatever their anchors are.
pub fn lines_are_lawful()
    ensures { LinesAreLawful }
{}

/// The lines of books of that form are lawful, none is loose, and they say these books.
pub fn books_come_back()
    ensures { BooksComeBack }
{}
