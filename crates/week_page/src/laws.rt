ghost use Rattle.week_page.specs.Markup.{NamesHaveNoMarks, NamesAddNoMarks};

/// No name has a mark of a tag in the page, `<`, `>`, `"` or `'`; and the marks of a page, in their order, are those of
/// the page of the same timetable with empty names.
pub fn page_laws()
    ensures names { NamesHaveNoMarks }
    ensures pages { NamesAddNoMarks }
{}
