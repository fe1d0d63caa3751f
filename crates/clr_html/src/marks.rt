//! The longer marks of sections and tables: fixed texts.

ghost use Rattle.std.specs.Prelude.{◌≡◌, codes};

pub(crate) const SECTION: &str = "<section>\n";

pub(crate) const END_OF_SECTION: &str = "</section>\n";

pub(crate) const HEADS: &str = "<table>\n<thead>\n<tr>";

pub(crate) const END_OF_HEADS: &str = "</tr>\n</thead>\n<tbody>\n";

pub(crate) const END_OF_TABLE: &str = "</tbody>\n</table>\n";

/// The marks of sections and tables are these.
pub fn marks_of_pages()
    ensures section { SECTION.now ≡ codes "<section>\n" }
    ensures end_of_section { END_OF_SECTION.now ≡ codes "</section>\n" }
    ensures heads { HEADS.now ≡ codes "<table>\n<thead>\n<tr>" }
    ensures end_of_heads { END_OF_HEADS.now ≡ codes "</tr>\n</thead>\n<tbody>\n" }
    ensures end_of_table { END_OF_TABLE.now ≡ codes "</tbody>\n</table>\n" }
{}
