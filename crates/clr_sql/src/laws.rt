//! The law of texts in quotes, proved by a function that does nothing.

ghost use Rattle.clr_sql.specs.Laws.{QuotingLaw};

/// SQL reads a text in quotes as that text, whatever it holds, and goes on right behind it.
pub fn quoted_texts_are_read_back()
    ensures { QuotingLaw }
{}
