//! Cases in a text. A case is a heading and five parts, each behind a line that begins with `==`:
//!
//! ```text
//! == case NAME
//! == office FILE           (or, on the lines below, the office's text)
//! == script
//! commands that are all done
//! == ask WORDS
//! what is asked
//! == lines
//! what is answered
//! ```
//!
//! Where nothing is asked about an office, the parts with it and with the script are left out. What stands before the first case
//! says what the cases of the text are about.

/// A case: in the office of a text, if there is one, behind a script that is done, what is asked is answered by these lines.
#[derive(Drop)]
pub struct Case<'a> {
    pub name: &'a str,
    pub office: OfficeText<'a>,
    pub script: &'a str,
    pub ask: Ask<'a>,
    pub lines: &'a str,
}

/// Where the text of an office stands, if there is one.
#[derive(Drop)]
pub enum OfficeText<'a> {
    None,
    File(&'a str),
    Whole(&'a str),
}

/// What is asked: words, and a text that they are about.
#[derive(Drop)]
pub struct Ask<'a> {
    pub words: &'a str,
    pub text: &'a str,
}

fn office_text(part: &str) -> OfficeText<'_> {
    match part.strip_prefix(" ") {
        Some(file) => OfficeText::File(file),
        None => OfficeText::Whole(part),
    }
}

/// Returns the first line, and the lines behind it.
fn first_line(text: &str) -> (&str, &str) {
    text.split_once("\n").unwrap_or((text, ""))
}

/// Returns the text of an office, and a script, which stand before what is asked.
fn setting_of(text: &str) -> Option<(OfficeText<'_>, &str)> {
    if text.is_empty() {
        return Some((OfficeText::None, ""));
    }
    let (office, script) = text.strip_prefix("== office")?.split_once("\n== script\n")?;
    Some((office_text(office), script))
}

/// Returns the case that stands behind its `== case `; none where a part is missing.
pub fn case_of(text: &str) -> Option<Case<'_>> {
    let (before, rest) = text.split_once("== ask ")?;
    let (ask, rest) = rest.split_once("== lines\n")?;
    let (name, setting) = first_line(before);
    let (office, script) = setting_of(setting)?;
    let (words, text) = first_line(ask);
    Some(Case {
        name,
        office,
        script,
        ask: Ask { words, text },
        lines: rest.strip_suffix("\n").unwrap_or(rest),
    })
}
