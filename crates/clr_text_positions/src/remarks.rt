//! What is said of a fault beside its name.

/// What is said of a fault beside its name: the offset of the byte of the text at which it stands, what is said of that place
/// behind its line and its column, a sentence, and a hint where one helps.
#[derive(Debug, Drop)]
pub struct Remark {
    pub offset: usize,
    pub place: String,
    pub sentence: String,
    pub hint: Option<String>,
}
