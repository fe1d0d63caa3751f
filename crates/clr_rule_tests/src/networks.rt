//! The tables over which rules are asked, as texts.

/// Nodes with a kind, mains with a code, hydrants with the number of their main, notes with a text
/// and a number, and pipes, which are paths, with a code.
pub(crate) const NETWORK: &str =
    "node/point/kind:text;main/segment/code:text;hydrant/point/main:number;\
note/none/text:text,number:number;pipe/path/code:text";

/// Points with a text and a number, segments alike, points with a number, and paths with a text and
/// a number.
pub(crate) const TEXTS_AND_NUMBERS: &str =
    "node/point/kind:text,num:number;main/segment/code:text,ref:number;\
hydrant/point/ref:number;pipe/path/code:text,ref:number";
