//! Pairs of texts, values, rows and places, each the same as its copy, and as another or not; and lists.

/// Pairs.
pub(crate) const PAIRS: &str = "words é | é => true true é 2
words é | É => true false é 2
value -7 | -7 => true true
value -7 | 7 => true false
value -7 | '-7 => true false
values 'tee+3 | 'tee+3 => true true true 2 2
values 'tee+3 | 'tee+4 => true false false 2 2
values 'tee+3 | 'tee => true false false 2 2
rows 'tee at 5,-5 | 'tee at 5,-5 => true true true
rows 'tee at 5,-5 | 'tap at 5,-5 => true true false
rows 'tee at 5,-5 | 'tee none => true true false
places 1,2 | 1,2 => true
places 1,2 | 1,3 => false
places 1,2 | 2,2 => false";

/// Lists.
pub(crate) const LISTS: &str =
    r#"vertices 1,2 3,4 => true 2 [Place { x: 1, y: 2 }, Place { x: 3, y: 4 }]
columns code:text,n:number => [(Words { text: "code" }, Words), (Words { text: "n" }, Int)] 2"#;
