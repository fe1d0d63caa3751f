//! Columns and a filter, each as a slice and as a list; and the distances of the rules of books, by
//! number and in the list, 0 for a rule of another kind.

pub(crate) const LISTS: &str = "columns 3+K => [At(3), Key] [At(3), Key]
filter 1:5=-2 => [(5, Int(-2))] [(5, Int(-2))]
distances unique 1 0; near 0 2 7; near 0 2 8 => 0,0 7,7 8,8
distances 0*unique 1 0 => none";
