//! Cases as texts: what is given, a line `--`, what is wanted, and a line `==`.

/// Returns the first of some cases, in two parts, and the others.
pub(crate) fn split_case(
    cases: &'static str,
) -> Option<(&'static str, &'static str, &'static str)> {
    let (case, others) = cases.split_once("\n==\n")?;
    let (first, second) = case.split_once("\n--\n")?;
    Some((first, second, others))
}
