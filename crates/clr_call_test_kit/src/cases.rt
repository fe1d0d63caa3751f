//! Cases as texts. Each ends with a line `====`, and its parts with lines `----`, but the last. The first part is its setting;
//! where that is empty, it is that of the case before.

/// More cases than a text has.
const MOST: usize = 100;

/// Returns the setting of the first case, its other parts, and the cases behind it.
fn first_case(cases: &str) -> Option<(&str, &str, &str)> {
    let (case, others) = cases.split_once("====\n")?;
    let (setting, rest) = case.split_once("----\n")?;
    Some((setting, rest, others))
}

/// Returns the position of the first case that isn't so, where this tells it by a setting and the parts behind it; none where each is so.
pub fn first_wrong<F: FnMut(&str, &str) -> bool>(cases: &str, mut is_so: F) -> Option<usize>
    requires callable { F.IsAlwaysCallable is_so }
{
    let mut left = cases;
    let mut before = "";
    for at in 0..MOST {
        if left.is_empty() {
            return None;
        }
        let Some((own, rest, others)) = first_case(left) else {
            return Some(at);
        };
        let setting = if own.is_empty() { before } else { own };
        if !is_so(setting, rest) {
            return Some(at);
        }
        before = setting;
        left = others;
    }
    Some(MOST)
}
