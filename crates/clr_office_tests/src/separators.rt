//! Where the separator stands between an office text and a script.

use clr_office::{Disposal, Page, RunFault, Text, run_office};
use clr_office_reading::TextFault;
use clr_scripts::RecordFault;
use std::alloc::Global;
use std::test::Fail;

const OFFICE: &str = "{\"format\":1,\"tables\":[],\"live\":[]}";

/// Returns whether a run over these texts, one after the other, is answered so and prints this.
fn runs(
    alloc: Global,
    before: &str,
    after: &str,
    answer: Result<u8, RunFault>,
    lines: &str,
) -> Result<bool, Fail> {
    let input = format!(in alloc; "{before}{after}")?;
    let mut page = Page::new(alloc, 100)?;
    let status = run_office(
        alloc,
        Disposal::Drop,
        &mut Text::new(input.as_bytes()),
        &mut page,
    );
    Ok(status == answer && page.as_slice() == lines.as_bytes())
}

#[test]
fn separators(rt: HostRuntime) -> Result<(), Fail> {
    let cases = [
        ("\n---\ncreate,W1,LIVE", Ok(0), "done\n"),
        ("\n---\r\ncreate,W1,LIVE", Ok(0), "done\n"),
        ("\n---", Ok(0), ""),
        ("\n---\r", Ok(0), ""),
        (
            "\n---\ncreate,W1,LIVE\n---\n",
            Err(RunFault::BadScript(2, RecordFault::BadWord)),
            "",
        ),
        ("\n---\rX\n", Err(RunFault::NoSeparator), ""),
        ("\n--- \n", Err(RunFault::NoSeparator), ""),
        (
            "\n----\n ---\nb---\n--\n---\r\r\n",
            Err(RunFault::NoSeparator),
            "",
        ),
    ];
    for (after, answer, lines) in cases {
        let is_so = runs(rt.alloc(), OFFICE, after, answer, lines)?;
        assert!(rt; is_so, "after {after:?}");
    }
    Ok(())
}

#[test]
fn nothing_before_the_separator(rt: HostRuntime) -> Result<(), Fail> {
    let not_json = Err(RunFault::BadOffice(TextFault::NotJson));
    let is_so = runs(rt.alloc(), "", "---\r\nb", not_json, "")?;
    assert!(rt; is_so);
    let is_so = runs(rt.alloc(), "", "", Err(RunFault::NoSeparator), "")?;
    assert!(rt; is_so);
    Ok(())
}
