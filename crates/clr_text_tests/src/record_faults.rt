//! Which record of a script or a certificate has the fault: its number, the fault, how it is read, and its fields.

use crate::networks::schema;
use crate::questions::check;
use crate::texts::unfold;
use clr_cert::CertFault;
use clr_record_explanations::{Role, find_certificate_fault, find_script_fault};
use clr_scripts::RecordFault;
use csv::StringRecord;
use std::alloc::Global;
use std::test::Fail;

/// Faults of scripts.
const SCRIPTS: &str = r#"scriptfault show,W1 => none
scriptfault open,W1 => 1 BadWord Step|open|W1
scriptfault show,LIVE//weak,W1 => 2 BadWord Step|weak|W1
scriptfault /"a,b",W1 => 1 BadWord Step|a,b|W1
scriptfault apply,W1 => 1 FieldCount Step|apply|W1
scriptfault apply,W1,0/apply,W1,x => 2 BadNumber Step|apply|W1|x
scriptfault apply,W1,1/show,W1 => 2 BadWord Edit|show|W1
scriptfault apply,W1,2/delete,note,4 => 1 FieldCount ShortApply|apply|W1|2
scriptfault apply,W1,2/delete,pipe,4 => 2 NoTable Edit|delete|pipe|4
scriptfault show,W1/apply,W1,2/delete,note,x => 3 BadNumber Edit|delete|note|x
scriptfault apply,W1,1/delete,note,4/delete,note,4 => 3 BadWord Step|delete|note|4
scriptfault apply,W1,1/delete,note,4/apply,W1,2/delete,note,4 => 3 FieldCount ShortApply|apply|W1|2"#;

/// Faults of certificates.
const CERTIFICATES: &str = "certificatefault member,W1,,,, => none
certificatefault member,W1 => 1 FieldCount false|member|W1
certificatefault members,W1,,,, => 1 BadKind false|members|W1||||
certificatefault member,W1,,,,/before,W1,W2,, => 2 FieldCount false|before|W1|W2||
certificatefault root,K,,,,/before,W1,,,, => 2 BadReference true|before|W1||||
certificatefault before,W1,W2,,,/member,W1,,,,/before,W1,W2,W3,, => 3 BadReference false|before|W1|W2|W3||
certificatefault member,W1,,,,//need,1,node,,node, => 2 BadReference false|need|1|node||node|
certificatefault member,W1,,,,/root,LIVE,,,, => 2 BadReference false|root|LIVE||||
certificatefault root,K,,,,/member,W1,,,,/root,K,,,, => 3 BadReference true|root|K||||";

/// Adds the fields of a record to a text, each behind a bar.
fn add_fields(text: &mut String, fields: &StringRecord) -> Option<()> {
    for field in fields.iter() {
        text.push('|').ok()?;
        text.push_str(field).ok()?;
    }
    Some(())
}

/// Returns the fault of a script, or `none`.
fn script_text(alloc: Global, script: &str) -> Option<String> {
    let schema = schema(alloc)?;
    let Some(found) = find_script_fault(alloc, &schema, script.as_bytes()).ok()? else {
        return String::from_str(alloc, "none").ok();
    };
    let mut text = format!(in alloc; "{} {:?} {:?}", found.record, found.fault, found.role).ok()?;
    add_fields(&mut text, found.fields.as_ref()?)?;
    Some(text)
}

/// Returns the fault of a certificate, or `none`.
fn certificate_text(alloc: Global, certificate: &str) -> Option<String> {
    let schema = schema(alloc)?;
    let Some(found) = find_certificate_fault(alloc, &schema, certificate.as_bytes()).ok()? else {
        return String::from_str(alloc, "none").ok();
    };
    let mut text = format!(in alloc;
        "{} {:?} {}",
        found.record, found.fault, found.is_rooted
    ).ok()?;
    add_fields(&mut text, found.fields.as_ref()?)?;
    Some(text)
}

/// Returns what is found in a script or in a certificate.
pub(crate) fn answer(alloc: Global, word: &str, line: &str) -> Option<String> {
    match word {
        "scriptfault" => script_text(alloc, unfold(alloc, line)?.as_str()),
        _ => certificate_text(alloc, unfold(alloc, line)?.as_str()),
    }
}

#[test]
fn records_of_scripts(rt: HostRuntime) {
    check(&rt, rt.alloc(), SCRIPTS);
}

#[test]
fn records_of_certificates(rt: HostRuntime) {
    check(&rt, rt.alloc(), CERTIFICATES);
}

#[test]
fn bytes_without_records(rt: HostRuntime) -> Result<(), Fail> {
    let schema = schema(rt.alloc()).ok_or("no schema")?;
    let script = find_script_fault(rt.alloc(), &schema, b"open\n\xff")?.ok_or("no fault")?;
    assert!(rt; script.fault == RecordFault::NotCsv && script.role == Role::Text);
    assert!(rt; script.record == 1 && script.fields.is_none());
    let certificate = find_certificate_fault(rt.alloc(), &schema, b"member\n\xff")?.ok_or(
        "no fault",
    )?;
    assert!(rt; certificate.fault == CertFault::NotCsv && certificate.fields.is_none());
    assert!(rt; certificate.record == 1 && !certificate.is_rooted);
    Ok(())
}
