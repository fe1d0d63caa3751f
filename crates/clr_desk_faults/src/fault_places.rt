//! Where the fault of a text is that an answer fails with.
ghost use Rattle.std.specs.Prelude.{◌≡◌, IfOk};
ghost use Rattle.clr_cert.specs.Certificates.{certificate_in};
ghost use Rattle.clr_office_texts.specs.Drafts.{draft_in};
ghost use Rattle.clr_desk_faults.specs.FaultPlaces.{IsCertificatePlace, IsCertificatePlaceOver, IsFaultPlace, IsOfficePlace, IsPlaceInOffices};

use clr_office_texts::{TextFault, read_office};
use clr_process_io::{RunFault, file_name};
use clr_rows::{Schema, Words};
use clr_text_diagnosis::{short_certificate_fault, short_office_fault};
use std::alloc::{AllocError, Global};

/// Returns the place of the fault of an office text, in the file of this name.
fn office_place(alloc: Global, file: &str, office: &[u8]) -> Result<Vec<u8>, AllocError>
    ensures { IfOk result (λ line. IsOfficePlace office.now file.now line.items (draft_in office.now)) }
{
    match short_office_fault(alloc, office, file)? {
        Some(line) => Ok(line),
        None => Ok(Vec::new(alloc)),
    }
}

/// Returns the place of the fault of an office text, or else of the second, in the files of these names.
fn place_in_offices(
    alloc: Global,
    files: &[Words],
    office: &[u8],
    second: &[u8],
) -> Result<Vec<u8>, AllocError>
    ensures { IfOk result (λ line. IsPlaceInOffices files.now office.now second.now line.items (draft_in office.now)) }
{
    match short_office_fault(alloc, office, file_name(files, 0))? {
        Some(line) => Ok(line),
        None => office_place(alloc, file_name(files, 1), second),
    }
}

/// Returns the place of the fault of a certificate over a schema, in the file of this name.
fn place_over_schema(
    alloc: Global,
    schema: &Schema,
    file: &str,
    certificate: &[u8],
) -> Result<Vec<u8>, AllocError>
    ensures { IfOk result (λ line. IsCertificatePlace schema.now certificate.now file.now line.items (certificate_in schema.now certificate.now)) }
{
    match short_certificate_fault(alloc, schema, certificate, file)? {
        Some(line) => Ok(line),
        None => Ok(Vec::new(alloc)),
    }
}

/// Returns the place of the fault of a certificate over an office text, in the file of this name.
fn certificate_place(
    alloc: Global,
    file: &str,
    office: &[u8],
    certificate: &[u8],
) -> Result<Vec<u8>, AllocError>
    ensures { IfOk result (λ line. IsCertificatePlaceOver certificate.now file.now line.items (draft_in office.now)) }
{
    match read_office(alloc, office) {
        Ok(read) => place_over_schema(alloc, read.draft.schema(), file, certificate),
        Err(TextFault::OutOfMemory) => Err(AllocError),
        Err(_) => Ok(Vec::new(alloc)),
    }
}

/// Returns where the fault of a text is that `answer` fails with, in one line: the name of its file, the line, the column and what
/// is wrong, as `why` says it; and nothing for a fault that no text has. The files are those of the office text and of the second
/// text. Where the office text is an office, the fault of an office is that of the second text.
pub fn fault_place(
    alloc: Global,
    fault: RunFault,
    files: &[Words],
    office: &[u8],
    second: &[u8],
) -> Result<Vec<u8>, AllocError>
    ensures place { IfOk result (λ line. IsFaultPlace fault files.now office.now second.now line.items) }
{
    match fault {
        RunFault::BadOffice(_) => place_in_offices(alloc, files, office, second),
        RunFault::BadCertificate(_, _) => {
            certificate_place(alloc, file_name(files, 1), office, second)
        }
        _ => Ok(Vec::new(alloc)),
    }
}
