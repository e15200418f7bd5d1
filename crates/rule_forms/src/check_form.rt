//! The form `check PROJECT CERT`: whether a certificate holds over the rules of a project.
ghost use Rattle.std.specs.Prelude.{◌≡◌, IfOk};
ghost use Rattle.text_lists.specs.Limits.{AreLimits};
ghost use Rattle.cert_text.specs.CertFiles.{reads_cert};
ghost use Rattle.cli_output.specs.Fetching.{Fetches, Reads, about};
ghost use Rattle.cli_output.specs.Output.{Ends, IsWhole, Only, Output, UsesDevices, Writes};
ghost use Rattle.cli_output.specs.RuleFiles.{spelled};
ghost use Rattle.rule_forms.specs.CheckForm.{cert_line, check_outputs, check_task, fetch_cert, fetch_given, flaw_of, verdict_status, verdict_text};

use cert_check::{CertVerdict, check_cert};
use cert_text::{Cert, CertCause, CertFault, parse_cert};
use cli_output::{
    Cause, LineFlaw, Status, Stop, end_by, end_with, fetch_book, fetch_file, refused,
};
use rule_model::RuleBook;
use schema_core::{Limits, Text, push_number};
use shelf_io::{Shelf, Sink};
use std::alloc::{AllocError, Global};

/// The rules of a project, and a certificate.
#[derive(Drop)]
pub struct Given {
    pub rules: RuleBook,
    pub cert: Cert,
}

/// Tells whether the certificate of a file holds over the rules of a project.
pub fn check_project<S: Shelf, O: Sink>(
    alloc: Global,
    project: &Text,
    name: &Text,
    shelf: &mut S,
    out: &mut O,
    limits: &Limits,
) -> Status
    requires { AreLimits limits.now }
    ensures written { Writes (Output limits.now (check_task limits.now project.now name.now) (S.told shelf.old).holding) result (O.told out.old).written (O.told out.new).written }
    ensures devices { UsesDevices limits.now (check_task limits.now project.now name.now) result (S.told shelf.old) (S.told shelf.new) (O.told out.old) (O.told out.new) }
{
    let mut left = limits.all_bytes;
    match fetch_given(alloc, shelf, project, name, limits, &mut left) {
        Ok(given) => tell(alloc, &given, out),
        Err(stop) => end_by(alloc, &stop, out),
    }
}

/// The rules of a project, and then the certificate.
#[tactic(auto, unfolding(crate::specs::CheckForm::fetch_given))]
fn fetch_given<S: Shelf>(
    alloc: Global,
    shelf: &mut S,
    project: &Text,
    name: &Text,
    limits: &Limits,
    left: &mut u64,
) -> Result<Given, Stop>
    requires { AreLimits limits.now }
    ensures { Fetches (fetch_given limits.now project.now name.now) (λ given. given) 3 result (S.told shelf.old) (S.told shelf.new) left.old left.new }
{
    let rules = fetch_book(alloc, shelf, project, limits, left)?;
    let cert = fetch_cert(alloc, shelf, name, limits, left)?;
    Ok(Given { rules, cert })
}

#[tactic(auto, unfolding(crate::specs::CheckForm::fetch_cert))]
fn fetch_cert<S: Shelf>(
    alloc: Global,
    shelf: &mut S,
    name: &Text,
    limits: &Limits,
    left: &mut u64,
) -> Result<Cert, Stop>
    requires { AreLimits limits.now }
    ensures { Fetches (fetch_cert limits.now name.now) (λ cert. cert) 1 result (S.told shelf.old) (S.told shelf.new) left.old left.new }
{
    let bytes = fetch_file(shelf, name, limits, left)?;
    cert_of(alloc, name, &bytes)
}

fn cert_of(alloc: Global, name: &Text, bytes: &[u8]) -> Result<Cert, Stop>
    ensures { Reads (about name.now (spelled cert_line (reads_cert bytes.now))) (λ cert. cert) result }
{
    match parse_cert(alloc, bytes) {
        Ok(cert) => Ok(cert),
        Err(CertFault::At { line, cause }) => {
            let cause = flaw_of(cause);
            refused(name, Cause::Line { line, cause })
        }
        Err(CertFault::Memory) => Err(Stop::Memory),
    }
}

fn flaw_of(cause: CertCause) -> LineFlaw
    ensures { result ≡ flaw_of cause }
{
    match cause {
        CertCause::NotUtf8 => LineFlaw::NotUtf8,
        CertCause::BadLine => LineFlaw::BadLine,
    }
}

/// Tells the verdict on the certificate.
fn tell<O: Sink>(alloc: Global, given: &Given, out: &mut O) -> Status
    ensures { Ends (check_outputs given.now) result (O.told out.old) (O.told out.new) }
{
    match check_cert(alloc, &given.rules, &given.cert) {
        Ok(verdict) => write_verdict(alloc, verdict, out),
        Err(AllocError) => Status::Memory,
    }
}

fn write_verdict<O: Sink>(alloc: Global, verdict: CertVerdict, out: &mut O) -> Status
    ensures { Ends (Only (verdict_text verdict) (verdict_status verdict)) result (O.told out.old) (O.told out.new) }
{
    match verdict_text(alloc, verdict) {
        Ok(text) => end_with(out, &text, verdict_status(verdict)),
        Err(AllocError) => Status::Memory,
    }
}

fn verdict_text(alloc: Global, verdict: CertVerdict) -> Result<Vec<u8>, AllocError>
    ensures { IfOk result (λ line. line.items ≡ verdict_text verdict) }
{
    let mut text = Vec::new(alloc);
    match verdict {
        CertVerdict::Holds => text.extend_from_slice(b"holds\n")?,
        CertVerdict::Fails(line) => {
            text.extend_from_slice(b"fails ")?;
            push_number(&mut text, line as u64)?;
            text.push(b'\n')?;
        }
    }
    Ok(text)
}

fn verdict_status(verdict: CertVerdict) -> Status
    ensures status { result ≡ verdict_status verdict }
    ensures whole { IsWhole result }
{
    match verdict {
        CertVerdict::Holds => Status::Clean,
        CertVerdict::Fails(_) => Status::Findings,
    }
}
