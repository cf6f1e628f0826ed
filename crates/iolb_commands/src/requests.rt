//! A request: the program in the first file, and what is to be done with it and the other files.

ghost use Rattle.std.specs.Prelude.{◌≡◌, ◌≤◌, ◌<◌, ◌^◌, Some, List, OnOk, IfOk, IfErr, IfSome, option_map};
ghost use Rattle.std.specs.List.{AllByRecursion};
ghost use Rattle.affine_form.specs.Form.{IsSmall};
ghost use Rattle.affine_program.specs.Parts.{meaning};
ghost use Rattle.command_words.specs.Requests.{IsSmallWork, asked, bounds_traffic, bytes_of, file_at as name_at, work_of};
ghost use Rattle.command_words.specs.Sizes.{NamedSize, values_for as values_named};
ghost use Rattle.iolb_cert.specs.OneCertificate.{HasCertificate};
ghost use Rattle.iolb_cert.specs.Texts.{IsTextFault};
ghost use Rattle.iolb_check.specs.Claims.{claim_of_certificate};
ghost use Rattle.iolb_commands.specs.Phases.{IsSaid, IsUnread, IsUnsaid, NamesCome, ProgramComes, RequestComes, WorkComes};
ghost use Rattle.iolb_commands.specs.Reading.{IsContent};
ghost use Rattle.iolb_commands.specs.Stop.{faults_at};
ghost use Rattle.iolb_commands.specs.Works.{most_bytes as most_at, sizes_for as sizes_of_work, whole};
ghost use Rattle.iolb_commands.specs.Written.{IsOfWork, answer_form, end_of};
ghost use Rattle.iolb_model.specs.declared.limits.TheConstants.{VALUE_SIZE};
ghost use Rattle.store_terms.specs.Claims.{claim_of_stores};
ghost use Rattle.store_text.specs.Texts.{HasStores, IsTextFault as IsStoresFault};

use crate::answered::Answer;
use crate::bounding::bounded;
use crate::checking::judged;
use crate::climbing::climb_answer;
use crate::playing::readied;
use crate::sampling::sampled;
use crate::stop::{OtherFault, Stop};
use crate::traffic::traffic_answer;
use affine_c::{ProgramError, read_program};
use affine_form::{Memory, Name};
use affine_program::Program;
use command_words::{Command, Job, Work, file_at, values_for};
use iolb_cert::{CertError, read_certificate};
use iolb_check::Certificate;
use iolb_host::Files;
use iolb_model::limits;
use std::alloc::Global;
use store_terms::Stores;
use store_text::read_stores;

/// The most bytes of the file at a place of the words.
fn most_bytes(work: &Work, place: usize) -> u64
    ensures { result ≡ most_at (work_of work.now) place }
{
    if place == 0 {
        return limits::PROGRAM_BYTES as u64;
    }
    match work {
        Work::Judge(_) | Work::Traffic(_) => limits::CERTIFICATE_BYTES as u64,
        Work::Replay(_) => limits::SCHEDULE_BYTES as u64,
        Work::Climb(_) => limits::MOVES_BYTES as u64,
        Work::Bound | Work::Sample(_) => 0,
    }
}

/// Reads the file at a place of the words.
fn read_at<F: Files>(command: &Command<'_>, place: usize, files: &mut F) -> Result<Vec<u8>, Stop>
    ensures told_stays { F.told files.new ≡ F.told files.old }
    ensures read { OnOk result (F.faults files.new ≡ F.faults files.old) }
    ensures noted { IfErr result (λ stop. F.faults files.new ≡ faults_at (bytes_of command.now.files.now) stop (F.faults files.old)) }
    ensures content { IfOk result (λ bytes. IsContent (F.told files.old) (name_at (bytes_of command.now.files.now) place) (most_at (work_of command.now.work) place) bytes.items) }
    ensures cause { IfErr result (IsUnread (F.told files.old) (bytes_of command.now.files.now) (work_of command.now.work) place) }
{
    match files.read(
        file_at(command.files, place),
        most_bytes(&command.work, place),
    ) {
        Ok(bytes) => Ok(bytes),
        Err(fault) => Err(Stop::File { place, fault }),
    }
}

/// The certificate in the second file.
fn certificate_at<F: Files>(
    alloc: Global,
    command: &Command<'_>,
    files: &mut F,
) -> Result<Certificate, Stop>
    ensures told_stays { F.told files.new ≡ F.told files.old }
    ensures read { OnOk result (F.faults files.new ≡ F.faults files.old) }
    ensures noted { IfErr result (λ stop. F.faults files.new ≡ faults_at (bytes_of command.now.files.now) stop (F.faults files.old)) }
    ensures said { IfOk result (λ certificate. IsSaid (F.told files.old) (bytes_of command.now.files.now) (work_of command.now.work) 1 HasCertificate (claim_of_certificate certificate)) }
    ensures cause { IfErr result (IsUnsaid (F.told files.old) (bytes_of command.now.files.now) (work_of command.now.work) 1 IsTextFault (λ fault. Stop.OtherText (OtherFault.Certificate fault))) }
{
    let bytes = read_at(command, 1, files)?;
    match read_certificate(alloc, bytes.as_slice()) {
        Ok(certificate) => Ok(certificate),
        Err(CertError::Fault(fault)) => Err(Stop::OtherText(OtherFault::Certificate(fault))),
        Err(CertError::Memory) => Err(Stop::Memory),
    }
}

/// The stores in the third file.
fn stores_at<F: Files>(alloc: Global, command: &Command<'_>, files: &mut F) -> Result<Stores, Stop>
    ensures told_stays { F.told files.new ≡ F.told files.old }
    ensures read { OnOk result (F.faults files.new ≡ F.faults files.old) }
    ensures noted { IfErr result (λ stop. F.faults files.new ≡ faults_at (bytes_of command.now.files.now) stop (F.faults files.old)) }
    ensures said { IfOk result (λ stores. IsSaid (F.told files.old) (bytes_of command.now.files.now) (work_of command.now.work) 2 HasStores (claim_of_stores stores)) }
    ensures cause { IfErr result (IsUnsaid (F.told files.old) (bytes_of command.now.files.now) (work_of command.now.work) 2 IsStoresFault (λ fault. Stop.OtherText (OtherFault.Stores fault))) }
{
    let bytes = read_at(command, 2, files)?;
    match read_stores(alloc, bytes.as_slice()) {
        Ok(stores) => Ok(stores),
        Err(CertError::Fault(fault)) => Err(Stop::OtherText(OtherFault::Stores(fault))),
        Err(CertError::Memory) => Err(Stop::Memory),
    }
}

/// Bounds loads and stores together, by the certificate and the stores in the files of a command for it.
fn traffic_at<F: Files>(
    alloc: Global,
    program: &Program,
    command: &Command<'_>,
    s: u64,
    sizes: &[i64],
    files: &mut F,
) -> Result<Answer, Stop>
    requires some { 1 ≤ s }
    requires few { s < 2 ^ 63 }
    requires given { (named : List NamedSize) × (values_named program.now.params named ≡ Some sizes.now) × (work_of command.now.work ≡ bounds_traffic s named) }
    requires small { AllByRecursion (IsSmall VALUE_SIZE) sizes.now }
    ensures told_stays { F.told files.new ≡ F.told files.old }
    ensures read { OnOk result (F.faults files.new ≡ F.faults files.old) }
    ensures noted { IfErr result (λ stop. F.faults files.new ≡ faults_at (bytes_of command.now.files.now) stop (F.faults files.old)) }
    ensures comes { WorkComes (F.told files.old) (bytes_of command.now.files.now) (work_of command.now.work) (meaning program.now) sizes.now (end_of result) }
    ensures kind { IfOk result (λ answer. answer_form answer ≡ whole) }
{
    let certificate = certificate_at(alloc, command, files)?;
    let stores = stores_at(alloc, command, files)?;
    traffic_answer(alloc, program, &certificate, &stores, sizes, s)
}

/// The sizes that work gives to parameters with these names, or `None` where it doesn't name each exactly once, or names
/// something else.
fn sizes_for(alloc: Global, names: &[Name], work: &Work) -> Result<Option<Vec<i64>>, Memory>
    requires work { IsSmallWork work.now }
    ensures given { IfOk result (λ found. option_map (λ sizes. sizes.items) found ≡ sizes_of_work (work_of work.now) names.now) }
    ensures small { IfOk result (λ found. IfSome found (λ sizes. AllByRecursion (IsSmall VALUE_SIZE) sizes.items)) }
{
    match work {
        Work::Judge(Job::Eval(setting) | Job::Parallel { setting, .. })
        | Work::Replay(setting)
        | Work::Traffic(setting) => values_for(alloc, names, setting.sizes.as_slice()),
        Work::Judge(Job::Levels(setting)) | Work::Climb(setting) => {
            values_for(alloc, names, setting.sizes.as_slice())
        }
        Work::Judge(Job::Check) | Work::Bound => Ok(Some(Vec::new(alloc))),
        Work::Sample(_) => Ok(None),
    }
}

/// Does the work of a command on its program, at the sizes of the words.
fn work_at<F: Files>(
    alloc: Global,
    program: &Program,
    command: &Command<'_>,
    sizes: &[i64],
    files: &mut F,
) -> Result<Answer, Stop>
    requires work { IsSmallWork command.now.work }
    requires given { sizes_of_work (work_of command.now.work) program.now.params ≡ Some sizes.now }
    requires small { AllByRecursion (IsSmall VALUE_SIZE) sizes.now }
    ensures told_stays { F.told files.new ≡ F.told files.old }
    ensures read { OnOk result (F.faults files.new ≡ F.faults files.old) }
    ensures noted { IfErr result (λ stop. F.faults files.new ≡ faults_at (bytes_of command.now.files.now) stop (F.faults files.old)) }
    ensures comes { WorkComes (F.told files.old) (bytes_of command.now.files.now) (work_of command.now.work) (meaning program.now) sizes.now (end_of result) }
    ensures kind { IfOk result (IsOfWork (work_of command.now.work)) }
{
    match &command.work {
        Work::Judge(job) => {
            let bytes = read_at(command, 1, files)?;
            judged(alloc, program, job, sizes, bytes.as_slice())
        }
        Work::Replay(setting) => {
            let bytes = read_at(command, 1, files)?;
            readied(alloc, program, setting.memory, sizes, bytes.as_slice())
        }
        Work::Climb(setting) => {
            let bytes = read_at(command, 1, files)?;
            climb_answer(
                alloc,
                program,
                setting.capacities.as_slice(),
                sizes,
                bytes.as_slice(),
            )
        }
        Work::Traffic(setting) => {
            traffic_at(alloc, program, command, setting.memory, sizes, files)
        }
        Work::Bound => bounded(alloc, program),
        Work::Sample(_) => unreachable!(),
    }
}

/// Does the work of a command on its program, where the words name the program's parameters.
fn work_on<F: Files>(
    alloc: Global,
    program: &Program,
    command: &Command<'_>,
    files: &mut F,
) -> Result<Answer, Stop>
    requires work { IsSmallWork command.now.work }
    ensures told_stays { F.told files.new ≡ F.told files.old }
    ensures read { OnOk result (F.faults files.new ≡ F.faults files.old) }
    ensures noted { IfErr result (λ stop. F.faults files.new ≡ faults_at (bytes_of command.now.files.now) stop (F.faults files.old)) }
    ensures comes { NamesCome (F.told files.old) (bytes_of command.now.files.now) (work_of command.now.work) (meaning program.now) (end_of result) }
    ensures kind { IfOk result (IsOfWork (work_of command.now.work)) }
{
    match sizes_for(alloc, program.params(), &command.work) {
        Ok(Some(sizes)) => work_at(alloc, program, command, sizes.as_slice(), files),
        Ok(None) => Err(Stop::Words),
        Err(Memory) => Err(Stop::Memory),
    }
}

/// Does what a command asks for on the program in its first file.
fn on_program<F: Files>(alloc: Global, command: &Command<'_>, files: &mut F) -> Result<Answer, Stop>
    requires work { IsSmallWork command.now.work }
    ensures told_stays { F.told files.new ≡ F.told files.old }
    ensures read { OnOk result (F.faults files.new ≡ F.faults files.old) }
    ensures noted { IfErr result (λ stop. F.faults files.new ≡ faults_at (bytes_of command.now.files.now) stop (F.faults files.old)) }
    ensures comes { ProgramComes (F.told files.old) (bytes_of command.now.files.now) (work_of command.now.work) (end_of result) }
    ensures kind { IfOk result (IsOfWork (work_of command.now.work)) }
{
    let bytes = read_at(command, 0, files)?;
    match read_program(alloc, bytes.as_slice()) {
        Ok(program) => work_on(alloc, &program, command, files),
        Err(ProgramError::Fault(fault)) => Err(Stop::ProgramText(fault)),
        Err(ProgramError::Memory) => Err(Stop::Memory),
    }
}

/// Does what a command asks for: what answers it, or why not.
pub(crate) fn run_command<F: Files>(
    alloc: Global,
    command: &Command<'_>,
    files: &mut F,
) -> Result<Answer, Stop>
    requires work { IsSmallWork command.now.work }
    ensures told_stays { F.told files.new ≡ F.told files.old }
    ensures read { OnOk result (F.faults files.new ≡ F.faults files.old) }
    ensures noted { IfErr result (λ stop. F.faults files.new ≡ faults_at (bytes_of command.now.files.now) stop (F.faults files.old)) }
    ensures comes { RequestComes (F.told files.old) (asked command.now) (end_of result) }
    ensures kind { IfOk result (IsOfWork (work_of command.now.work)) }
{
    match &command.work {
        Work::Sample(count) => sampled(alloc, *count),
        _ => on_program(alloc, command, files),
    }
}
