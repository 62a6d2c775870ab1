//! From the bytes of a docket's file and a sheet's file to sentences and rows.
ghost use Rattle.std.specs.Prelude.{◌≡◌, ◌≢◌, IfErr, IfOk, OnOk, option_copied};
ghost use Rattle.reasons_text.specs.Files.{AnswersFiles, AnswersFilesWithin, IsFilesFault, IsFilesFaultWithin, IsFilesTellFault};
ghost use Rattle.reasons_text.specs.Texts.{AppendsText};

use crate::answering::text_of;
use crate::case::Case;
use crate::fault::WhyFault;
use crate::question::Asked;
use docket::{DocketFault, Part, RecordsFault};
use match_model::Limits;
use std::alloc::Global;
use std::hash::RandomState;
use std::io::Write;
use std::random::RandomSource;

// Reads a docket and its sheet from their files within these limits, and makes the text of the whole answer.
fn read_files_and_tell<H: RandomSource>(
    rt: &H,
    alloc: Global,
    limits: Limits,
    docket_bytes: &[u8],
    sheet_bytes: &[u8],
    asked: Asked,
    without_ranks: bool,
    key_bytes: Option<&[u8]>,
) -> Result<Vec<u8>, WhyFault>
    ensures text { IfOk result (λ text. AnswersFilesWithin limits docket_bytes.now sheet_bytes.now
        (option_copied key_bytes.entry) asked.entry without_ranks text.items) }
    ensures fault { IfErr result (IsFilesTellFault limits docket_bytes.now sheet_bytes.now
        (option_copied key_bytes.entry) asked.entry) }
{
    let Ok(hash_keys) = RandomState::new(rt) else {
        return Err(WhyFault::Records {
            file: Part::Docket,
            fault: RecordsFault::Docket(DocketFault::Read { place: 1 }),
        });
    };
    let case = Case::read_files(
        rt,
        alloc,
        limits,
        docket_bytes,
        sheet_bytes,
        asked == Asked::AllResidents,
    )?;
    text_of(alloc, hash_keys, &case, key_bytes, asked, without_ranks)
}

/// Reads a docket and a sheet, each from its own file, within the standard limits. Writes the answer as `serve_why`
/// does for the records of both files together. A record in the wrong file is a fault. Each fault names the file in
/// which it is. If the fault is not the writer's, nothing was written.
pub fn serve_why_files<W: Write, H: RandomSource>(
    rt: &H,
    alloc: Global,
    docket_bytes: &[u8],
    sheet_bytes: &[u8],
    writer: &mut W,
    asked: Asked,
    without_ranks: bool,
    key_bytes: Option<&[u8]>,
) -> Result<(), WhyFault>
    ensures text { OnOk result (AppendsText (AnswersFiles docket_bytes.now sheet_bytes.now
        (option_copied key_bytes.entry) asked.entry without_ranks)
        (W.contents writer.old) (W.contents writer.new)) }
    ensures fault { IfErr result (IsFilesFault docket_bytes.now sheet_bytes.now
        (option_copied key_bytes.entry) asked.entry) }
    ensures before { IfErr result (λ fault. fault ≢ WhyFault.Docket DocketFault.Write
        → writer.new ≡ writer.old) }
{
    serve_why_files_within(
        rt,
        alloc,
        Limits::Standard,
        docket_bytes,
        sheet_bytes,
        writer,
        asked,
        without_ranks,
        key_bytes,
    )
}

/// Does what `serve_why_files` does, but within these limits.
pub fn serve_why_files_within<W: Write, H: RandomSource>(
    rt: &H,
    alloc: Global,
    limits: Limits,
    docket_bytes: &[u8],
    sheet_bytes: &[u8],
    writer: &mut W,
    asked: Asked,
    without_ranks: bool,
    key_bytes: Option<&[u8]>,
) -> Result<(), WhyFault>
    ensures text { OnOk result (AppendsText
        (AnswersFilesWithin limits docket_bytes.now sheet_bytes.now
        (option_copied key_bytes.entry) asked.entry without_ranks)
        (W.contents writer.old) (W.contents writer.new)) }
    ensures fault { IfErr result (IsFilesFaultWithin limits docket_bytes.now sheet_bytes.now
        (option_copied key_bytes.entry) asked.entry) }
    ensures before { IfErr result (λ fault. fault ≢ WhyFault.Docket DocketFault.Write
        → writer.new ≡ writer.old) }
{
    let answer = match read_files_and_tell(
        rt,
        alloc,
        limits,
        docket_bytes,
        sheet_bytes,
        asked,
        without_ranks,
        key_bytes,
    ) {
        Ok(answer) => answer,
        Err(fault) => return Err(fault),
    };
    match writer.write_all(answer.as_slice()) {
        Ok(()) => Ok(()),
        Err(_) => Err(WhyFault::Docket(DocketFault::Write)),
    }
}
