// Judges a chart file, 1 to 8, and keeps nothing of it but its chart's header and the number of its tests.
//
// stays: `let .. else` and not `?`, a rule of the project (docs/DECISIONS.md, 32): the first field that fails ends the reading in the else branch.
#![tactic(auto)]

pub mod header;
mod records;

ghost use Rattle.std.specs.Prelude.{◌≡◌};
ghost use Rattle.model.specs.Version.{known_version};
ghost use Rattle.file_format.specs.File.{read_frame, judge_frame};
ghost use Rattle.file_judging.specs.Meaning.{frame_as, JudgesFile};

use chart_lists::Header;
use fields::Parsed;
use refusal::Refusal;

// The version byte and the length: the version, with the place where the body begins. Compared as 64-bit numbers, so that nothing is cut.
#[tactic(auto, using(crate::proofs::FrameParts::frame_parts))]
pub fn frame(s: &[u8]) -> Parsed<u64>
    ensures { frame_as s.now result ≡ judge_frame known_version (read_frame s.now) }
{
    let Ok((version, at)) = fields::number_at(s, 0, 1) else {
        return Err(refusal::WRONG_LENGTH);
    };
    let Ok((follow, body)) = fields::number_at(s, at, 4) else {
        return Err(refusal::WRONG_LENGTH);
    };
    if follow + 5 != s.len() as u64 {
        return Err(refusal::WRONG_LENGTH);
    }
    if !file_format::known_version(version) {
        return Err(refusal::WRONG_VERSION);
    }
    Ok((version, body))
}

// The whole file, judged: its chart's header and the number of its tests.
#[tactic(auto, using(crate::proofs::JudgeParts::file_parts))]
pub fn judge_file(s: &[u8]) -> Result<(Header, u64), Refusal>
    ensures { JudgesFile s.now result }
{
    let a = frame(s);
    let Ok((version, body)) = a else {
        return Err(a.unwrap_err());
    };
    let b = header::header_at(s, body, version as u8);
    let Ok((header, transitions)) = b else {
        return Err(b.unwrap_err());
    };
    let d = records::skip_records(s, transitions, header);
    let Ok((tests, end)) = d else {
        return Err(d.unwrap_err());
    };
    if end < s.len() {
        return Err(refusal::CUT_OFF);
    }
    Ok((header, tests))
}
