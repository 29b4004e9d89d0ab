// The judgement of a controller's heads: their number, their files, the board, their starting counts and their blocks of timers.
#![tactic(auto)]

ghost use Rattle.std.specs.Prelude.{◌≡◌, List, ◌≤◌, ◌<◌, length};
ghost use Rattle.model.specs.Answer.{returned};
ghost use Rattle.model.specs.Chart.{Chart};
ghost use Rattle.refusal.specs.Refused.{answer_as};
ghost use Rattle.judgement.specs.Judging.{judged_header};
ghost use Rattle.controller_model.specs.Heads.{head_file, charts_in, head_counts, counts_in_order, blocks_fit};
ghost use Rattle.controller_model.specs.Headers.{HeadersOf};
ghost use Rattle.heads.specs.Judged.{JudgedAs, charts_judged_in, set_up_judged_in, heads_judged_in};

use crate::parts::part_of;
use chart_lists::{Header, MOST_LOCATIONS, MOST_TESTS, MOST_TIMERS, MOST_TRANSITIONS};
use controller_model::{Heads, MOST_HEADS, Parts};
use refusal::Refusal;

pub mod parts;

// What every call is handed: the files of the heads, one after another, the heads, and of how many timers the board is.
#[derive(Clone, Copy)]
pub struct Setting<'a> {
    pub files: &'a [u8],
    pub heads: Heads,
    pub k: u32,
}

impl<'a> Setting<'a> {
    // The file of head h.
    pub fn file(self, h: usize) -> &'a [u8]
        requires { h < 8 }
        ensures { result.now ≡ head_file self.entry.files.now self.entry.heads h }
    {
        part_of(self.files, self.heads.lengths, h)
    }
}

// The header of no chart, where there is no head.
const NO_HEADER: Header = Header {
    version: 0,
    locations: 0,
    initial: 0,
    timers: 0,
    accepting: 0,
    transitions: 0,
};

// The judgement of one file, 1 to 10, and its chart's header.
// stays: ten arrays and not a ChartStore: those that nobody reads the compiler then leaves out; with a store a call on small files takes twice as
// long and more.
fn judge_file(file: &[u8]) -> Result<Header, Refusal>
    ensures { answer_as result ≡ judged_header file.now }
{
    let mut accepting = [0u16; MOST_LOCATIONS];
    let mut sources = [0u16; MOST_TRANSITIONS];
    let mut targets = [0u16; MOST_TRANSITIONS];
    let mut events = [0u8; MOST_TRANSITIONS];
    let mut starts = [0u64; MOST_TRANSITIONS];
    let mut test_counts = [0u8; MOST_TRANSITIONS];
    let mut timers = [0u8; MOST_TESTS];
    let mut codes = [0u8; MOST_TESTS];
    let mut constants = [0u32; MOST_TESTS];
    let mut tested = [0u64; MOST_TRANSITIONS];
    judgement::judge(
        file,
        &mut accepting,
        &mut sources,
        &mut targets,
        &mut events,
        &mut starts,
        &mut test_counts,
        &mut timers,
        &mut codes,
        &mut constants,
        &mut tested,
    )
}

// The files of the heads, each in turn.
// stays: no heap, so that the headers of so many heads are the front of eight.
fn judge_files(setting: Setting) -> Result<[Header; MOST_HEADS], Refusal>
    requires { setting.heads.number ≤ 8 }
    ensures { JudgedAs result (charts_in setting.entry.files.now setting.entry.heads) }
{
    let mut headers = [NO_HEADER; MOST_HEADS];
    for h in 0..setting.heads.number as usize {
        headers[h] = judge_file(setting.file(h))?;
    }
    Ok(headers)
}

// 25 for the number of heads, 1 to 10 for each file in turn, 11 for the board.
fn judge_charts(setting: Setting) -> Result<[Header; MOST_HEADS], Refusal>
    ensures { JudgedAs result (charts_judged_in setting.entry) }
{
    let number = setting.heads.number;
    if number == 0 || number > MOST_HEADS as u64 {
        return Err(refusal::WRONG_HEADS);
    }
    let headers = judge_files(setting)?;
    if setting.k > MOST_TIMERS as u32 {
        return Err(refusal::LIMIT_TOO_LARGE);
    }
    Ok(headers)
}

// Whether the blocks lie on a board of k timers, each not shorter than its chart's timers. What is left of the board is counted down, so that no
// sum is formed.
fn blocks_fit(k: u32, n: usize, blocks: [u64; MOST_HEADS], headers: [Header; MOST_HEADS]) -> bool
    requires { n ≤ 8 }
    ensures { ((cs : List Chart) → n ≡ length cs → HeadersOf cs headers → result ≡ blocks_fit k blocks cs) }
{
    let mut rest = u64::from(k);
    for h in 0..n {
        let block = blocks[h];
        if block < u64::from(headers[h].timers) || block > rest {
            return false;
        }
        rest -= block;
    }
    true
}

// The starting counts of each head in turn, by 12.
fn judge_counts(
    counts: &[u32],
    parts: Parts,
    n: usize,
    headers: [Header; MOST_HEADS],
) -> Result<(), Refusal>
    requires { n ≤ 8 }
    ensures { ((cs : List Chart) → n ≡ length cs → HeadersOf cs headers
        → answer_as result ≡ counts_in_order (head_counts counts.now parts) 0 cs (returned tt)) }
{
    for h in 0..n {
        player::judge_counts(part_of(counts, parts.lengths, h), headers[h].timers)?;
    }
    Ok(())
}

// The heads of a call after set-up: 25 for the blocks at last. The answer is their charts' headers.
pub fn judge_heads(setting: Setting) -> Result<[Header; MOST_HEADS], Refusal>
    ensures { JudgedAs result (heads_judged_in setting.entry) }
{
    let headers = judge_charts(setting)?;
    let heads = setting.heads;
    if !blocks_fit(setting.k, heads.number as usize, heads.blocks, headers) {
        return Err(refusal::WRONG_HEADS);
    }
    Ok(headers)
}

// The heads at set-up: their starting counts come before the blocks.
pub fn judge_set_up(
    setting: Setting,
    counts: &[u32],
    parts: Parts,
) -> Result<[Header; MOST_HEADS], Refusal>
    ensures { JudgedAs result (set_up_judged_in setting.entry counts.now parts) }
{
    let headers = judge_charts(setting)?;
    let heads = setting.heads;
    let n = heads.number as usize;
    judge_counts(counts, parts, n, headers)?;
    if !blocks_fit(setting.k, n, heads.blocks, headers) {
        return Err(refusal::WRONG_HEADS);
    }
    Ok(headers)
}
