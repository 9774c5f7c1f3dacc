ghost use Rattle.std.specs.Prelude.{◌≡◌, ◌↔◌, ◌≤◌, ◌<◌, ◌+◌, ◌-◌, ◌^◌, ℕ, Bool, true, false, Some, length, slice_get, IsTrue, IfSome, IfNone, MatchResult, OnOk, IfErr, vec_len, slice_set};
ghost use Rattle.jm_audit.specs.Audit.{segment, FitsBefore, IsFault, IsFirstFault, Agree, EachOnce, Rise};
ghost use Rattle.jm_audit.specs.Marks.{MarksFor, Judges, mark};

use crate::pass::{Pass, PassEntry};
use jm_machine::{Event, same_reply};
use std::alloc::Global;
use std::sync::ledger::Ledger;

/// Why passes do not account for a trace (ours).
#[derive(Clone, Copy, Debug, PartialEq, Eq)]
pub enum FinishFault {
    /// The first entry that does not fit the trace: the pass's place in the list, and the entry's place in the pass. Or,
    /// where all fit, the number of passes, and the first position that no pass has.
    Mismatch { pass: usize, index: u64 },
    /// A request for memory was refused.
    Memory,
}

/// What is to be done with an entry: it is passed over, marked, or does not fit.
#[derive(Clone, Copy)]
pub(crate) enum Judged {
    Over,
    Good(usize),
    Bad,
}

fn is_event_of(event: &Event, entry: &PassEntry) -> bool
    ensures { IsTrue result ↔ (event.now ≡ entry.now.event) }
{
    event.step.is(&entry.event.step) && same_reply(&event.reply, &entry.event.reply)
}

/// How the entry is to be judged, beside the positions that are marked, where those before it in its pass were below the
/// floor.
fn judge(
    events: &[Event],
    first: u64,
    is_last: bool,
    marks: &[bool],
    floor: u64,
    entry: &PassEntry,
) -> Judged
    requires range { (first ≤ 2 ^ 62) × (length events.now ≤ 2 ^ 62) }
    requires marks { length marks.now ≡ length events.now }
    ensures { Judges (segment first events.now is_last) marks.now floor entry.now result }
{
    let position = entry.position;
    if position < first {
        return Judged::Over;
    }
    if position - first >= events.len() as u64 {
        return if is_last { Judged::Bad } else { Judged::Over };
    }
    let at = (position - first) as usize;
    if position < floor {
        return Judged::Bad;
    }
    if marks[at] {
        return Judged::Bad;
    }
    if !is_event_of(&events[at], entry) {
        return Judged::Bad;
    }
    Judged::Good(at)
}

fn set_mark(marks: &mut Vec<bool>, at: usize)
    requires { at < vec_len marks.old }
    ensures { marks.new.items ≡ slice_set marks.old.items at true }
{
    marks[at] = true;
}

/// The first entry of pass i that does not fit. The positions of those before it are marked.
fn first_bad<L: Ledger>(
    events: &[Event],
    first: u64,
    is_last: bool,
    passes: &[Pass<L>],
    i: usize,
    marks: &mut Vec<bool>,
) -> Option<usize>
    requires range { (first ≤ 2 ^ 62) × (length events.now ≤ 2 ^ 62) }
    requires place { i < length passes.now }
    requires fit { FitsBefore (segment first events.now is_last) passes.now i 0 }
    requires marks { MarksFor (segment first events.now is_last) passes.now i 0 marks.old.items }
    ensures fit { IfNone result (FitsBefore (segment first events.now is_last) passes.now (i + 1) 0) }
    ensures marks { IfNone result (MarksFor (segment first events.now is_last) passes.now (i + 1) 0 marks.new.items) }
    ensures bad { IfSome result (λ j. IsFirstFault (segment first events.now is_last) passes.now i j) }
{
    let entries = passes[i].entries();
    let mut floor = 0u64;
    for j in 0..entries.len() {
        let entry = &entries[j];
        match judge(events, first, is_last, marks.as_slice(), floor, entry) {
            Judged::Over => {}
            Judged::Bad => return Some(j),
            Judged::Good(at) => {
                set_mark(marks, at);
                floor = entry.position + 1;
            }
        }
    }
    None
}

fn first_unmarked(marks: &[bool]) -> Option<usize>
    ensures none { IfNone result ((p : ℕ) → p < length marks.now → mark marks.now p ≡ true) }
    ensures some { IfSome result (λ p. (p < length marks.now) × (mark marks.now p ≡ false) × ((q : ℕ) → q < p → mark marks.now q ≡ true)) }
{
    for p in 0..marks.len() {
        if !marks[p] {
            return Some(p);
        }
    }
    None
}

fn audit_segment<L: Ledger>(
    alloc: Global,
    first: u64,
    events: &[Event],
    is_last: bool,
    passes: &[Pass<L>],
) -> Result<(), FinishFault>
    requires range { (first ≤ 2 ^ 62) × (length events.now ≤ 2 ^ 62) }
    ensures agree { OnOk result (Agree (segment first events.now is_last) passes.now) }
    ensures fault { IfErr result (λ fault. IsFault (segment first events.now is_last) passes.now fault) }
{
    let Ok(mut marks) = vec![in alloc; false; events.len()] else {
        return Err(FinishFault::Memory);
    };
    for i in 0..passes.len() {
        if let Some(j) = first_bad(events, first, is_last, passes, i, &mut marks) {
            return Err(FinishFault::Mismatch {
                pass: i,
                index: j as u64,
            });
        }
    }
    if let Some(p) = first_unmarked(marks.as_slice()) {
        return Err(FinishFault::Mismatch {
            pass: passes.len(),
            index: first + p as u64,
        });
    }
    Ok(())
}

/// Whether the passes account for a segment of a trace that was cut off, whose first event has the position `first`: each
/// position of it stands in just one entry of the passes, with the event that stands there, and in each pass the positions
/// rise. Entries outside the segment are passed over.
///
/// - `Mismatch`: the first fault, in the order of passes and entries: an entry that is not above those before it in its
///   pass, whose position an earlier pass has, or that has another event; or else the first position that no pass has.
/// - `Memory`: a request for memory was refused.
pub fn gather<L: Ledger>(
    alloc: Global,
    first: u64,
    events: &[Event],
    passes: &[Pass<L>],
) -> Result<(), FinishFault>
    requires range { (first ≤ 2 ^ 62) × (length events.now ≤ 2 ^ 62) }
    ensures agree { OnOk result (Agree (segment first events.now false) passes.now) }
    ensures once { OnOk result (EachOnce (segment first events.now false) passes.now) }
    ensures rise { OnOk result (Rise (segment first events.now false) passes.now) }
    ensures fault { IfErr result (λ fault. IsFault (segment first events.now false) passes.now fault) }
{
    audit_segment(alloc, first, events, false, passes)
}

/// The same of the last segment: entries below it are passed over, and one whose position is past its end does not fit.
pub fn gather_last<L: Ledger>(
    alloc: Global,
    first: u64,
    events: &[Event],
    passes: &[Pass<L>],
) -> Result<(), FinishFault>
    requires range { (first ≤ 2 ^ 62) × (length events.now ≤ 2 ^ 62) }
    ensures agree { OnOk result (Agree (segment first events.now true) passes.now) }
    ensures once { OnOk result (EachOnce (segment first events.now true) passes.now) }
    ensures rise { OnOk result (Rise (segment first events.now true) passes.now) }
    ensures fault { IfErr result (λ fault. IsFault (segment first events.now true) passes.now fault) }
{
    audit_segment(alloc, first, events, true, passes)
}
