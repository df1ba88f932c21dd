//! What is printed in each form.

ghost use Rattle.std.specs.Prelude.{◌≡◌, ◌++◌, List, OnOk};
ghost use Rattle.fuse_sessions.specs.Sessions.{Session};
ghost use Rattle.fw_check.specs.Forms as words;
ghost use Rattle.fw_check.specs.Life.{doer_for};
ghost use Rattle.fw_check.specs.Past.{remembered};
ghost use Rattle.fw_check.specs.Running.{verdict_text};
ghost use Rattle.fw_check.specs.Standing.{IsCountOf};
ghost use Rattle.fw_check.specs.Summary.{exchanges_of};

use crate::counts::Counts;
use crate::exchanges::Exchanges;
use crate::fault_line::put_fault_line;
use crate::json::{put_counts_object, put_fault_object, put_unjudged_object};
use crate::life::{Doer, put_life};
use crate::options::{CheckForm, CheckOptions};
use crate::past::{Past, Trace};
use crate::remains::Remains;
use crate::rows::put_table;
use crate::unjudged::put_unjudged_line;
use fuse_protocol::Unjudged;
use fuse_sessions::{Act, Fault, Transfer};
use std::alloc::{AllocError, Allocator};

/// What is printed before all else.
pub(crate) fn head_text(form: CheckForm) -> &'static [u8]
    ensures { result.now ≡ words.head_text form }
{
    match form {
        CheckForm::Words => b"",
        CheckForm::Json => b"{\"event\":\"check\",\"schema\":1}\n",
    }
}

/// What is printed of a fault.
fn put_fault<A: Allocator>(
    text: &mut Vec<u8, A>,
    form: CheckForm,
    number: u64,
    past: &Past<A>,
    act: Act,
    fault: Fault,
) -> Result<(), AllocError>
    ensures { OnOk result (text.new.items ≡ text.old.items ++ words.fault_text form number past.now.items act fault) }
{
    match form {
        CheckForm::Words => put_fault_line(text, number, past, act, fault),
        CheckForm::Json => put_fault_object(text, number, past, act, fault),
    }
}

/// What is printed of a verdict, where it is a fault.
fn put_verdict<A: Allocator>(
    text: &mut Vec<u8, A>,
    form: CheckForm,
    number: u64,
    past: &Past<A>,
    act: Act,
    verdict: Option<Fault>,
) -> Result<(), AllocError>
    ensures { OnOk result (text.new.items ≡ text.old.items ++ verdict_text form number past.now.items act verdict) }
{
    match verdict {
        Some(fault) => put_fault(text, form, number, past, act, fault),
        None => Ok(()),
    }
}

/// What is printed of the faults of a transfer's acts.
fn put_faults<A: Allocator>(
    text: &mut Vec<u8, A>,
    form: CheckForm,
    number: u64,
    past: &Past<A>,
    acts: &[Act],
    verdicts: &[Option<Fault>],
) -> Result<(), AllocError>
    ensures { OnOk result (text.new.items
        ≡ text.old.items ++ words.fault_lines form number past.now.items acts.now verdicts.now) }
{
    for place in 0..acts.len().min(verdicts.len()) {
        put_verdict(text, form, number, past, acts[place], verdicts[place])?;
    }
    Ok(())
}

/// What is printed of a transfer's acts: their faults, with what is remembered of the lines before, or what they do to the
/// node that is asked for, which is counted so often before, and whose they are at first. Nothing is, where the table of
/// opcodes is asked for.
pub(crate) fn put_act_lines<A: Allocator>(
    text: &mut Vec<u8, A>,
    options: CheckOptions,
    number: u64,
    count: u64,
    first: Doer,
    past: &Past<A>,
    acts: &[Act],
    verdicts: &[Option<Fault>],
) -> Result<(), AllocError>
    ensures { OnOk result ((s : Session) (t : Transfer) (all : List Trace) → IsCountOf s options.node count
        → first ≡ doer_for options.node s t → past.now.items ≡ remembered all
        → text.new.items ≡ text.old.items ++ words.act_lines options number all s t acts.now verdicts.now) }
{
    match options.node {
        Some(node) => put_life(text, number, node, count, first, acts),
        None => {
            if options.is_summary {
                return Ok(());
            }
            put_faults(text, options.form, number, past, acts, verdicts)
        }
    }
}

/// What is printed of why nothing is judged any more.
fn put_unjudged<A: Allocator>(
    text: &mut Vec<u8, A>,
    form: CheckForm,
    number: u64,
    why: Unjudged,
) -> Result<(), AllocError>
    ensures { OnOk result (text.new.items ≡ text.old.items ++ words.unjudged_text form number why) }
{
    match form {
        CheckForm::Words => put_unjudged_line(text, number, why),
        CheckForm::Json => put_unjudged_object(text, number, why),
    }
}

/// The same, where it is known from a transfer on.
pub(crate) fn put_leaving<A: Allocator>(
    text: &mut Vec<u8, A>,
    form: CheckForm,
    number: u64,
    before: Option<Unjudged>,
    after: Option<Unjudged>,
) -> Result<(), AllocError>
    ensures { OnOk result (text.new.items ≡ text.old.items ++ words.leaving_text form number before after) }
{
    match (before, after) {
        (None, Some(why)) => put_unjudged(text, form, number, why),
        _ => Ok(()),
    }
}

/// What is printed of the counts.
fn put_counts<A: Allocator>(
    text: &mut Vec<u8, A>,
    form: CheckForm,
    remains: Remains,
    counts: Counts,
) -> Result<(), AllocError>
    ensures { OnOk result (text.new.items ≡ text.old.items ++ words.counts_text form remains counts) }
{
    match form {
        CheckForm::Words => counts.put(text, remains),
        CheckForm::Json => put_counts_object(text, remains, counts),
    }
}

/// What is printed at the end: the table of opcodes, if it is asked for, and the counts. The buffer is for the table.
pub(crate) fn put_end<A: Allocator>(
    text: &mut Vec<u8, A>,
    buffer: &mut Vec<u64, A>,
    options: CheckOptions,
    exchanges: &Exchanges<A>,
    remains: Remains,
    counts: Counts,
) -> Result<(), AllocError>
    ensures { OnOk result (text.new.items
        ≡ text.old.items ++ words.closing_text options (exchanges_of exchanges.now) remains counts) }
{
    if options.is_summary {
        put_table(text, buffer, options.form, exchanges)?;
    }
    put_counts(text, options.form, remains, counts)
}
