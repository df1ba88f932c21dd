//! The rows of the table of opcodes.

ghost use Rattle.std.specs.Prelude.{◌≡◌, ◌++◌, IfOk, OnOk, [], codes};
ghost use Rattle.fw_check.specs.Summary as words;
ghost use Rattle.fw_check.specs.Summary.{exchanges_of};

use crate::exchanges::{Exchanges, OpcodeCounts, ReplyTime, counts_of};
use crate::json::{put_field, put_option_field, put_text_field};
use crate::options::CheckForm;
use crate::percentile::{Percentiles, percentiles_of};
use crate::text::{put, put_number};
use fuse_protocol::opcode_of_code;
use std::alloc::{AllocError, Allocator};

/// A row of the table: an opcode, its counts, and how long its replies took.
#[derive(Clone, Copy, Debug, PartialEq, Eq)]
pub(crate) struct Row {
    pub(crate) code: u32,
    pub(crate) counts: OpcodeCounts,
    pub(crate) times: Percentiles,
}

/// The name of an opcode, or `unknown`.
fn name_of_code(code: u32) -> &'static str
    ensures { result.now ≡ words.name_of_code code }
{
    match opcode_of_code(code) {
        Some(opcode) => opcode.name(),
        None => "unknown",
    }
}

/// Puts how long the replies of an opcode took in place of what the buffer has.
fn gather_times<A: Allocator, B: Allocator>(
    buffer: &mut Vec<u64, A>,
    code: u32,
    times: &Vec<ReplyTime, B>,
) -> Result<(), AllocError>
    ensures { OnOk result (buffer.new.items ≡ words.times_of code times.now.items) }
{
    buffer.clear();
    for time in times.iter() {
        if time.code == code {
            buffer.push(time.nanoseconds)?;
        }
    }
    Ok(())
}

/// The row of an opcode. The buffer is for its times.
fn row_of<A: Allocator>(
    buffer: &mut Vec<u64, A>,
    exchanges: &Exchanges<A>,
    code: u32,
) -> Result<Row, AllocError>
    ensures { IfOk result (λ row. row ≡ words.row_of code (exchanges_of exchanges.now)) }
{
    gather_times(buffer, code, &exchanges.times)?;
    Ok(Row {
        code,
        counts: counts_of(&exchanges.counts, code),
        times: percentiles_of(buffer.as_mut_slice()),
    })
}

/// Puts a space and a number.
fn put_spaced<A: Allocator>(text: &mut Vec<u8, A>, number: u64) -> Result<(), AllocError>
    ensures { OnOk result (text.new.items ≡ text.old.items ++ words.spaced number) }
{
    put(text, b" ")?;
    put_number(text, number)
}

/// Puts a space and a time, or a hyphen where there is none.
fn put_time<A: Allocator>(text: &mut Vec<u8, A>, time: Option<u64>) -> Result<(), AllocError>
    ensures { OnOk result (text.new.items ≡ text.old.items ++ words.time_word time) }
{
    match time {
        Some(nanoseconds) => put_spaced(text, nanoseconds),
        None => put(text, b" -"),
    }
}

/// Puts the counts of a row.
fn put_row_counts<A: Allocator>(
    text: &mut Vec<u8, A>,
    counts: OpcodeCounts,
) -> Result<(), AllocError>
    ensures { OnOk result (text.new.items ≡ text.old.items ++ words.counts_words counts) }
{
    put_spaced(text, counts.requests)?;
    put_spaced(text, counts.replies)?;
    put_spaced(text, counts.errors)
}

/// Puts the times of a row.
fn put_row_times<A: Allocator>(text: &mut Vec<u8, A>, times: Percentiles) -> Result<(), AllocError>
    ensures { OnOk result (text.new.items ≡ text.old.items ++ words.times_words times) }
{
    put_time(text, times.median)?;
    put_time(text, times.p90)?;
    put_time(text, times.max)
}

/// Puts the line of a row.
fn put_row_line<A: Allocator>(text: &mut Vec<u8, A>, row: Row) -> Result<(), AllocError>
    ensures { OnOk result (text.new.items ≡ text.old.items ++ words.row_line row) }
{
    put(text, name_of_code(row.code).as_bytes())?;
    put_row_counts(text, row.counts)?;
    put_row_times(text, row.times)?;
    put(text, b"\n")
}

/// Puts the keys of a row's counts.
fn put_counts_fields<A: Allocator>(
    text: &mut Vec<u8, A>,
    counts: OpcodeCounts,
) -> Result<(), AllocError>
    ensures { OnOk result (text.new.items ≡ text.old.items ++ words.counts_keys counts) }
{
    put_field(text, b"requests", counts.requests)?;
    put_field(text, b"replies", counts.replies)?;
    put_field(text, b"errors", counts.errors)
}

/// Puts the keys of a row's times.
fn put_times_fields<A: Allocator>(
    text: &mut Vec<u8, A>,
    times: Percentiles,
) -> Result<(), AllocError>
    ensures { OnOk result (text.new.items ≡ text.old.items ++ words.times_keys times) }
{
    put_option_field(text, b"median", times.median)?;
    put_option_field(text, b"p90", times.p90)?;
    put_option_field(text, b"max", times.max)
}

/// Puts the keys of a row.
fn put_row_fields<A: Allocator>(text: &mut Vec<u8, A>, row: Row) -> Result<(), AllocError>
    ensures { OnOk result (text.new.items ≡ text.old.items ++ words.row_keys row) }
{
    put_text_field(text, b"opcode", name_of_code(row.code))?;
    put_counts_fields(text, row.counts)?;
    put_times_fields(text, row.times)
}

/// Puts the object of a row.
fn put_row_object<A: Allocator>(text: &mut Vec<u8, A>, row: Row) -> Result<(), AllocError>
    ensures { OnOk result (text.new.items ≡ text.old.items ++ words.row_object row) }
{
    put(text, b"{\"event\":\"opcode\"")?;
    put_row_fields(text, row)?;
    put(text, b"}\n")
}

/// Puts a row.
fn put_row<A: Allocator>(text: &mut Vec<u8, A>, form: CheckForm, row: Row) -> Result<(), AllocError>
    ensures { OnOk result (text.new.items ≡ text.old.items ++ words.row_text form row) }
{
    match form {
        CheckForm::Words => put_row_line(text, row),
        CheckForm::Json => put_row_object(text, row),
    }
}

/// Puts the row of an opcode, if it was read.
fn put_row_of<A: Allocator>(
    text: &mut Vec<u8, A>,
    buffer: &mut Vec<u64, A>,
    form: CheckForm,
    exchanges: &Exchanges<A>,
    code: u32,
) -> Result<(), AllocError>
    ensures { OnOk result (text.new.items ≡ text.old.items ++ words.text_of_code form (exchanges_of exchanges.now) code) }
{
    if counts_of(&exchanges.counts, code).requests == 0 {
        return Ok(());
    }
    let row = row_of(buffer, exchanges, code)?;
    put_row(text, form, row)
}

/// What stands above the rows.
fn heading(form: CheckForm) -> &'static [u8]
    ensures { result.now ≡ words.heading form }
{
    match form {
        CheckForm::Words => b"opcode requests replies errors median p90 max\n",
        CheckForm::Json => b"",
    }
}

/// The last opcode's number.
const LAST: u32 = 53;

/// Puts the rows of the opcodes that have names, in the order of their numbers.
fn put_named_rows<A: Allocator>(
    text: &mut Vec<u8, A>,
    buffer: &mut Vec<u64, A>,
    form: CheckForm,
    exchanges: &Exchanges<A>,
) -> Result<(), AllocError>
    ensures { OnOk result (text.new.items
        ≡ text.old.items ++ words.rows_to form (exchanges_of exchanges.now) 53) }
{
    for before in 0..LAST {
        put_row_of(text, buffer, form, exchanges, before + 1)?;
    }
    Ok(())
}

/// Puts the table. The buffer is for the times of a row.
pub(crate) fn put_table<A: Allocator>(
    text: &mut Vec<u8, A>,
    buffer: &mut Vec<u64, A>,
    form: CheckForm,
    exchanges: &Exchanges<A>,
) -> Result<(), AllocError>
    ensures { OnOk result (text.new.items ≡ text.old.items ++ words.table_text form (exchanges_of exchanges.now)) }
{
    put(text, heading(form))?;
    put_named_rows(text, buffer, form, exchanges)?;
    put_row_of(text, buffer, form, exchanges, 0)
}
