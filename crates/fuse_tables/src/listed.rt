//! Rows and the values whose keys came late, listed in rising key.

ghost use Rattle.std.specs.Prelude.{◌≡◌, ◌≤◌, ◌++◌, IfOk, T, drop, take};
ghost use Rattle.std.specs.Ordering.{nat_cmp};
ghost use Rattle.std.specs.FinMap.{is_sorted};
ghost use Rattle.std.specs.VecDeque.{deque_len};
ghost use Rattle.fuse_tables.specs.LateValues.{AreKept, entries_of};
ghost use Rattle.fuse_tables.specs.LiveRows.{live};

use crate::late::Late;
use crate::live_rows::Rows;
use crate::rows_by_key::place_in;
use std::alloc::{AllocError, Allocator};

/// Puts the entries of the rows from one place to before another last into a list.
fn push_rows<V: Copy, A: Allocator + Copy>(
    list: &mut Vec<(u64, V), A>,
    rows: &Rows<V, A>,
    from: usize,
    to: usize,
) -> Result<(), AllocError>
    requires { to ≤ deque_len rows.now }
    ensures { IfOk result (λ _. list.new.items ≡ list.old.items ++ live (drop from (take to rows.now.items))) }
{
    for place in from..to {
        let row = &rows[place];
        if let Some(value) = row.1 {
            list.push((row.0, value))?;
        }
    }
    Ok(())
}

/// The entries of rows and of late values, in rising key.
pub(crate) fn list_entries<V: Copy, A: Allocator + Copy>(
    alloc: A,
    rows: &Rows<V, A>,
    late: &Late<V, A>,
) -> Result<Vec<(u64, V), A>, AllocError>
    requires { AreKept rows.now.items late.now.entries }
    ensures { IfOk result (λ list. list.items ≡ entries_of rows.now.items late.now.entries) }
{
    let mut list = Vec::new(alloc);
    let mut from = 0;
    for (key, value) in late {
        let to = place_in(rows, key.0);
        push_rows(&mut list, rows, from, to)?;
        list.push((key.0, *value))?;
        from = to;
    }
    push_rows(&mut list, rows, from, rows.len())?;
    Ok(list)
}
