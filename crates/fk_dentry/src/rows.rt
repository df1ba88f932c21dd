//! The names that have room, in an ordered map.
ghost use Rattle.std.specs.Prelude.{◌≡◌, [], None, Some, IfNone, IfSome, IsSome, OnErr, OnOk};
ghost use Rattle.fuse_spec.specs.Values.Maps.{get_name, put_name, remove_name};
ghost use Rattle.fk_dentry.specs.Rows.{slots_of, bound_in, bound_names};

use crate::key::{DentryKey, LentKey};
use fuse_spec::Dentry;
use std::alloc::{AllocError, Allocator};
use std::collections::BTreeMap;

/// Each name that has room, with its dentry if it has one.
pub(crate) type Rows<A> = BTreeMap<DentryKey<A>, Option<Dentry>, A>;

/// What stands under a name that has room.
pub(crate) fn slot<A: Allocator>(
    rows: &Rows<A>,
    directory: u64,
    name: &[u8],
) -> Option<Option<Dentry>>
    ensures { result ≡ get_name (slots_of rows.now.entries) (directory, name.now) }
{
    rows.get(LentKey::of(directory, name)).copied()
}

/// Puts a row. Where memory is refused nothing changes.
#[inline(always)]
pub(crate) fn add<A: Allocator + Copy>(
    rows: &mut Rows<A>,
    key: DentryKey<A>,
    dentry: Option<Dentry>,
) -> Result<(), AllocError>
    ensures slots { OnOk result (slots_of rows.new.entries
        ≡ put_name (slots_of rows.old.entries) key dentry) }
    ensures unchanged { OnErr result (slots_of rows.new.entries ≡ slots_of rows.old.entries) }
{
    let _old = rows.insert(key, dentry)?;
    Ok(())
}

/// Binds a name if it has room, and gives what stood there. Where it has none nothing changes.
pub(crate) fn bind<A: Allocator>(
    rows: &mut Rows<A>,
    directory: u64,
    name: &[u8],
    dentry: Dentry,
) -> Option<Option<Dentry>>
    ensures stood { result ≡ get_name (slots_of rows.old.entries) (directory, name.now) }
    ensures slots { IsSome result → slots_of rows.new.entries ≡ put_name (slots_of rows.old.entries)
        (directory, name.now) (Some dentry) }
    ensures absent { result ≡ None → slots_of rows.new.entries ≡ slots_of rows.old.entries }
{
    let slot = rows.get_mut(LentKey::of(directory, name))?;
    Some(slot.replace(dentry))
}

/// Takes the row of a name out, and gives its dentry.
pub(crate) fn take_out<A: Allocator>(
    rows: &mut Rows<A>,
    directory: u64,
    name: &[u8],
) -> Option<Dentry>
    ensures dentry { result ≡ bound_in (get_name (slots_of rows.old.entries) (directory, name.now)) }
    ensures slots { slots_of rows.new.entries ≡ remove_name (slots_of rows.old.entries) (directory, name.now) }
{
    match rows.remove(LentKey::of(directory, name)) {
        Some(dentry) => dentry,
        None => None,
    }
}

/// A name that is bound, if one is: its directory, and it.
pub(crate) fn first_bound<A: Allocator>(rows: &Rows<A>) -> Option<(u64, &[u8])>
    ensures some { IfSome result (λ n. IsSome (bound_in (get_name (slots_of rows.now.entries) (n.0, n.1.now)))) }
    ensures none { IfNone result (bound_names (slots_of rows.now.entries) ≡ []) }
{
    for (key, slot) in rows {
        if slot.is_some() {
            return Some((key.directory(), key.name()));
        }
    }
    None
}
