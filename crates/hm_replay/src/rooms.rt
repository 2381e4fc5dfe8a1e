//! Rooms for names: all that may take memory is done before the first name is set.
ghost use Rattle.std.specs.Prelude.{◌≡◌, OnOk, IsSome};
ghost use Rattle.hm_trace.specs.Views.{name_view};
ghost use Rattle.hm_replay.specs.Names.{held, with_name, with_all, with_lists};
ghost use Rattle.hm_replay.specs.Rooms.{set_in, AreRooms, KeepsRooms, HaveRooms, HaveAllRooms};

use crate::left::NameLeft;
use hm_base::NoMemory;
use hm_trace::Name;
use std::collections::BTreeMap;

// Takes room for a name, which stays as it is.
fn take_room(rooms: &mut BTreeMap<Name, Option<u64>>, name: Name) -> Result<(), NoMemory>
    ensures kept { KeepsRooms rooms.old.entries rooms.new.entries }
    ensures same { set_in rooms.new.entries ≡ set_in rooms.old.entries }
    ensures room { OnOk result (IsSome (held rooms.new.entries (name_view name))) }
{
    if rooms.contains_key(&name) {
        return Ok(());
    }
    let _ = rooms.insert(name, None)?;
    Ok(())
}

// Takes room for each of these names, which stay as they are.
fn take_rooms(rooms: &mut BTreeMap<Name, Option<u64>>, left: &[NameLeft]) -> Result<(), NoMemory>
    ensures kept { KeepsRooms rooms.old.entries rooms.new.entries }
    ensures same { set_in rooms.new.entries ≡ set_in rooms.old.entries }
    ensures room { OnOk result (HaveRooms rooms.new.entries left.now) }
{
    for name in left {
        take_room(rooms, name.name)?;
    }
    Ok(())
}

/// Takes room for each name of these lists. None is set or unset by it.
pub(crate) fn take_all_rooms(
    rooms: &mut BTreeMap<Name, Option<u64>>,
    lists: &[Vec<NameLeft>],
) -> Result<(), NoMemory>
    ensures kept { KeepsRooms rooms.old.entries rooms.new.entries }
    ensures same { set_in rooms.new.entries ≡ set_in rooms.old.entries }
    ensures room { OnOk result (HaveAllRooms rooms.new.entries lists.now) }
{
    for left in lists {
        take_rooms(rooms, left)?;
    }
    Ok(())
}

// Sets or unsets a name that has room.
fn put(rooms: &mut BTreeMap<Name, Option<u64>>, left: &NameLeft)
    requires rooms { AreRooms rooms.old.entries }
    requires room { IsSome (held rooms.old.entries (name_view left.now.name)) }
    ensures kept { KeepsRooms rooms.old.entries rooms.new.entries }
    ensures value { held (set_in rooms.new.entries)
        ≡ with_name (held (set_in rooms.old.entries)) (name_view left.now.name) left.now.address }
{
    // A name that has room takes no memory, so this does not fail.
    let _ = rooms.insert(left.name, left.address);
}

// Sets or unsets each of these names, which all have room.
fn put_all(rooms: &mut BTreeMap<Name, Option<u64>>, left: &[NameLeft])
    requires rooms { AreRooms rooms.old.entries }
    requires room { HaveRooms rooms.old.entries left.now }
    ensures kept { KeepsRooms rooms.old.entries rooms.new.entries }
    ensures value { held (set_in rooms.new.entries) ≡ with_all (held (set_in rooms.old.entries)) left.now }
{
    for name in left {
        put(rooms, name);
    }
}

/// Sets or unsets the names of each list in turn, which all have room.
pub(crate) fn put_lists(rooms: &mut BTreeMap<Name, Option<u64>>, lists: &[Vec<NameLeft>])
    requires rooms { AreRooms rooms.old.entries }
    requires room { HaveAllRooms rooms.old.entries lists.now }
    ensures kept { KeepsRooms rooms.old.entries rooms.new.entries }
    ensures value { held (set_in rooms.new.entries) ≡ with_lists (held (set_in rooms.old.entries)) lists.now }
{
    for left in lists {
        put_all(rooms, left);
    }
}
