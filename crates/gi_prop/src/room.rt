ghost use Rattle.std.specs.Prelude.{◌≡◌, ℕ, ◌+◌, ◌<◌, ◌≤◌, ◌++◌, None, length, replicate, vec_len, vec_capacity, IfOk, OnOk};
ghost use Rattle.gi_chains.specs.Lists.{IsApart};
ghost use Rattle.gi_prop.specs.Watching.{HasMore};

use crate::starts::Starts;
use gi_chains::Chains;
use gi_store::Key;
use std::alloc::AllocError;

/// Makes a slot and two nodes of a number for a clause of so many literals, and the lists below
/// another. After an error there may be more nodes and lists, and as many slots.
pub(crate) fn make_room(
    slots: &mut Vec<Option<Key>>,
    first: &mut Chains,
    second: &mut Chains,
    starts: &mut Starts,
    node: u64,
    lists: u32,
    len: usize,
) -> Result<(), AllocError>
    requires first_apart { IsApart first.old }
    requires second_apart { IsApart second.old }
    ensures first { HasMore first.old first.new }
    ensures second { HasMore second.old second.new }
    ensures slots { (m : ℕ) × (slots.new.items ≡ slots.old.items ++ replicate m None) }
    ensures long { OnOk result (node < length slots.new.items) }
    ensures nodes { OnOk result ((node < first.new.nodes) × (node < second.new.nodes)) }
    ensures lists { OnOk result
        ((lists ≤ length first.new.lists) × (lists ≤ length second.new.lists)) }
{
    let more = reserve_slots(slots, starts, node, len)?;
    first.grow(lists, node)?;
    second.grow(lists, node)?;
    add_slots(slots, more);
    Ok(())
}

/// Makes room for the slots up to a number's, and a place in a clause of so many literals. Tells
/// how many slots are missing.
fn reserve_slots(
    slots: &mut Vec<Option<Key>>,
    starts: &mut Starts,
    node: u64,
    len: usize,
) -> Result<usize, AllocError>
    ensures slots { slots.new.items ≡ slots.old.items }
    ensures long { IfOk result (λ more. node < vec_len slots.new + more) }
    ensures room { IfOk result (λ more. vec_len slots.new + more ≤ vec_capacity slots.new) }
{
    starts.reach(node, len)?;
    let most = (node as usize).checked_add(1).ok_or(AllocError)?;
    let more = most.saturating_sub(slots.len());
    slots.reserve(more)?;
    Ok(more)
}

/// Adds slots without a key.
fn add_slots(slots: &mut Vec<Option<Key>>, more: usize)
    requires { vec_len slots.old + more ≤ vec_capacity slots.old }
    ensures { slots.new.items ≡ slots.old.items ++ replicate more None }
{
    for _i in 0..more {
        slots.push_reserved(None);
    }
}
