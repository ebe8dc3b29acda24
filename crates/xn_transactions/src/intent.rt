//! Intents on parent records (`struct xfs_attri_log_format`).

ghost use Rattle.std.specs.Prelude.{◌≡◌, ◌≤◌, ◌-◌, length};
ghost use Rattle.xn_changes.specs.Decoded.{bytes_of};
ghost use Rattle.xn_changes.specs.Items.{intent_with, is_lawful_intent_format, take_intent};
ghost use Rattle.xn_transactions.specs.Taking.{Says, Takes, one_said, replace_said};

use crate::fault::Refusal;
use crate::numbers::{little_u16_at, little_u64_at};
use crate::parent::{VALUE, parent_in};
use crate::region::{Region, are_there, region_at};
use crate::taken::Taken;
use std::alloc::Global;
use xn_bytes::little_u32_at;
use xn_changes::{Act, Intent, Item};
use xn_items::ParentRec;

/// How many bytes the first region has.
const FORMAT: usize = 40;

const SET: u32 = 4;

const REMOVE: u32 = 5;

const REPLACE: u32 = 6;

/// The attributes of parents, as what an intent speaks of.
const PARENTS: u32 = 8;

/// The intent on a parent record: with the name and the value behind the first region, or those of two records where one replaces
/// another.
pub(crate) fn take_intent(
    alloc: Global,
    first: &[u8],
    rest: &[Region<'_>],
) -> Result<Taken, Refusal>
    ensures { Takes (take_intent first.now (bytes_of rest.now)) result }
{
    if first.len() < 28 {
        return Err(Refusal::Malformed);
    }
    match little_u32_at(first, 24) {
        SET => {
            let parent = one_parent(alloc, first, rest)?;
            Ok(taken_with(first, Act::Set(parent), 2))
        }
        REMOVE => {
            let parent = one_parent(alloc, first, rest)?;
            Ok(taken_with(first, Act::Remove(parent), 2))
        }
        REPLACE => {
            let act = replace_in(alloc, first, rest)?;
            Ok(taken_with(first, act, 4))
        }
        _ => Err(Refusal::Foreign),
    }
}

/// The parent record that is set or removed.
fn one_parent(alloc: Global, first: &[u8], rest: &[Region<'_>]) -> Result<ParentRec, Refusal>
    ensures { Says (one_said first.now (bytes_of rest.now)) result }
{
    if !is_lawful_format(3, first, rest) {
        return Err(Refusal::Malformed);
    }
    let length = little_u32_at(first, 28) as usize;
    parent_in(alloc, length, region_at(rest, 0), region_at(rest, 1))
}

/// The parent record that goes, and the one that stands in its place.
fn replace_in(alloc: Global, first: &[u8], rest: &[Region<'_>]) -> Result<Act, Refusal>
    ensures { Says (replace_said first.now (bytes_of rest.now)) result }
{
    if !is_lawful_format(5, first, rest) {
        return Err(Refusal::Malformed);
    }
    let old_length = usize::from(little_u16_at(first, 28));
    let new_length = usize::from(little_u16_at(first, 30));
    let old = parent_in(alloc, old_length, region_at(rest, 0), region_at(rest, 2))?;
    let new = parent_in(alloc, new_length, region_at(rest, 1), region_at(rest, 3))?;
    Ok(Act::Replace { old, new })
}

/// What all intents have: the length, values of a parent record, and so many regions, all of which are there.
fn is_lawful_format(regions: u16, first: &[u8], rest: &[Region<'_>]) -> bool
    requires { 1 ≤ regions }
    ensures { result ≡ is_lawful_intent_format regions first.now (bytes_of rest.now) }
{
    first.len() == FORMAT
        && little_u32_at(first, 32) as usize == VALUE
        && little_u32_at(first, 36) == PARENTS
        && little_u16_at(first, 2) == regions
        && are_there(usize::from(regions) - 1, rest)
}

fn taken_with(first: &[u8], act: Act, behind: usize) -> Taken
    requires { 28 ≤ length first.now }
    ensures item { result.item ≡ intent_with first.now act }
    ensures behind { result.behind ≡ behind }
{
    let item = Item::Intent(Intent {
        id: little_u64_at(first, 8),
        ino: little_u64_at(first, 16),
        generation: little_u32_at(first, 4),
        act,
    });
    Taken { item, behind }
}
