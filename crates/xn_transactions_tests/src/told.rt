use std::alloc::Global;
use std::test::Fail;
use xn_bytes::Bytes;
use xn_changes::{Act, BufferItem, Committed, InodeItem, Intent, Item, Place};
use xn_items::ParentRec;
use xn_transactions::ItemFault;

/// What is decoded, as text.
pub fn told(alloc: Global, decoded: &Result<Vec<Committed>, ItemFault>) -> Result<String, Fail> {
    match decoded {
        Ok(committed) => transactions(alloc, committed),
        Err(ItemFault::Foreign { at }) => placed(alloc, "foreign ", *at),
        Err(ItemFault::Malformed { at }) => placed(alloc, "malformed ", *at),
        Err(ItemFault::Memory) => Ok(String::from_str(alloc, "memory")?),
    }
}

fn transactions(alloc: Global, committed: &[Committed]) -> Result<String, Fail> {
    if committed.is_empty() {
        return Ok(String::from_str(alloc, "none")?);
    }
    let mut all = String::new(alloc);
    for (k, one) in committed.iter().enumerate() {
        if k > 0 {
            all.push_str(" / ")?;
        }
        all.push_str(&transaction(alloc, one)?)?;
    }
    Ok(all)
}

fn transaction(alloc: Global, committed: &Committed) -> Result<String, Fail> {
    let (cycle, sector) = stamp(committed.lsn);
    let tid = committed.transaction.tid;
    let mut all = format!(in alloc; "{cycle}.{sector} {tid}")?;
    let items = committed.transaction.items.as_slice();
    for (place, item) in committed.places.as_slice().iter().zip(items) {
        all.push_str(&placed(alloc, ", ", *place)?)?;
        all.push_str(&item_told(alloc, item)?)?;
    }
    Ok(all)
}

fn stamp(lsn: u64) -> (u64, u64) {
    (lsn >> 32, lsn & 0xffff_ffff)
}

fn placed(alloc: Global, front: &str, place: Place) -> Result<String, Fail> {
    let (cycle, sector) = stamp(place.lsn);
    let op = place.op;
    Ok(format!(in alloc; "{front}{cycle}.{sector}.{op}")?)
}

fn item_told(alloc: Global, item: &Item) -> Result<String, Fail> {
    match item {
        Item::Buffer(buffer) => buffer_told(alloc, buffer),
        Item::Inode(inode) => inode_told(alloc, inode),
        Item::Intent(intent) => intent_told(alloc, intent),
        Item::Done { id } => Ok(format!(in alloc; " done {id}")?),
    }
}

fn buffer_told(alloc: Global, buffer: &BufferItem) -> Result<String, Fail> {
    let (flags, length, sector) = (buffer.flags, buffer.length, buffer.sector);
    let mut all = format!(in alloc; " buffer {flags:x} {length} {sector} map")?;
    for word in buffer.map.as_slice() {
        let word = *word;
        all.push_str(&format!(in alloc; " {word:x}")?)?;
    }
    for region in buffer.regions.as_slice() {
        all.push_str(&bytes_told(alloc, " region ", region)?)?;
    }
    Ok(all)
}

fn inode_told(alloc: Global, inode: &InodeItem) -> Result<String, Fail> {
    let (fields, number) = (inode.fields, inode.number);
    let (sector, length, offset) = (inode.sector, inode.length, inode.offset);
    let mut all = format!(in alloc; " inode {fields:x} {number} in {sector} {length} {offset}")?;
    all.push_str(&bytes_told(alloc, " core ", &inode.core)?)?;
    if let Some(fork) = &inode.data_fork {
        all.push_str(&bytes_told(alloc, " data ", fork)?)?;
    }
    if let Some(fork) = &inode.attr_fork {
        all.push_str(&bytes_told(alloc, " attributes ", fork)?)?;
    }
    Ok(all)
}

fn intent_told(alloc: Global, intent: &Intent) -> Result<String, Fail> {
    let (id, ino, generation) = (intent.id, intent.ino, intent.generation);
    let mut all = format!(in alloc; " intent {id} {ino} {generation}")?;
    match &intent.act {
        Act::Set(parent) => all.push_str(&parent_told(alloc, " set ", parent)?)?,
        Act::Remove(parent) => all.push_str(&parent_told(alloc, " remove ", parent)?)?,
        Act::Replace { old, new } => {
            all.push_str(&parent_told(alloc, " old ", old)?)?;
            all.push_str(&parent_told(alloc, " new ", new)?)?;
        }
    }
    Ok(all)
}

fn parent_told(alloc: Global, front: &str, parent: &ParentRec) -> Result<String, Fail> {
    let (dir, generation) = (parent.dir, parent.generation);
    let name = hex::encode(alloc, parent.name.bytes())?;
    Ok(format!(in alloc; "{front}{dir} {generation} {name}")?)
}

fn bytes_told(alloc: Global, front: &str, bytes: &Bytes) -> Result<String, Fail> {
    let digits = hex::encode(alloc, bytes.as_slice())?;
    Ok(format!(in alloc; "{front}{digits}")?)
}
