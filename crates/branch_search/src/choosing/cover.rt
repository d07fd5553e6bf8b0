//! Covers: interventions of which the fixing at their present loads refutes a box.
use crate::choosing::member::Member;
use crate::choosing::tree_size::{ENDLESS, share_of, tree_size};
use std::alloc::AllocError;
use std::cmp::Reverse;

/// A split of the member that it costs most to leave the piece of, how large the tree gets that closes the box by such
/// covers, and the worth of the box where its last member is left.
#[derive(Clone, Copy)]
pub(crate) struct Cover {
    pub(crate) size: u64,
    pub(crate) worth: i128,
    pub(crate) count: usize,
    pub(crate) i: u32,
    pub(crate) last: u32,
}

/// How many of these members fill this room and more, where all of them do.
fn count_filling(members: &[Member], room: i128) -> Option<usize> {
    let mut left = room;
    for k in 0..members.len() {
        left = left.saturating_sub(members[k].load);
        if left < 0 {
            return Some(k + 1);
        }
    }
    None
}

/// The cover of the costliest members that fill this room and more, where all of them do: of a box of a worth that
/// lacks this much.
pub(crate) fn cover_of(
    members: &mut [Member],
    shares: &mut Vec<u64>,
    room: i128,
    worth: i128,
    lacking: i128,
) -> Result<Option<Cover>, AllocError> {
    members.sort_unstable_by_key(|member| Reverse(member.cost));
    let Some(count) = count_filling(members, room) else {
        return Ok(None);
    };
    let mut least = i128::MAX;
    shares.clear();
    for member in members.iter().take(count) {
        shares.push(share_of(member.cost, lacking))?;
        least = member.cost;
    }
    let Some(costliest) = members.first() else {
        return Ok(None);
    };
    Ok(Some(Cover {
        size: tree_size(shares.as_slice(), ENDLESS),
        worth: worth.saturating_add(least),
        count,
        i: costliest.i,
        last: costliest.last,
    }))
}

/// Whether a cover is better than another: by the size of its tree, then by its worth, then by how few its members are.
fn is_better(one: &Cover, other: &Cover) -> bool {
    if one.size != other.size {
        one.size < other.size
    } else if one.worth != other.worth {
        other.worth < one.worth
    } else {
        one.count < other.count
    }
}

/// The better cover, the first one where neither is better.
pub(crate) fn better(one: Option<Cover>, other: Option<Cover>) -> Option<Cover> {
    let (Some(a), Some(b)) = (one, other) else {
        return one.or(other);
    };
    if is_better(&b, &a) { other } else { one }
}
