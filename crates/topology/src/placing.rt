ghost use Rattle.std.specs.Prelude.{◌≡◌, IfOk, MatchOption, nat_eq, map, filter};
ghost use Rattle.std.specs.List.Sorted.{IsPermutation};
ghost use Rattle.std.specs.List.{list_any};
ghost use Rattle.std.specs.Cmp.Lexicographic.{pointwise};
ghost use Rattle.topology.specs.Picks.{takes, mark_of, shown, wants, IsPick, AreAround, NoneAround, AreAroundOne, NoneAroundAny};
ghost use Rattle.topology.specs.Choices.{has_room, id_of};

use crate::member::Member;
use needle::Placement;
use std::alloc::{AllocError, Global};
use weed_base::Name;

/// Where nodes of a choice stand: in its main rack, in other racks of its main data center, or in others.
#[derive(Clone, Copy)]
pub(crate) enum Part {
    Main,
    Beside,
    Away,
}

impl Part {
    /// Whether a node may stand there around this main one.
    fn takes(self, main: &Member, member: &Member) -> bool
        ensures { result ≡ takes self main.now member.now }
    {
        let in_center = member.node.data_center.as_slice() == main.node.data_center.as_slice();
        let in_rack = member.node.rack.as_slice() == main.node.rack.as_slice();
        match self {
            Part::Main => in_center && in_rack,
            Part::Beside => in_center && !in_rack,
            Part::Away => !in_center,
        }
    }

    /// What differs among the nodes that stand there.
    fn mark(self, member: &Member) -> &[u8]
        ensures { result.now ≡ mark_of self member.now }
    {
        match self {
            Part::Main => member.node.id.as_slice(),
            Part::Beside => member.node.rack.as_slice(),
            Part::Away => member.node.data_center.as_slice(),
        }
    }

    /// Whether one of these members has this mark.
    fn has_mark(self, mark: &[u8], members: &[&Member]) -> bool
        ensures { result ≡ list_any (λ member. pointwise nat_eq mark.now (mark_of self member.now)) members.now }
    {
        members.iter().any(|member| mark == self.mark(member))
    }

    /// Whether one member more is wanted there around a main one.
    fn wants(self, main: &Member, member: &Member, picked: &[&Member], count: usize) -> bool
        ensures { result ≡ wants self main.now count (shown picked.now) member.now }
    {
        if picked.len() >= count {
            return false;
        }
        self.takes(main, member) && !self.has_mark(self.mark(member), picked)
    }
}

/// The first of these members that may stand there around a main one, each of another mark: at most so many.
fn pick<'a>(
    alloc: Global,
    free: &[&'a Member],
    part: Part,
    main: &Member,
    count: usize,
) -> Result<Vec<&'a Member>, AllocError>
    ensures { IfOk result (λ picked. IsPick part main.now count (shown free.now) (shown picked.items)) }
{
    let mut picked: Vec<&'a Member> = Vec::new(alloc);
    for member in free {
        let member: &'a Member = member;
        if part.wants(main, member, &picked, count) {
            picked.push(member)?;
        }
    }
    Ok(picked)
}

/// The nodes around a main one that a placement wants, where there are any.
fn choose<'a>(
    alloc: Global,
    free: &[&'a Member],
    main: &Member,
    placement: Placement,
) -> Result<Option<Vec<&'a Member>>, AllocError>
    ensures { IfOk result (λ found. MatchOption found (NoneAround placement main.now (shown free.now)) (λ chosen. AreAround placement main.now (shown free.now) (shown chosen.items))) }
{
    let mut chosen = pick(alloc, free, Part::Main, main, usize::from(placement.z) + 1)?;
    if chosen.len() <= usize::from(placement.z) {
        return Ok(None);
    }
    let mut beside = pick(alloc, free, Part::Beside, main, usize::from(placement.y))?;
    if beside.len() < usize::from(placement.y) {
        return Ok(None);
    }
    let mut away = pick(alloc, free, Part::Away, main, usize::from(placement.x))?;
    if away.len() < usize::from(placement.x) {
        return Ok(None);
    }
    chosen.append(&mut beside)?;
    chosen.append(&mut away)?;
    Ok(Some(chosen))
}

/// The nodes that a placement wants, the first of these that may be its main one among them, where there are any.
pub(crate) fn choose_any<'a>(
    alloc: Global,
    free: &[&'a Member],
    placement: Placement,
) -> Result<Option<Vec<&'a Member>>, AllocError>
    ensures { IfOk result (λ found. MatchOption found (NoneAroundAny placement (shown free.now)) (λ chosen. AreAroundOne placement (shown free.now) (shown chosen.items))) }
{
    for main in free {
        match choose(alloc, free, main, placement)? {
            Some(chosen) => return Ok(Some(chosen)),
            None => {}
        }
    }
    Ok(None)
}

/// The members with room, those with the most of it first, and of like ones those with the lesser ids.
pub(crate) fn free_members(alloc: Global, members: &[Member]) -> Result<Vec<&Member>, AllocError>
    ensures { IfOk result (λ free. IsPermutation (filter has_room members.now) (shown free.items)) }
{
    let mut free: Vec<&Member> = Vec::new(alloc);
    for member in members {
        if member.has_room() {
            free.push(member)?;
        }
    }
    free.sort_by(|left, right| right.room_left().cmp(&left.room_left()))?;
    Ok(free)
}

/// The ids of these members.
pub(crate) fn ids_of(alloc: Global, members: &[&Member]) -> Result<Vec<Name>, AllocError>
    ensures { IfOk result (λ ids. ids.items ≡ map id_of (shown members.now)) }
{
    let mut ids = Vec::new(alloc);
    for member in members {
        ids.push(member.node.id.copy(alloc)?)?;
    }
    Ok(ids)
}
