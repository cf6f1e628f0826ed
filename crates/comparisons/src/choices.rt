//! Schedules whose texts have lists of divisors, of which each is chosen in turn.

use claims::{ObjectKey, Place, Step};
use json_places::{item_places, value_end, value_place};
use std::alloc::{AllocError, Global};

/// The most choices of divisors of one text.
const CHOICES: usize = 256;

/// A schedule's text, and the name under which it is told.
#[derive(Drop)]
pub struct ScheduleText {
    pub name: String,
    pub bytes: Vec<u8>,
}

/// A list in the place of a divisor: from where to where it stands in the text, and from where to where each of its members does.
#[derive(Drop)]
struct DivisorList {
    from: usize,
    to: usize,
    members: Vec<(usize, usize)>,
}

/// The list that stands in the place of a divisor, which begins at a place of a text, if it is one and has a member.
fn list_at(alloc: Global, text: &[u8], from: usize) -> Result<Option<DivisorList>, AllocError> {
    let mut members = Vec::new(alloc);
    for member in item_places(alloc, text, from)? {
        members.push((member, value_end(text, member)))?;
    }
    if members.is_empty() {
        return Ok(None);
    }
    let to = value_end(text, from);
    Ok(Some(DivisorList { from, to, members }))
}

/// Puts the lists of divisors among the keys of a statement, which begin at a place of a text, behind others.
fn put_lists(
    alloc: Global,
    text: &[u8],
    keys: usize,
    lists: &mut Vec<DivisorList>,
) -> Result<(), AllocError> {
    for key in item_places(alloc, text, keys)? {
        let parts = item_places(alloc, text, key)?;
        if let [_, divisor] = parts.as_slice() {
            if let Some(list) = list_at(alloc, text, *divisor)? {
                lists.push(list)?;
            }
        }
    }
    Ok(())
}

/// The place of the list of keys in a schedule's text.
fn keys_place(alloc: Global, text: &[u8]) -> Result<Option<usize>, AllocError> {
    let mut steps = Vec::new(alloc);
    steps.push(Step::Key(ObjectKey("keys")))?;
    Ok(value_place(text, &Place::new(steps)))
}

/// The lists of divisors in a schedule's text.
fn lists_in(alloc: Global, text: &[u8]) -> Result<Vec<DivisorList>, AllocError> {
    let mut lists = Vec::new(alloc);
    let Some(all) = keys_place(alloc, text)? else {
        return Ok(lists);
    };
    for keys in item_places(alloc, text, all)? {
        put_lists(alloc, text, keys, &mut lists)?;
    }
    Ok(lists)
}

/// How many choices lists give, where they are at most 256.
fn choices_of(lists: &[DivisorList]) -> Option<usize> {
    let mut choices: usize = 1;
    for list in lists {
        choices = choices.saturating_mul(list.members.len());
    }
    if choices <= CHOICES {
        Some(choices)
    } else {
        None
    }
}

/// The bytes of a text between two places.
fn between(text: &[u8], from: usize, to: usize) -> &[u8] {
    text.get(from..to).unwrap_or(&[])
}

impl DivisorList {
    /// The bytes of its member of this number, counted round and round.
    fn member<'a>(&self, text: &'a [u8], number: usize) -> &'a [u8] {
        let place = number.checked_rem(self.members.len()).unwrap_or(0);
        match self.members.as_slice().get(place) {
            Some((from, to)) => between(text, *from, *to),
            None => &[],
        }
    }
}

/// The text in which each list is replaced by its member of the choice of this number, where the first list changes first; and the
/// name, with these members behind it.
fn chosen(
    alloc: Global,
    name: &str,
    text: &[u8],
    lists: &[DivisorList],
    number: usize,
) -> Result<ScheduleText, AllocError> {
    let mut bytes = Vec::new(alloc);
    let mut told = name.to_string(alloc)?;
    let mut after = 0;
    let mut rest = number;
    for list in lists {
        let member = list.member(text, rest);
        rest = rest.checked_div(list.members.len()).unwrap_or(0);
        bytes.extend_from_slice(between(text, after, list.from))?;
        bytes.extend_from_slice(member)?;
        after = list.to;
        told.push_str(" /")?;
        told.push_str(str::from_utf8(member).unwrap_or("?"))?;
    }
    bytes.extend_from_slice(between(text, after, text.len()))?;
    Ok(ScheduleText { name: told, bytes })
}

/// Puts the schedules that a text has behind others: the text as it is or, where lists of divisors stand in it, the text of each choice
/// of their members, with the divisors behind its name. Whether there are at most 256; of more none is put.
pub fn put_choices(
    alloc: Global,
    name: &str,
    text: &[u8],
    all: &mut Vec<ScheduleText>,
) -> Result<bool, AllocError> {
    let lists = lists_in(alloc, text)?;
    let Some(choices) = choices_of(lists.as_slice()) else {
        return Ok(false);
    };
    for number in 0..choices {
        all.push(chosen(alloc, name, text, lists.as_slice(), number)?)?;
    }
    Ok(true)
}
