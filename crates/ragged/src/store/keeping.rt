ghost use Rattle.std.specs.Prelude.{◌≡◌, ◌<◌, ◌≤◌, true, [], ◌∷◌, ◌++◌, length, is_ok, IfOk, if◌then◌else◌, vec_len, vec_capacity, MatchOption, slice_index_or};
ghost use Rattle.std.specs.List.{between};
ghost use Rattle.ragged.specs.Lists.{lists_of, item_count, Roomy, Pushed, Closed};
ghost use Rattle.ragged.specs.Parts.{begins};

use super::Lists;
use std::alloc::{AllocError, Global};

impl<T: Drop> Lists<T> {
    // No list, nothing open, and the memory for so many lists and items.
    pub fn new(heap: Global, lists: usize, items: usize) -> Result<Lists<T>, AllocError>
        ensures { IfOk result (λ s. Roomy lists items s) }
    {
        let items = with_room(heap, items)?;
        let ends = with_room(heap, lists)?;
        Ok(Lists { items, ends })
    }

    // Puts an item at the end of the open list. For want of memory it is let go.
    pub fn push(&mut self, item: T) -> Result<(), AllocError>
        ensures { Pushed item self.old self.new result }
    {
        put_last(&mut self.items, item)
    }

    // Closes the open list, and opens another after it.
    pub fn close(&mut self) -> Result<(), AllocError>
        ensures { Closed self.old self.new result }
    {
        put_last(&mut self.ends, count(&self.items))
    }

    // The number of lists that are closed.
    pub fn len(&self) -> usize
        ensures { result ≡ length (lists_of self.now) }
    {
        count(&self.ends)
    }

    // The number of items in all.
    pub fn item_count(&self) -> usize
        ensures { result ≡ item_count self.now }
    {
        count(&self.items)
    }

    // A closed list, by its number.
    pub fn get(&self, number: usize) -> Option<&[T]>
        ensures { MatchOption result (length (lists_of self.now) ≤ number) (λ s. (number < length (lists_of self.now)) × (s.now ≡ slice_index_or (lists_of self.now) number [])) }
    {
        let end = self.ends.get(number)?;
        part(&self.items, start_of(&self.ends, number), *end)
    }
}

// Where a list begins.
fn start_of(ends: &[usize], number: usize) -> usize
    ensures { result ≡ begins ends.now number }
{
    if number == 0 {
        0
    } else {
        ends.get(number - 1).copied().unwrap_or(0)
    }
}

// The items from a place to another, if they lie within.
fn part<T>(items: &[T], start: usize, end: usize) -> Option<&[T]>
    ensures { MatchOption result (start ≤ end → end ≤ length items.now → ⊥) (λ s. s.now ≡ between start end items.now) }
{
    items.get(start..end)
}

// No item, with the memory for so many.
fn with_room<T>(heap: Global, size: usize) -> Result<Vec<T>, AllocError>
    ensures { IfOk result (λ v. (v.items ≡ []) × (size ≤ vec_capacity v)) }
{
    Vec::with_capacity(heap, size)
}

fn count<T>(items: &Vec<T>) -> usize
    ensures { result ≡ vec_len items.now }
{
    items.len()
}

// Puts an item last, if there is memory for it.
fn put_last<T: Drop>(items: &mut Vec<T>, item: T) -> Result<(), AllocError>
    ensures items { items.new.items ≡ (if is_ok result then items.old.items ++ item ∷ [] else items.old.items) }
    ensures len { vec_len items.old ≤ vec_len items.new }
    ensures capacity { vec_capacity items.old ≤ vec_capacity items.new }
    ensures succeeds { vec_len items.old < vec_capacity items.old → is_ok result ≡ true }
{
    items.push(item)?;
    Ok(())
}
