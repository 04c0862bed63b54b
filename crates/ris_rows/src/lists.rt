ghost use Rattle.std.specs.Prelude.{◌≡◌, ◌+◌, ◌<◌, ◌≤◌, false, IsTrue, length, vec_len, vec_capacity};
ghost use Rattle.ris_rows.specs.Neighbours.{IsAscending, IsFound, place_of, has, copies_of, counted};

use crate::neighbours::{Neighbour, Packed};

/// The number of neighbours that stand before (end, weight), by binary search.
fn place(items: &[Packed], end: u32, weight: u64) -> usize
    requires { IsAscending items.now }
    ensures value { result ≡ place_of items.now end weight }
    ensures bound { result ≤ length items.now }
{
    items.partition_point(|item| item.neighbour().is_before(end, weight))
}

/// The place of the neighbour (end, weight), by binary search: `Ok` where it stands in the list, and `Err` of the place
/// where it would go.
pub fn find(items: &[Packed], end: u32, weight: u64) -> Result<usize, usize>
    requires { IsAscending items.now }
    ensures { IsFound items.now end weight result }
{
    let place = place(items, end, weight);
    match items.get(place) {
        Some(item) if item.neighbour().is_of(end, weight) => Ok(place),
        _ => Err(place),
    }
}

/// The place of the neighbour (end, weight), as `find` has it. It looks at the last neighbour first, and searches only
/// where that one stands past (end, weight).
pub fn find_from_end(items: &[Packed], end: u32, weight: u64) -> Result<usize, usize>
    requires { IsAscending items.now }
    ensures { IsFound items.now end weight result }
{
    match items.last() {
        Some(last) if last.neighbour().is_of(end, weight) => Ok(items.len() - 1),
        Some(last) if !last.neighbour().is_before(end, weight) => find(items, end, weight),
        _ => Err(items.len()),
    }
}

/// Whether the neighbour (end, weight) goes behind the last one: then each neighbour of the list stands before it.
#[inline(always)]
pub fn goes_last(items: &[Packed], end: u32, weight: u64) -> bool
    requires { IsAscending items.now }
    ensures { IsTrue result → place_of items.now end weight ≡ length items.now }
{
    match items.last() {
        Some(last) => last.neighbour().is_before(end, weight),
        None => true,
    }
}

/// One copy of the neighbour (end, weight), which goes behind the last one. There is room for it.
#[inline(always)]
pub fn put_last(items: &mut Vec<Packed>, end: u32, weight: u64)
    requires ascending { IsAscending items.old.items }
    requires last { place_of items.old.items end weight ≡ length items.old.items }
    requires room { vec_len items.old < vec_capacity items.old }
    ensures items { items.new.items ≡ counted items.old.items end weight (copies_of items.old.items end weight + 1) }
    ensures capacity { vec_capacity items.new ≡ vec_capacity items.old }
{
    items.push_reserved(Packed::of(Neighbour {
        end,
        weight,
        copies: 1,
    }));
}

/// The number of copies of the neighbour (end, weight), which was looked for.
pub fn copies_at(items: &[Packed], found: Result<usize, usize>, end: u32, weight: u64) -> u64
    requires ascending { IsAscending items.now }
    requires found { IsFound items.now end weight found }
    ensures { result ≡ copies_of items.now end weight }
{
    match found {
        Ok(place) => items[place].neighbour().copies,
        Err(_) => 0,
    }
}

/// Sets the number of copies of the neighbour (end, weight), which was looked for. Where it is new, there is room for it.
pub fn write(
    items: &mut Vec<Packed>,
    found: Result<usize, usize>,
    end: u32,
    weight: u64,
    copies: u64,
)
    requires found { IsFound items.old.items end weight found }
    requires room { has items.old.items end weight ≡ false → 1 ≤ copies → vec_len items.old < vec_capacity items.old }
    ensures items { items.new.items ≡ counted items.old.items end weight copies }
    ensures capacity { vec_capacity items.new ≡ vec_capacity items.old }
{
    let item = Packed::of(Neighbour {
        end,
        weight,
        copies,
    });
    match found {
        Ok(place) if copies > 0 => items[place] = item,
        Ok(place) => {
            let _ = items.remove(place);
        }
        Err(place) if copies > 0 => {
            if place == items.len() {
                items.push_reserved(item);
            } else {
                let _ = items.insert(place, item);
            }
        }
        Err(_) => {}
    }
}
