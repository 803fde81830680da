// Reading and writing vectors at places that may be outside: a read there gives a default, a write does nothing.
use crate::stop::Stop;
use fraction::Frac;
use std::alloc::Global;
use std::mem;

/// The element at a place, or the other one where there is none.
#[inline]
pub fn at<T: Copy>(list: &[T], place: usize, other: T) -> T {
    if place < list.len() {
        list[place]
    } else {
        other
    }
}

/// Writes an element at a place, where there is one.
#[inline]
pub fn put<T: Copy>(list: &mut [T], place: usize, x: T) {
    if place < list.len() {
        list[place] = x;
    }
}

/// The number at a place, or 0.
#[inline]
pub fn number_at(list: &[Frac], place: usize) -> Frac {
    if place < list.len() {
        list[place]
    } else {
        Frac::zero()
    }
}

/// One more element at the end.
#[inline]
pub fn add<T: Drop>(list: &mut Vec<T>, x: T) -> Result<(), Stop> {
    match list.push(x) {
        Ok(()) => Ok(()),
        Err(_) => Err(Stop::NoMemory),
    }
}

/// One more element at the end of a list of lists' list.
pub fn add_to<T: Copy>(lists: &mut [Vec<T>], place: usize, x: T) -> Result<(), Stop> {
    if place < lists.len() {
        add(&mut lists[place], x)
    } else {
        Ok(())
    }
}

/// Takes a list out of a list of lists, and leaves an empty one there.
pub(crate) fn take_list<T: Copy>(alloc: Global, lists: &mut [Vec<T>], place: usize) -> Vec<T> {
    if place < lists.len() {
        mem::replace(&mut lists[place], Vec::new(alloc))
    } else {
        Vec::new(alloc)
    }
}

/// Puts a list back.
pub(crate) fn put_list<T: Copy>(lists: &mut [Vec<T>], place: usize, list: Vec<T>) {
    if place < lists.len() {
        lists[place] = list;
    }
}

/// So many copies of a value.
pub fn filled<T: Copy>(alloc: Global, count: usize, x: T) -> Result<Vec<T>, Stop> {
    let mut list = Vec::with_capacity(alloc, count)?;
    list.resize(count, x)?;
    Ok(list)
}

/// So many zeros.
pub fn zeros(alloc: Global, count: usize) -> Result<Vec<Frac>, Stop> {
    filled(alloc, count, Frac::zero())
}

/// So many empty lists.
pub fn empty_lists<T: Copy>(alloc: Global, count: usize) -> Result<Vec<Vec<T>>, Stop> {
    let mut lists = Vec::with_capacity(alloc, count)?;
    for _ in 0..count {
        add(&mut lists, Vec::new(alloc))?;
    }
    Ok(lists)
}

/// A list, copied.
pub fn copied<T: Copy>(alloc: Global, list: &[T]) -> Result<Vec<T>, Stop> {
    Ok(list.to_vec(alloc)?)
}

/// Adds 1 at a place.
pub(crate) fn count_up(counts: &mut [usize], place: usize) {
    let count = at(counts, place, 0);
    put(counts, place, count.saturating_add(1));
}

/// Takes 1 away at a place, and tells how many are left.
pub(crate) fn count_down(counts: &mut [usize], place: usize) -> usize {
    let left = at(counts, place, 0).saturating_sub(1);
    put(counts, place, left);
    left
}
