//! Walks beside a plain list of the keys and which are marked.

ghost use Rattle.std.specs.Prelude.{◌≡◌, ◌<◌, length};

use marked_map::*;
use probe_steps::Steps;
use std::alloc::{AllocError, Global};
use std::marker::Brand;
use std::sync::ledger::{Blank, Ledger};
use std::test::Fail;

// A pair of the plain list that is kept beside the map.
#[derive(Drop)]
struct Plain {
    key: u32,
    value: u32,
    marked: bool,
}

// A call on a pair that is there.
fn change(map: &mut MarkedMap<u32, u32>, place: usize, call: u32)
    requires { place < length map.old.pairs }
{
    match call % 7 {
        0 | 1 => drop(map.remove_at(place)),
        2 => *map.value_at_mut(place) = call,
        3 | 4 => drop(map.mark_at(place)),
        _ => drop(map.unmark_at(place)),
    }
}

// The same in the plain list.
fn change_pair(pair: &mut Plain, call: u32) {
    match call % 7 {
        2 => pair.value = call,
        3 | 4 => pair.marked = true,
        _ => pair.marked = false,
    }
}

fn change_plain(plain: &mut Vec<Plain>, key: u32, call: u32) {
    if call % 7 < 2 {
        plain.retain(|pair| pair.key != key);
        return;
    }
    for pair in plain.iter_mut() {
        if pair.key == key {
            change_pair(pair, call);
        }
    }
}

// One call of the map, and the same in the plain list. To enter a key that is there changes nothing.
fn step<L: Ledger>(
    map: &mut MarkedMap<u32, u32>,
    plain: &mut Vec<Plain>,
    call: u32,
    key: u32,
    steps: &mut Steps<L>,
) -> Result<(), AllocError> {
    let Some(place) = map.find(&key, steps) else {
        map.enter(key, call, steps)?;
        plain.push(Plain {
            key,
            value: call,
            marked: false,
        })?;
        return Ok(());
    };
    if call % 7 == 6 {
        map.enter(key, call, steps)?;
        return Ok(());
    }
    change(map, place, call);
    change_plain(plain, key, call);
    Ok(())
}

// Whether the map has the pairs of the plain list, with their marks, and no others.
fn agrees<L: Ledger>(map: &MarkedMap<u32, u32>, plain: &[Plain], steps: &mut Steps<L>) -> bool {
    for pair in plain {
        let Some(place) = map.find(&pair.key, steps) else {
            return false;
        };
        let same = *map.key_at(place) == pair.key && *map.value_at(place) == pair.value;
        if !same || (place < map.marked()) != pair.marked {
            return false;
        }
    }
    map.len() == plain.len()
}

// Sixty calls on eleven keys, in an order that a multiplication makes.
fn agree<L: Ledger>(
    map: &mut MarkedMap<u32, u32>,
    plain: &mut Vec<Plain>,
    steps: &mut Steps<L>,
) -> Result<bool, AllocError> {
    for call in 0..60u32 {
        step(map, plain, call, call * 37 % 101 % 11, steps)?;
        if !agrees(map, plain, steps) {
            return Ok(false);
        }
    }
    Ok(map.len() > 3 && map.marked() > 1)
}

fn walks<L: Ledger>(alloc: Global, blank: Blank) -> Result<bool, AllocError>
    requires name { blank.name ≡ L.name }
    requires parts { blank.parts ≡ L.parts }
    requires some { 0 < blank.parts }
{
    let mut steps = Steps::<L>::open(blank);
    let mut map = MarkedMap::new(alloc);
    let mut plain = Vec::new(alloc);
    agree(&mut map, &mut plain, &mut steps)
}

#[test]
fn walks_beside_a_plain_list(rt: HostRuntime) -> Result<(), Fail> {
    assert!(rt; walks::<Brand>(rt.alloc(), Blank::new(1))?);
    Ok(())
}
