use super::families::{Family, Shape, drawn};
use super::joins::{guessed, searched, weight_of};
use Shape::{Grid, Sparse};
use mb_problem::Instance;
use std::alloc::Global;
use std::marker::Brand;
use std::process::Abort;
use std::sync::ledger::Blank;
use std::test::Fail;

/// How many instances are drawn from each family.
const CASES: u32 = 30;

/// Families, and how many of the instances of each have a guess that is proved, at least: the name,
/// the graph, the least weight, how many weights there are, the terminals, and the number.
const FAMILIES: [(&str, Shape, i64, u32, u32, u32); 10] = [
    ("small grid", Grid(5, 5), 1, 3, 4, 27),
    ("grid", Grid(8, 8), 1, 9, 10, 27),
    ("wide grid", Grid(9, 12), 1, 100, 20, 25),
    ("large grid", Grid(12, 12), 1, 1000, 40, 20),
    ("equal weights", Grid(10, 10), 1, 1, 40, 27),
    ("zero weights", Grid(10, 10), 0, 3, 20, 20),
    ("small sparse graph", Sparse(30, 60), 1, 9, 8, 27),
    ("sparse graph", Sparse(60, 30), 1, 50, 12, 18),
    ("large sparse graph", Sparse(120, 60), 1, 1000, 40, 2),
    ("zeros", Sparse(80, 50), 0, 10, 24, 4),
];

/// Whether an instance has a guess that is proved. Its weight is asserted to be that of the join
/// that a search finds.
fn is_guessed(rt: &impl Abort, alloc: Global, instance: &Instance) -> Result<bool, Fail> {
    let guess = guessed::<Brand>(rt, alloc, instance, Blank::new(1))?;
    let found = searched::<Brand>(rt, alloc, instance, Blank::new(1))?;
    let Some(guess) = guess else {
        return Ok(false);
    };
    let least = weight_of(instance, found.edges.as_slice());
    assert!(rt; weight_of(instance, guess.edges.as_slice()) == least);
    Ok(true)
}

/// How many instances of a family have a guess that is proved.
fn guesses_of(rt: &impl Abort, alloc: Global, family: &Family) -> Result<u32, Fail> {
    let mut given = 0u32;
    for start in 0..CASES {
        let instance = drawn(rt, alloc, family, start)?;
        if is_guessed(rt, alloc, &instance)? {
            given = given.wrapping_add(1);
        }
    }
    Ok(given)
}

#[test]
fn most_joins_are_guessed(rt: HostRuntime) -> Result<(), Fail> {
    for (name, shape, least, weights, terminals, wanted) in &FAMILIES {
        let family = Family {
            shape: *shape,
            least: *least,
            weights: *weights,
            terminals: *terminals,
        };
        let given = guesses_of(&rt, rt.alloc(), &family)?;
        assert!(rt; given >= *wanted, "{name}: {given} of {CASES}");
    }
    Ok(())
}
